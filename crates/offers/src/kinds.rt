//! The kinds of record, and the bytes that mark them on a sheet.
ghost use Rattle.std.specs.Prelude.{◌≡◌};

use crate::records::{Band, Exclusion, Limit, Package, Pair, Record};

/// The kinds of record, by their tags.
#[derive(Clone, Copy, PartialEq, Eq, Debug)]
pub enum Kind {
    Package = 1,
    Band = 2,
    Pair = 3,
    Exclusion = 4,
    Limit = 5,
}

/// A byte that stands for no case: of a kind here, of a status on a sheet.
#[derive(Clone, Copy, PartialEq, Eq, Debug)]
pub struct Unknown(pub u8);

impl TryFrom<u8> for Kind {
    ghost use Rattle.offers.specs.Marks.{decoded, kind_of_tag};

    type Error = Unknown;

    ghost try_from_gives = { λ byte r. r ≡ decoded kind_of_tag byte };

    fn try_from(byte: u8) -> Result<Kind, Unknown> {
        match byte {
            1 => Ok(Kind::Package),
            2 => Ok(Kind::Band),
            3 => Ok(Kind::Pair),
            4 => Ok(Kind::Exclusion),
            5 => Ok(Kind::Limit),
            _ => Err(Unknown(byte)),
        }
    }
}

impl Kind {
    ghost use Rattle.offers.specs.Layouts.{size_of};
    ghost use Rattle.offers.specs.Memory.{layout_of};

    /// What marks the kind on a sheet.
    pub fn tag(self) -> u8
        ensures { result ≡ (layout_of self).tag }
    {
        self as u8
    }

    /// The bytes of a record of the kind.
    pub fn record_length(self) -> u16
        ensures { result ≡ size_of (layout_of self) }
    {
        match self {
            Kind::Package => Package::LENGTH,
            Kind::Band => Band::LENGTH,
            Kind::Pair => Pair::LENGTH,
            Kind::Exclusion => Exclusion::LENGTH,
            Kind::Limit => Limit::LENGTH,
        }
    }
}
