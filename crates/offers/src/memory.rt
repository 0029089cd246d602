//! All offers of a round: the entries of every kind, held in ledgers.
use crate::kinds::Kind;
use crate::ledgers::Ledger;
use crate::records::{Band, Exclusion, Limit, Package, Pair};
use crate::refusals::Refusal;
use crate::registers::Register;

/// A record of any kind.
#[derive(Clone, Copy, PartialEq, Eq, Debug)]
pub enum Offer {
    Package(Package),
    Band(Band),
    Pair(Pair),
    Exclusion(Exclusion),
    Limit(Limit),
}

/// The offer numbers of packages are 1 to this.
pub const PACKAGES: usize = 40;

/// Those of bands.
pub const BANDS: usize = 64;

/// Those of pairs.
pub const PAIRS: usize = 64;

/// Those of exclusions.
pub const EXCLUSIONS: usize = 64;

/// Those of limits.
pub const LIMITS: usize = 32;

/// The buyers of bands are 1 to this.
pub const BUYERS: usize = 16;

/// The entries of all kinds.
#[derive(Clone, Copy)]
pub struct Offers {
    pub packages: Ledger<Package, PACKAGES>,
    pub bands: Ledger<Band, BANDS>,
    pub pairs: Ledger<Pair, PAIRS>,
    pub exclusions: Ledger<Exclusion, EXCLUSIONS>,
    pub limits: Ledger<Limit, LIMITS>,
}

impl Offers {
    ghost use Rattle.std.specs.Prelude.{◌≡◌};
    ghost use Rattle.offers.specs.Memory.{all_vacant, file_offer, withdraw_offer, Kept};

    /// The offers of a round that has none: every number is vacant.
    pub fn vacant() -> Offers
        ensures { result ≡ all_vacant }
    {
        Offers {
            packages: Ledger::vacant(),
            bands: Ledger::vacant(),
            pairs: Ledger::vacant(),
            exclusions: Ledger::vacant(),
            limits: Ledger::vacant(),
        }
    }

    /// Makes a vacant number of the record's kind open.
    pub fn file(&mut self, number: u8, offer: Offer) -> Result<(), Refusal>
        ensures answer { result ≡ (file_offer self.old number offer).answer }
        ensures after { self.new ≡ (file_offer self.old number offer).after }
        ensures kept { Kept self.old result self.new }
    {
        match offer {
            Offer::Package(new) => Register(&mut self.packages.entries).file(number, new),
            Offer::Band(new) => Register(&mut self.bands.entries).file(number, new),
            Offer::Pair(new) => Register(&mut self.pairs.entries).file(number, new),
            Offer::Exclusion(new) => Register(&mut self.exclusions.entries).file(number, new),
            Offer::Limit(new) => Register(&mut self.limits.entries).file(number, new),
        }
    }

    /// Makes an open number of a kind withdrawn.
    pub fn withdraw(&mut self, kind: Kind, number: u8) -> Result<(), Refusal>
        ensures answer { result ≡ (withdraw_offer self.old kind number).answer }
        ensures after { self.new ≡ (withdraw_offer self.old kind number).after }
        ensures kept { Kept self.old result self.new }
    {
        match kind {
            Kind::Package => Register(&mut self.packages.entries).withdraw(number),
            Kind::Band => Register(&mut self.bands.entries).withdraw(number),
            Kind::Pair => Register(&mut self.pairs.entries).withdraw(number),
            Kind::Exclusion => Register(&mut self.exclusions.entries).withdraw(number),
            Kind::Limit => Register(&mut self.limits.entries).withdraw(number),
        }
    }
}
