//! The kinds of record that an offer can be, and what every kind owes.
ghost use Rattle.std.specs.Prelude.{◌≡◌, ℕ, length, IsTrue, ◌↔◌};
ghost use Rattle.offers.specs.Layouts.{Layout, LayoutLaws, size_of, bytes_of, read_from, fault_of, numbered_field};

/// A kind of record. Fields hold whole numbers as they were sent, so that one out of range can be refused by its number.
pub trait Record: Copy + PartialEq {
    /// what marks the kind on a sheet
    const TAG: u8;

    /// the bytes of a record
    const LENGTH: u16;

    /// the offer numbers are 1 to this
    const COUNT: u8;

    ghost TAG: { ℕ };

    ghost LENGTH: { ℕ };

    ghost COUNT: { ℕ };

    ghost layout: { Layout Self };

    /// The number of the first field out of range.
    fn fault(&self) -> Option<u8>
        ensures { result ≡ numbered_field (fault_of layout self.now) };

    /// The record in its bytes.
    fn read(source: &[u8]) -> Self
        requires { length source.now ≡ size_of layout }
        ensures { result ≡ read_from layout source.now };

    /// Writes the record's bytes.
    fn write(&self, out: &mut [u8])
        requires { length out.old ≡ size_of layout }
        ensures { out.new ≡ bytes_of layout self.now };

    ghost tagged: { TAG ≡ layout.tag };

    ghost sized: { LENGTH ≡ size_of layout };

    ghost counted: { COUNT ≡ layout.count };

    ghost laws: { LayoutLaws layout };

    // Equal fields make equal records.
    ghost known_by_fields: { (r s : Self) → IsTrue (Self.eq r s) ↔ (r ≡ s) };
}

/// What a seller offers as one: all of it is bought for its price, or nothing.
#[derive(Clone, Copy, Debug, PartialEq, Eq)]
pub struct Package {
    /// MW
    pub power: u32,
    /// MWh by the year
    pub energy: u32,
    /// certificates by the year
    pub certificates: u32,
    /// MW
    pub nameplate: u32,
    /// pesos, as filed
    pub price: u64,
    pub power_zone: u8,
    pub interconnection_zone: u8,
    pub export_zone: u8,
    pub price_zone: u8,
    /// 0 standard, 1 before, 2 after
    pub date: u8,
    /// 1 without connection priority
    pub unqualified: u8,
    /// 1 indexed to dollars
    pub dollar: u8,
}

/// When a package's plant starts.
#[derive(Clone, Copy, PartialEq, Eq, Debug)]
pub enum Date {
    Standard = 0,
    Before = 1,
    After = 2,
}

impl Package {
    ghost use Rattle.std.specs.Prelude.{◌==◌};
    ghost use Rattle.offers.specs.Marks.{date_byte};

    /// Whether the package's plant starts so.
    pub fn is_dated(&self, date: Date) -> bool
        ensures { result ≡ (self.now.date == date_byte date) }
    {
        self.date == date as u8
    }
}

/// What a buyer would take of one market, and at which price.
#[derive(Clone, Copy, PartialEq, Eq, Debug)]
pub struct Band {
    /// 1 to 3 power in that zone, 4 energy, 5 certificates
    pub market: u8,
    /// MW, MWh or certificates
    pub quantity: u32,
    /// pesos for one
    pub price: u32,
    /// who bids, 1 to 16
    pub buyer: u8,
}

/// A package that may be taken only together with another.
#[derive(Clone, Copy, PartialEq, Eq, Debug)]
pub struct Pair {
    pub dependent: u8,
    pub needed: u8,
}

/// A member of a group of packages of which at most one may be taken.
#[derive(Clone, Copy, PartialEq, Eq, Debug)]
pub struct Exclusion {
    pub group: u8,
    pub member: u8,
}

/// A limit on what the taken packages may come to.
#[derive(Clone, Copy, PartialEq, Eq, Debug)]
pub struct Limit {
    /// 1 interconnection, 2 export, 3 percentage
    pub sort: u8,
    /// of a percentage: 1 power before, 2 power after, 3 certificates before, 4 certificates after
    pub zone: u8,
    /// MW, MWh or per cent
    pub amount: u32,
}

/// What a limit is on.
#[derive(Clone, Copy, PartialEq, Eq, Debug)]
pub enum Sort {
    /// nameplates of an interconnection zone, in MW
    Interconnection = 1,
    /// energy of an export zone, in MWh
    Export = 2,
    /// dated supply, in per cent of what is sold
    Percentage = 3,
}

impl Limit {
    ghost use Rattle.std.specs.Prelude.{◌==◌};
    ghost use Rattle.offers.specs.Marks.{sort_byte};

    /// Whether the limit is on this.
    pub fn is_on(&self, sort: Sort) -> bool
        ensures { result ≡ (self.now.sort == sort_byte sort) }
    {
        self.sort == sort as u8
    }
}
