//! Stacks of price rules: what a line says of one. A rule is made of checked numbers only, so a stack holds no others.
ghost use Rattle.std.specs.Prelude.{◌≡◌, true};
ghost use Rattle.pricing.specs.Numbers.{zone_numbers, currency_rates};

/// A number for each of the 16 price zones, in pesos for each MWh, that the place rule's check accepts; zone z stands at place z - 1.
#[derive(Clone, Copy)]
pub struct Zones {
    pub numbers: [i64; 16],
    ghost in_range: { zone_numbers numbers ≡ true },
}

/// A preference and an expectation, both in ten-thousandths, that the currency rule's check accepts.
#[derive(Clone, Copy)]
pub struct Weighing {
    pub preference: u32,
    pub expectation: u32,
    ghost in_range: { currency_rates preference expectation ≡ true },
}

/// A stack of price rules.
#[derive(Clone, Copy)]
pub enum Stack {
    Filed,
    /// place on filed
    Place(Zones),
    /// currency on place on filed
    Currency(Weighing, Zones),
}

mod reading;

pub(crate) use reading::stack;
