//! The numbers that price rules are made of, checked.
ghost use Rattle.std.specs.Prelude.{◌≡◌, true};
ghost use Rattle.pricing.specs.Numbers.{zone_numbers, currency_rates};

use offers::{Code, Refusal};

/// A number for each of the 16 price zones, in pesos for each MWh; zone z stands at place z - 1.
#[derive(Clone, Copy)]
pub struct ZoneNumbers {
    numbers: [i64; 16],
    ghost in_range: { zone_numbers numbers ≡ true },
}

impl ZoneNumbers {
    ghost use Rattle.std.specs.Prelude.{◌-◌, pos, IfErr, slice_index_or};
    ghost use Rattle.offers.specs.Refusals.{Carries};
    ghost use Rattle.pricing.specs.Numbers.{MadeIf};

    /// Numbers of -1,000 to 1,000 each, or a refusal.
    pub fn new(numbers: [i64; 16]) -> Result<ZoneNumbers, Refusal>
        ensures answer { MadeIf result (zone_numbers numbers) (λ z. z.numbers ≡ numbers) }
        ensures carries { IfErr result Carries }
    {
        if !numbers
            .iter()
            .all(|number| (-1_000..=1_000).contains(number))
        {
            return Err(Refusal::code_only(Code::FieldOutside));
        }
        Ok(ZoneNumbers { numbers })
    }

    /// The number of a zone, 1 to 16, as records in range have them. Zone 0 gets zone 1's number, and a zone past 16 gets 0.
    pub fn of_zone(&self, zone: u8) -> i64
        ensures { result ≡ slice_index_or self.now.numbers (zone - 1) (pos 0) }
    {
        let at = (zone as usize).saturating_sub(1);
        self.numbers.get(at).copied().unwrap_or(0)
    }
}

/// How dollar prices are weighed, both in ten-thousandths.
#[derive(Clone, Copy)]
pub struct Rates {
    preference: u32,
    expectation: u32,
    ghost in_range: { currency_rates preference expectation ≡ true },
}

impl Rates {
    ghost use Rattle.std.specs.Prelude.{◌*◌, pos, ◌≤ℤ◌, IfErr};
    ghost use Rattle.offers.specs.Refusals.{Carries};
    ghost use Rattle.pricing.specs.Numbers.{MadeIf};

    /// A preference of 10,000 to 11,000 and an expectation of 5,000 to 20,000, or a refusal.
    pub fn new(preference: u32, expectation: u32) -> Result<Rates, Refusal>
        ensures answer { MadeIf result (currency_rates preference expectation)
            (λ r. (r.preference ≡ preference) × (r.expectation ≡ expectation)) }
        ensures carries { IfErr result Carries }
    {
        if !(10_000..=11_000).contains(&preference) || !(5_000..=20_000).contains(&expectation) {
            return Err(Refusal::code_only(Code::FieldOutside));
        }
        Ok(Rates {
            preference,
            expectation,
        })
    }

    /// Both rates together, in hundred-millionths.
    pub fn product(&self) -> i64
        ensures value { result ≡ pos (self.now.preference * self.now.expectation) }
        ensures bound { result ≤ℤ pos 220000000 }
    {
        self.preference as i64 * self.expectation as i64
    }
}
