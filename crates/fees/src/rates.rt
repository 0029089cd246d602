//! A fee's three rates, and the fee on a value.
ghost use Rattle.std.specs.Prelude.{◌≡◌, ◌≤◌, true};
ghost use Rattle.fees.specs.Charges.{MOST_VALUE};
ghost use Rattle.fees.specs.Fees.{rates_in_range, fee};

/// Rates in hundredths of a per cent, as they were sent, so that one out of range can be refused. What a buyer is sold bears them in
/// three parts.
#[derive(Clone, Copy, PartialEq, Eq, Debug)]
pub struct FeeRates {
    /// on the first 1,000,000 pesos
    pub first: u32,
    /// on the next 99,000,000 pesos
    pub second: u32,
    /// on what is above 100,000,000 pesos
    pub third: u32,
}

/// A rate is 0 to this.
const MOST_RATE: u32 = 100;

/// How many pesos bear the first rate.
const FIRST_PART: u64 = 1_000_000;

/// How many after them bear the second.
const SECOND_PART: u64 = 99_000_000;

impl FeeRates {
    /// Whether each rate is at most 100.
    pub fn in_range(self) -> bool
        ensures { result ≡ rates_in_range self }
    {
        self.first <= MOST_RATE && self.second <= MOST_RATE && self.third <= MOST_RATE
    }

    // The fee in centavos on a value in pesos, rounded half up.
    pub(crate) fn fee(self, value: u64) -> u64
        requires rates { rates_in_range self ≡ true }
        requires value { value ≤ MOST_VALUE }
        ensures { result ≡ fee self value }
    {
        let first = value.min(FIRST_PART);
        let second = (value - first).min(SECOND_PART);
        let third = value - first - second;
        let hundredths = first * self.first as u64
            + second * self.second as u64
            + third * self.third as u64;
        (hundredths + 50) / 100
    }
}

#[cfg(test)]
mod tests {
    use super::*;
    use std::test::*;

    // Around the ends of the parts; the second value pays 1,000,000.5 centavos exactly.
    #[test]
    fn parts(rt: HostRuntime) -> Result<(), Fail> {
        let rates = FeeRates {
            first: 100,
            second: 50,
            third: 10,
        };
        assert_eq!(rt; rates.fee(1_000_000), 1_000_000);
        assert_eq!(rt; rates.fee(1_000_001), 1_000_001);
        assert_eq!(rt; rates.fee(100_000_000), 50_500_000);
        assert_eq!(rt; rates.fee(100_000_001), 50_500_000);
        assert_eq!(rt; rates.fee(100_000_005), 50_500_001);
        Ok(())
    }

    // A peso at rate 50 pays half a centavo exactly, which is rounded up; so is half a centavo of the second part.
    #[test]
    fn rounding(rt: HostRuntime) -> Result<(), Fail> {
        let half = FeeRates {
            first: 50,
            second: 1,
            third: 0,
        };
        let less = FeeRates { first: 49, ..half };
        assert_eq!(rt; half.fee(0), 0);
        assert_eq!(rt; half.fee(1), 1);
        assert_eq!(rt; less.fee(1), 0);
        assert_eq!(rt; less.fee(1_000_049), 490_000);
        assert_eq!(rt; less.fee(1_000_050), 490_001);
        Ok(())
    }
}
