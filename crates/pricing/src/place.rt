//! The place rule: energy costs more or less by price zone.
ghost use Rattle.pricing.specs.Prices.{place_on, above};
ghost use Rattle.std.proofs.Common.{rules};

use crate::numbers::ZoneNumbers;
use crate::rules::{Fault, PriceRule, checked};
use offers::Package;

/// Adds the number of the package's price zone times its energy to the price below.
#[derive(Drop)]
pub struct Place<P> {
    pub numbers: ZoneNumbers,
    pub below: P,
}

impl<P: PriceRule> PriceRule for Place<P> {
    ghost meaning = { λ s. place_on s.numbers (P.PriceRule.level s.below) (P.PriceRule.meaning s.below) };

    ghost level = { λ s. above (P.PriceRule.level s.below) };

    ghost bounded = { Prim.search rules };

    fn price(&mut self, terms: &Package) -> Result<i64, Fault> {
        let depth = self.depth();
        let below = self.below.price(terms)?;
        let number = self.numbers.of_zone(terms.price_zone);
        checked(depth, below + number * terms.energy as i64)
    }

    fn depth(&self) -> u8 {
        self.below.depth().wrapping_add(1)
    }
}
