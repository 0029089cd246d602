//! The currency rule: prices in dollars are weighed against those in pesos.
ghost use Rattle.std.specs.Prelude.{◌≡◌, ℤ, pos, ◌+ℤ◌, ◌*ℤ◌, ◌≤ℤ◌, ◌<ℤ◌};
ghost use Rattle.pricing.specs.Prices.{currency_on, hundred_millionth, above};
ghost use Rattle.std.proofs.Common.{rules};

use crate::numbers::Rates;
use crate::rules::{Fault, PriceRule, checked};
use offers::Package;

/// Multiplies the price below of a package in dollars by both rates, and rounds up to a whole peso.
#[derive(Drop)]
pub struct Currency<P> {
    pub rates: Rates,
    pub below: P,
}

impl<P: PriceRule> PriceRule for Currency<P> {
    ghost meaning = { λ s. currency_on s.rates (P.PriceRule.level s.below) (P.PriceRule.meaning s.below) };

    ghost level = { λ s. above (P.PriceRule.level s.below) };

    ghost bounded = { Prim.search rules };

    fn price(&mut self, terms: &Package) -> Result<i64, Fault> {
        let depth = self.depth();
        let below = self.below.price(terms)?;
        if terms.dollar == 1 {
            checked(depth, round_up(below * self.rates.product()))
        } else {
            checked(depth, below)
        }
    }

    fn depth(&self) -> u8 {
        self.below.depth().wrapping_add(1)
    }
}

/// A hundred-millionth of a number: the smallest whole number not below it.
pub fn round_up(number: i64) -> i64
    ensures value { result ≡ hundred_millionth number }
    ensures not_below { number ≤ℤ (pos 100000000 *ℤ result) }
    ensures smallest { (pos 100000000 *ℤ result) <ℤ (number +ℤ pos 100000000) }
{
    let whole = number / 100_000_000;
    if number % 100_000_000 > 0 {
        whole + 1
    } else {
        whole
    }
}
