//! The lowest rule: a package costs what was filed.
ghost use Rattle.pricing.specs.Prices.{filed_price};
ghost use Rattle.std.proofs.Common.{rules};

use crate::rules::{Fault, PriceRule};
use offers::Package;

/// A package costs what was filed.
#[derive(Clone, Copy)]
pub struct Filed;

impl PriceRule for Filed {
    ghost meaning = { λ _ p. filed_price p };

    ghost level = { λ _. 1 };

    ghost bounded = { Prim.search rules };

    fn price(&mut self, terms: &Package) -> Result<i64, Fault> {
        // unsigned, so the range has one end to test
        if terms.price > 20_000_000_000 {
            return Err(Fault {
                depth: self.depth(),
            });
        }
        Ok(terms.price as i64)
    }

    fn depth(&self) -> u8 {
        1
    }
}
