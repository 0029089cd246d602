//! A cap by taking all that is free: its income whole, and of its prices only those that are negative.
ghost use Rattle.std.specs.Prelude.{◌≡◌, pos, ◌≤ℤ◌, neg_ℤ};
ghost use Rattle.bounds.specs.Rules.{all_in, costs_at_least};
ghost use Rattle.clearing.proofs.ClosedRanges.{ranged-closing};
ghost use Rattle.bounds.specs.Laws.AllIn.{all_in-sound};

use crate::blocks::{Block, BoundingRule};
use clearing::{Docket, Tally, sell};

/// A cap by taking all that is free: its income whole, and of its prices only those that are negative.
#[derive(Clone, Copy)]
pub struct AllIn;

impl BoundingRule for AllIn {
    ghost answers = { λ _. all_in };

    ghost sound = { λ s v b closed block. all_in-sound v (ranged-closing v closed) b block };

    fn consult(&mut self, docket: &Docket, block: Block) -> Option<i64> {
        let all = Tally::new(docket, block.last());
        let sales = sell(docket, &all.supply);
        Some(sales.income as i64 - least_cost(docket, block))
    }
}

// The prices of the taken packages, and of the free ones those below 0, in pesos.
fn least_cost(docket: &Docket, block: Block) -> i64
    ensures value { result ≡ costs_at_least docket.now block }
    ensures low { neg_ℤ (pos 1600000000000) ≤ℤ result }
    ensures high { result ≤ℤ pos 800000000000 }
{
    // loops: the library's lemmas on what a `sum` stays within are of unsigned numbers
    let mut cost = 0i64;
    for package in docket.taken(block.first) {
        cost += package.price;
    }
    for free in docket.packages.as_slice().iter().take(block.free as usize) {
        cost += free.price.min(0);
    }
    cost
}
