//! A cap by what each free package alone would add: together they add no more.
ghost use Rattle.std.specs.Prelude.{◌≡◌, pos, ◌≤ℤ◌, neg_ℤ};
ghost use Rattle.bounds.specs.Rules.{one_by_one, unlimited};
ghost use Rattle.clearing.proofs.ClosedRanges.{ranged-closing};
ghost use Rattle.bounds.specs.Laws.OneByOne.{one_by_one-sound};

use crate::blocks::{Block, BoundingRule};
use clearing::{Docket, Tally, sell};

/// A cap by what each free package alone would add.
#[derive(Clone, Copy)]
pub struct OneByOne;

impl BoundingRule for OneByOne {
    ghost answers = { λ _. one_by_one };

    ghost sound = { λ s v b closed block. one_by_one-sound v (ranged-closing v closed) b block };

    fn consult(&mut self, docket: &Docket, block: Block) -> Option<i64> {
        let fixed = unlimited_surplus(docket, block.first);
        // a loop: the library's lemmas on what a `sum` stays within are of unsigned numbers
        let mut cap = fixed;
        for digit in 0..block.free {
            let alone = unlimited_surplus(docket, block.first + (1u64 << digit));
            cap += (alone - fixed).max(0);
        }
        Some(cap)
    }
}

// The surplus in pesos of a choice with filled sales, lawful or not.
fn unlimited_surplus(docket: &Docket, choice: u64) -> i64
    ensures value { result ≡ unlimited docket.now choice }
    ensures low { neg_ℤ (pos 800000000000) ≤ℤ result }
    ensures high { result ≤ℤ pos 64000800000000000 }
{
    let taken = Tally::new(docket, choice);
    let sales = sell(docket, &taken.supply);
    sales.income as i64 - taken.cost
}
