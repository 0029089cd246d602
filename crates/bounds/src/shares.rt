//! No choice of a block is lawful where what is dated of the packages that it takes for certain is above its percentage of the most
//! that any of its choices can sell.
ghost use Rattle.bounds.specs.Rules.{shares_kept};
ghost use Rattle.clearing.proofs.ClosedRanges.{ranged-closing};
ghost use Rattle.bounds.specs.Laws.Shares.{shares-sound};

use crate::blocks::{Block, BoundingRule, CEILING};
use clearing::{Docket, dates_stand};

/// Tells no lawful choice where what is dated of the fixed packages is above its percentage of the most that can be sold.
#[derive(Clone, Copy)]
pub struct Shares;

impl BoundingRule for Shares {
    ghost answers = { λ _. shares_kept };

    ghost sound = { λ s v b closed block. shares-sound v (ranged-closing v closed) b block };

    fn consult(&mut self, docket: &Docket, block: Block) -> Option<i64> {
        if dates_stand(docket, block.first, block.last()) {
            Some(CEILING)
        } else {
            None
        }
    }
}
