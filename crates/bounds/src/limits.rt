//! No choice of a block is lawful where the packages that it takes for certain break a rule already.
ghost use Rattle.clearing.specs.Ranged.{Ranged};
ghost use Rattle.bounds.specs.Live.{TestsStand};
ghost use Rattle.bounds.specs.Rules.{limits_kept};
ghost use Rattle.clearing.proofs.ClosedRanges.{ranged-closing};
ghost use Rattle.bounds.specs.Laws.Limits.{limits-sound};

use crate::blocks::{Block, BoundingRule, CEILING};
use clearing::{Docket, Tally, exclusions_kept, pairs_kept, zones_kept};

/// Tells no lawful choice where the packages that every choice of the block takes break a rule already.
#[derive(Clone, Copy)]
pub struct Limits;

impl BoundingRule for Limits {
    ghost answers = { λ _. limits_kept };

    ghost sound = { λ s v b closed block. limits-sound v (ranged-closing v closed) b block };

    fn consult(&mut self, docket: &Docket, block: Block) -> Option<i64> {
        let taken = Tally::new(docket, block.first);
        let possible = Tally::new(docket, block.last());
        if stands(docket, &taken, &possible) {
            Some(CEILING)
        } else {
            None
        }
    }
}

/// Whether taken packages keep the rules that taking more of the possible ones does not mend.
pub(crate) fn stands(docket: &Docket, tally: &Tally, possible: &Tally) -> bool
    requires { Ranged docket.now }
    ensures { TestsStand docket.now tally.now possible.now result }
{
    pairs_kept(docket, tally, possible)
        && exclusions_kept(docket, tally)
        && zones_kept(docket, tally)
}
