//! A cap that no surplus reaches: the rule that skips nothing.
ghost use Rattle.bounds.specs.Rules.{always};
ghost use Rattle.clearing.proofs.ClosedRanges.{ranged-closing};
ghost use Rattle.bounds.specs.Laws.Ceiling.{always-sound};

use crate::blocks::{Block, BoundingRule, CEILING};
use clearing::Docket;

/// The rule that skips nothing: its cap is above every surplus.
#[derive(Clone, Copy)]
pub struct Ceiling;

impl BoundingRule for Ceiling {
    ghost answers = { λ _. always };

    ghost sound = { λ s v b closed block. always-sound v (ranged-closing v closed) b };

    fn consult(&mut self, _docket: &Docket, _block: Block) -> Option<i64> {
        Some(CEILING)
    }
}
