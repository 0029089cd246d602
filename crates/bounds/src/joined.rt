//! Two rules as one: no lawful choice if either says so, else the smaller cap.
ghost use Rattle.bounds.specs.Rules.{joined};
ghost use Rattle.bounds.specs.Laws.Joined.{joined-sound};

use crate::blocks::{Block, BoundingRule};
use clearing::Docket;

/// Two rules as one: no lawful choice if either says so, else the smaller cap.
#[derive(Clone, Copy)]
pub struct Joined<P, Q>(pub P, pub Q);

impl<P: BoundingRule, Q: BoundingRule> BoundingRule for Joined<P, Q> {
    ghost answers = { λ s. joined (P.BoundingRule.answers s.0) (Q.BoundingRule.answers s.1) };

    ghost sound = { λ s. joined-sound _ _ (P.BoundingRule.sound s.0) (Q.BoundingRule.sound s.1) };

    fn consult(&mut self, docket: &Docket, block: Block) -> Option<i64> {
        match self.0.consult(docket, block) {
            Some(cap) => match self.1.consult(docket, block) {
                Some(other_cap) => Some(cap.min(other_cap)),
                None => None,
            },
            None => None,
        }
    }
}
