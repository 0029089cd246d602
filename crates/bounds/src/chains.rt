//! Any number of rules as one: no lawful choice if any says so, else the smallest cap.
ghost use Rattle.std.specs.Prelude.{map};
ghost use Rattle.bounds.specs.Rules.{chained};
ghost use Rattle.bounds.specs.Laws.Joined.{chained-sound};

use crate::blocks::{Block, BoundingRule};
use clearing::Docket;

/// Rules joined from the left: the first, and those joined to it one after another.
#[derive(Drop)]
pub struct Chain<B> {
    pub first: B,
    pub others: Vec<B>,
}

impl<B: BoundingRule> BoundingRule for Chain<B> {
    ghost answers = { λ s. chained (B.BoundingRule.answers s.first) (map B.BoundingRule.answers s.others.items) };

    ghost sound = { λ s. chained-sound B.BoundingRule.answers B.BoundingRule.sound s.first s.others.items };

    fn consult(&mut self, docket: &Docket, block: Block) -> Option<i64> {
        let mut cap = match self.first.consult(docket, block) {
            Some(cap) => cap,
            None => return None,
        };
        for rule in self.others.iter_mut() {
            match rule.consult(docket, block) {
                Some(other_cap) => cap = cap.min(other_cap),
                None => return None,
            }
        }
        Some(cap)
    }
}
