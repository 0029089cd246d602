//! Different rules in one run.
ghost use Rattle.rounds.specs.Laws.Rules.{either_sound, either_bounded};
ghost use Rattle.rounds.specs.Rules.{either_answers, either_meaning, either_level};

use bounds::{Block, BoundingRule};
use clearing::Docket;
use offers::Package;
use pricing::{Fault, PriceRule};

/// One of two rules. A run of requests has one type of rule; with this it has as many as it wants. It is no rule of its own: it
/// adds no depth to a stack of price rules.
#[derive(Clone, Copy)]
pub enum OneOf<P, Q> {
    First(P),
    Second(Q),
}

impl<P: BoundingRule, Q: BoundingRule> BoundingRule for OneOf<P, Q> {
    ghost answers = { either_answers P.BoundingRule.answers Q.BoundingRule.answers };

    ghost sound = { either_sound P.BoundingRule.answers Q.BoundingRule.answers P.BoundingRule.sound Q.BoundingRule.sound };

    fn consult(&mut self, docket: &Docket, block: Block) -> Option<i64> {
        match self {
            OneOf::First(rule) => rule.consult(docket, block),
            OneOf::Second(rule) => rule.consult(docket, block),
        }
    }
}

impl<P: PriceRule, Q: PriceRule> PriceRule for OneOf<P, Q> {
    ghost meaning = { either_meaning P.PriceRule.meaning Q.PriceRule.meaning };

    ghost level = { either_level P.PriceRule.level Q.PriceRule.level };

    ghost bounded = { either_bounded P.PriceRule.meaning Q.PriceRule.meaning P.PriceRule.bounded Q.PriceRule.bounded };

    fn price(&mut self, terms: &Package) -> Result<i64, Fault> {
        match self {
            OneOf::First(rule) => rule.price(terms),
            OneOf::Second(rule) => rule.price(terms),
        }
    }

    fn depth(&self) -> u8 {
        match self {
            OneOf::First(rule) => rule.depth(),
            OneOf::Second(rule) => rule.depth(),
        }
    }
}
