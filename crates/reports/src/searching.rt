//! By which bounding rules the round of a sheet is searched. The award is the same by any.
ghost use Rattle.reports.specs.Searching.{searching};
ghost use Rattle.reports.specs.Laws.Searching.{searching-sound};

use bounds::{AllIn, Block, BoundingRule, Joined, Limits, Shares, Tangent};
use clearing::Docket;

#[derive(Clone, Copy, PartialEq, Eq, Debug)]
pub enum Rules {
    /// limits and all-in joined
    Stated,
    /// these with shares and tangent joined to them
    Quick,
}

impl BoundingRule for Rules {
    ghost answers = { searching };

    ghost sound = { searching-sound };

    fn consult(&mut self, docket: &Docket, block: Block) -> Option<i64> {
        match self {
            Rules::Stated => Joined(Limits, AllIn).consult(docket, block),
            Rules::Quick => {
                let others = Joined(AllIn, Joined(Shares, Tangent));
                Joined(Limits, others).consult(docket, block)
            }
        }
    }
}
