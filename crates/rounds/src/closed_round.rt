//! A closed round: it has a docket, which is searched.
ghost use Rattle.std.specs.Prelude.{◌≡◌, ◌≤◌};
ghost use Rattle.search.specs.Search.{Placed};

use crate::awarded_round::AwardedRound;
use crate::open_round::OpenRound;
use bounds::BoundingRule;
use clearing::Docket;
use offers::{Code, Offers, Refusal};
use search::{Position, choices};
use sheets::write_sheet;

/// Some choices are settled, and one of them leads.
#[derive(Drop)]
pub struct ClosedRound {
    pub(crate) offers: Offers,
    pub(crate) docket: Docket,
    pub(crate) at: Position,
    ghost placed: { Placed docket at },
}

/// What a search leaves.
#[derive(Drop)]
pub enum Searched {
    Closed(ClosedRound),
    Awarded(AwardedRound),
}

impl ClosedRound {
    ghost use Rattle.rounds.specs.Model.{Search, Reopen, WriteSheet, Reopened, Written};
    ghost use Rattle.rounds.specs.Views.{of_open, of_closed, gave, gave_search, Serves, Falls};

    /// Makes so many steps, or fewer if the search finishes, and answers choices settled and the leader's surplus in pesos. Refused with
    /// code 12 unless the steps are 1 to 1,000,000.
    pub fn search<B: BoundingRule>(
        self,
        rule: &mut B,
        steps: u32,
    ) -> (Searched, Result<(u64, i64), Refusal>)
        ensures served { Serves (of_closed self) (Search (B.BoundingRule.answers rule.old) steps) (gave_search result) }
        ensures same_rule { B.BoundingRule.answers rule.new ≡ B.BoundingRule.answers rule.old }
        ensures falls { 1 ≤ steps → steps ≤ 1000000 → Falls result.0 self.at }
    {
        if !(1..=1_000_000).contains(&steps) {
            return (
                Searched::Closed(self),
                Err(Refusal::code_only(Code::StepsOutside)),
            );
        }
        let ClosedRound {
            docket,
            at: from,
            ..
        } = self;
        let at = from.run(&docket, rule, steps);
        let found = found(at);
        let next = if at.settled == choices(&docket) {
            Searched::Awarded(AwardedRound {
                offers: self.offers,
                docket,
                at,
            })
        } else {
            Searched::Closed(ClosedRound {
                offers: self.offers,
                docket,
                at,
            })
        };
        (next, Ok(found))
    }

    /// Writes the sheet of the offers into the buffer's first bytes, and gives its length. Refused with code 11 where the
    /// buffer is shorter than the sheet.
    pub fn write_sheet(&self, buffer: &mut [u8]) -> Result<usize, Refusal>
        ensures { Serves (of_closed self.now) (WriteSheet buffer.old) (gave (of_closed self.now) (Written result buffer.new)) }
    {
        write_sheet(&self.offers, buffer)
    }

    /// Drops the docket.
    pub fn reopen(self) -> OpenRound
        ensures { Serves (of_closed self) Reopen (gave (of_open result) Reopened) }
    {
        let ClosedRound {
            offers,
            mut docket,
            at: _,
        } = self;
        docket.clear();
        OpenRound { offers, docket }
    }
}

// What a search has found: choices settled, and the leader's surplus.
fn found(at: Position) -> (u64, i64)
    ensures { result ≡ (at.settled, at.surplus) }
{
    (at.settled, at.surplus)
}
