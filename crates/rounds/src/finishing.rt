//! A search to its end, with word of how far it is.
ghost use Rattle.std.specs.Prelude.{◌≡◌, ◌≤◌};
ghost use Rattle.rounds.specs.Views.{of_closed, of_awarded, Finishes};

use crate::awarded_round::AwardedRound;
use crate::closed_round::{ClosedRound, Searched};
use bounds::BoundingRule;
use search::choices;

/// Who wants to know how far a search is.
pub trait Progress {
    /// Choices settled of all, and the surplus of the leader in pesos.
    fn note(&mut self, settled: u64, choices: u64, surplus: i64);
}

/// Searches by a rule until every choice is settled, a million steps at a time, and tells after each time how far it is. Of a docket
/// with no package, whose one choice is settled from the start, nothing is told.
pub fn finish<B: BoundingRule, P: Progress>(
    round: ClosedRound,
    rule: &mut B,
    progress: &mut P,
) -> AwardedRound
    ensures finishes { Finishes (of_closed round) (B.BoundingRule.answers rule.old) (of_awarded result) }
    ensures same_rule { B.BoundingRule.answers rule.new ≡ B.BoundingRule.answers rule.old }
{
    let all = choices(&round.docket);
    let steps = steps_a_turn();
    let mut closed = round;
    'turns: loop {
        let (next, found) = closed.search(rule, steps);
        match found {
            Ok((settled, surplus)) if all > 1 => progress.note(settled, all, surplus),
            _ => {}
        }
        match next {
            Searched::Closed(still) => closed = still,
            Searched::Awarded(done) => return done,
        }
    }
}

// Steps between two words.
fn steps_a_turn() -> u32
    ensures some { 1 ≤ result }
    ensures most { result ≤ 1000000 }
{
    1_000_000
}
