//! A stack of price rules, read from words.
ghost use Rattle.journals.specs.Readers.{unread, Gives};
ghost use Rattle.journals.specs.Stacks.{plain_stack, signeds_at, zones_at, weighing_at, stack_at};

use crate::names::{Top, next_top};
use crate::stacks::{Stack, Weighing, Zones};
use crate::words::Words;
use crate::wrongs::Wrong;
use pricing::{Rates, ZoneNumbers};

// Sixteen signed numbers.
fn sixteen(words: &mut Words) -> Result<[i64; 16], Wrong>
    ensures { Gives (λ numbers. numbers) result words.new (signeds_at 16 (unread words.old)) }
{
    let mut numbers = [0; 16];
    for place in 0..numbers.len() {
        numbers[place] = words.next_i64()?;
    }
    Ok(numbers)
}

// A number for each price zone.
#[tactic(auto, unfolding(crate::specs::Stacks::zones_at))]
fn zones(words: &mut Words) -> Result<Zones, Wrong>
    ensures { Gives (λ zones. zones.numbers) result words.new (zones_at (unread words.old)) }
{
    let numbers = sixteen(words)?;
    match ZoneNumbers::new(numbers) {
        Ok(_) => Ok(Zones { numbers }),
        Err(_) => Err(Wrong::RuleNumberOutside),
    }
}

// A preference and an expectation.
#[tactic(auto, unfolding(crate::specs::Stacks::weighing_at))]
fn weighing(words: &mut Words) -> Result<Weighing, Wrong>
    ensures { Gives (λ w. (w.preference, w.expectation)) result words.new (weighing_at (unread words.old)) }
{
    let preference = words.next_u32()?;
    let expectation = words.next_u32()?;
    match Rates::new(preference, expectation) {
        Ok(_) => Ok(Weighing {
            preference,
            expectation,
        }),
        Err(_) => Err(Wrong::RuleNumberOutside),
    }
}

/// A stack: the name of the rule on top, and the numbers of its rules.
#[tactic(auto, unfolding(crate::specs::Stacks::stack_at))]
pub fn stack(words: &mut Words) -> Result<Stack, Wrong>
    ensures { Gives plain_stack result words.new (stack_at (unread words.old)) }
{
    match next_top(words)? {
        Top::Filed => Ok(Stack::Filed),
        Top::Place => Ok(Stack::Place(zones(words)?)),
        Top::Currency => {
            let weighing = weighing(words)?;
            Ok(Stack::Currency(weighing, zones(words)?))
        }
    }
}
