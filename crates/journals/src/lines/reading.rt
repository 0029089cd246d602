//! A line, read from its text.
ghost use Rattle.std.specs.Option.{option_map};
ghost use Rattle.journals.specs.Lines.{said, said_at, said_in};
ghost use Rattle.journals.specs.Readers.{unread, Reads};

use crate::bytes::bytes;
use crate::chains::chain;
use crate::lines::Line;
use crate::names::{Verb, call_verb, next_kind};
use crate::records::offer;
use crate::stacks::stack;
use crate::words::Words;
use crate::wrongs::ReadError;
use fees::FeeRates;
use offers::{BANDS, BUYERS};
use std::alloc::Global;

// The places of a row, where its length is not said: one for each band, or for each buyer.
const SALES_ROW: u32 = BANDS as u32;

const FEES_ROW: u32 = BUYERS as u32;

// What the words after a line's first say.
#[tactic(auto, unfolding(crate::specs::Lines::said_at))]
fn rest(heap: Global, verb: Verb, words: &mut Words) -> Result<Line, ReadError>
    ensures { Reads (λ line. (said line, unread words.new)) result (said_at verb (unread words.old)) }
{
    Ok(match verb {
        Verb::File => {
            let kind = next_kind(words)?;
            let number = words.next_u8()?;
            Line::File(number, offer(kind, words)?)
        }
        Verb::Withdraw => {
            let kind = next_kind(words)?;
            Line::Withdraw(kind, words.next_u8()?)
        }
        Verb::CatchUp => Line::CatchUp(bytes(heap, words)?),
        Verb::Close => Line::Close(stack(words)?),
        Verb::Search => {
            let rules = chain(heap, words)?;
            Line::Search(rules, words.next_u32()?)
        }
        Verb::Reopen => Line::Reopen,
        Verb::Award => Line::Award(words.optional_u32()?.unwrap_or(SALES_ROW)),
        Verb::Fees => {
            let rates = FeeRates {
                first: words.next_u32()?,
                second: words.next_u32()?,
                third: words.next_u32()?,
            };
            Line::Fees(rates, words.optional_u32()?.unwrap_or(FEES_ROW))
        }
        Verb::Sheet => Line::Sheet(words.optional_u32()?),
    })
}

/// What a line says; none for one that is passed over.
#[tactic(auto, unfolding(crate::specs::Lines::said_by))]
pub fn read_line(heap: Global, line: &[u8]) -> Result<Option<Line>, ReadError>
    ensures { Reads (option_map said) result (said_in line.now) }
{
    if let [b'#', ..] = line {
        return Ok(None);
    }
    let mut words = Words::new(line);
    let Some(first) = words.next() else {
        return Ok(None);
    };
    let line = rest(heap, call_verb(first)?, &mut words)?;
    words.end()?;
    Ok(Some(line))
}
