//! Answers as lines.
ghost use Rattle.std.specs.Prelude.{◌≡◌, Some};
ghost use Rattle.std.specs.List.{flat_map};
ghost use Rattle.hex.specs.Hex.{encode_lower};
ghost use Rattle.rounds.specs.Requests.{answer_of};
ghost use Rattle.rounds.specs.Replays.{of_stage};
ghost use Rattle.journals.specs.Answers.{refusal_text, place_text, bytes_text, shown_bytes, stage_word, answer_text};

use crate::lines::Shown;
use offers::Refusal;
use rounds::{Reply, Stage};
use std::fmt;

// A refusal with all its values.
#[derive(Clone, Copy)]
struct Refused<'a>(&'a Refusal);

impl fmt::Display for Refused<'_> {
    ghost output = { λ r. Some (refusal_text r.0.now) };

    fn fmt<W: fmt::Write>(&self, f: &mut fmt::Formatter<W>) -> fmt::Result {
        let refusal = self.0;
        write!(
            f,
            "refused {} tag {} number {}",
            refusal.code.number(),
            refusal.tag,
            refusal.number,
        )?;
        write!(
            f,
            " field {} byte {} depth {}",
            refusal.field, refusal.byte, refusal.depth,
        )
    }
}

// The places of a row, each behind a space.
#[derive(Clone, Copy)]
struct Places<'a>(&'a [u64]);

impl fmt::Display for Places<'_> {
    ghost output = { λ row. Some (flat_map place_text row.0.now) };

    fn fmt<W: fmt::Write>(&self, f: &mut fmt::Formatter<W>) -> fmt::Result {
        for number in self.0 {
            write!(f, " {number}")?;
        }
        Ok(())
    }
}

/// Bytes as two hexadecimal digits each.
#[derive(Clone, Copy)]
pub(crate) struct Hex<'a>(pub &'a [u8]);

impl fmt::Display for Hex<'_> {
    ghost output = { λ bytes. Some (encode_lower bytes.0.now) };

    fn fmt<W: fmt::Write>(&self, f: &mut fmt::Formatter<W>) -> fmt::Result {
        for &byte in self.0 {
            write!(f, "{byte:02x}")?;
        }
        Ok(())
    }
}

// Where a round stands, in a word.
#[derive(Clone, Copy)]
struct StageWord(Stage);

impl fmt::Display for StageWord {
    ghost output = { λ word. Some (stage_word (of_stage word.0)) };

    fn fmt<W: fmt::Write>(&self, f: &mut fmt::Formatter<W>) -> fmt::Result {
        f.write_str(match self.0 {
            Stage::Open => "open",
            Stage::Closed(_) => "closed",
            Stage::Awarded(_) => "awarded",
        })
    }
}

/// Bytes behind a space, and nothing where there are none.
#[derive(Clone, Copy)]
pub(crate) struct Behind<'a>(pub &'a [u8]);

impl fmt::Display for Behind<'_> {
    ghost output = { λ bytes. Some (bytes_text bytes.0.now) };

    fn fmt<W: fmt::Write>(&self, f: &mut fmt::Formatter<W>) -> fmt::Result {
        if self.0.is_empty() {
            return Ok(());
        }
        write!(f, " {}", Hex(self.0))
    }
}

// What is shown of a buffer whose first bytes a sheet of this length fills.
fn shown_bytes(shown: Shown, length: usize, buffer: &[u8]) -> &[u8]
    ensures { result.now ≡ shown_bytes shown length buffer.now }
{
    match shown {
        Shown::Whole => buffer,
        Shown::Filled => &buffer[..length.min(buffer.len())],
    }
}

/// What a call was answered, in one line without its end: what of a buffer is shown, and where the round stands after the call.
#[derive(Clone, Copy)]
pub struct AnswerLine<'a> {
    pub reply: &'a Reply,
    pub stage: Stage,
    pub shown: Shown,
}

impl fmt::Display for AnswerLine<'_> {
    ghost output = { λ a. Some (answer_text a.shown (of_stage a.stage) (answer_of a.reply.now)) };

    fn fmt<W: fmt::Write>(&self, f: &mut fmt::Formatter<W>) -> fmt::Result {
        match self.reply {
            Reply::Done(Ok(())) | Reply::Reopened => f.write_str("done"),
            Reply::Found(Ok((settled, surplus))) => {
                write!(f, "settled {settled} surplus {surplus}")
            }
            Reply::Awarded(Ok(award), row) => {
                let (choice, surplus) = (award.choice, award.surplus);
                write!(f, "choice {choice} surplus {surplus} sold{}", Places(row))
            }
            Reply::Charged(Ok(total), row) => write!(f, "fees {total}{}", Places(row)),
            Reply::Written(Ok(length), buffer) => {
                let bytes = shown_bytes(self.shown, *length, buffer);
                write!(f, "sheet {length}{}", Behind(bytes))
            }
            Reply::Done(Err(refusal))
            | Reply::Found(Err(refusal))
            | Reply::Awarded(Err(refusal), _)
            | Reply::Charged(Err(refusal), _)
            | Reply::Written(Err(refusal), _) => write!(f, "{}", Refused(refusal)),
            Reply::NotTaken => write!(f, "not taken while {}", StageWord(self.stage)),
        }
    }
}

#[cfg(test)]
mod tests {
    use super::*;
    use offers::Code;
    use rounds::Award;
    use search::Position;
    use std::process::Abort;
    use std::test::*;

    // A reply is written so.
    fn check_answer<R: Abort + AllocGlobal>(
        rt: &R,
        reply: &Reply,
        shown: Shown,
        want: &str,
    ) -> Result<(), Fail> {
        let line = AnswerLine {
            reply,
            stage: Stage::Closed(Position::start()),
            shown,
        };
        assert_eq!(rt; line.to_string(rt.alloc())?.as_str(), want);
        Ok(())
    }

    #[test]
    fn answers(rt: HostRuntime) -> Result<(), Fail> {
        let heap = rt.alloc();
        let refusal = Refusal {
            code: Code::StepsOutside,
            tag: 255,
            number: 254,
            field: 253,
            byte: 18446744073709551615,
            depth: 252,
        };
        let refused = "refused 12 tag 255 number 254 field 253 byte 18446744073709551615 depth 252";
        let award = Award {
            choice: 18446744073709551615,
            surplus: -9223372036854775808,
        };
        for (reply, shown, want) in [
            (Reply::Done(Ok(())), Shown::Whole, "done"),
            (Reply::Reopened, Shown::Whole, "done"),
            (Reply::Done(Err(refusal)), Shown::Whole, refused),
            (
                Reply::Found(Ok((1, 0))),
                Shown::Whole,
                "settled 1 surplus 0",
            ),
            (
                Reply::Found(Ok((18446744073709551615, -1))),
                Shown::Whole,
                "settled 18446744073709551615 surplus -1",
            ),
            (Reply::Found(Err(refusal)), Shown::Whole, refused),
            (
                Reply::Awarded(Ok(award), vec![in heap; 0, 18446744073709551615, 7]?),
                Shown::Whole,
                "choice 18446744073709551615 surplus -9223372036854775808 sold 0 18446744073709551615 7",
            ),
            (
                Reply::Awarded(Err(refusal), vec![in heap; 1]?),
                Shown::Whole,
                refused,
            ),
            (
                Reply::Charged(Ok(7), vec![in heap; 0, 18446744073709551615, 7]?),
                Shown::Whole,
                "fees 7 0 18446744073709551615 7",
            ),
            (
                Reply::Charged(Err(refusal), vec![in heap; 1]?),
                Shown::Whole,
                refused,
            ),
            (
                Reply::Written(Ok(0), Vec::new(heap)),
                Shown::Whole,
                "sheet 0",
            ),
            (
                Reply::Written(Ok(0), vec![in heap; 0]?),
                Shown::Whole,
                "sheet 0 00",
            ),
            (
                Reply::Written(Ok(0), vec![in heap; 0]?),
                Shown::Filled,
                "sheet 0",
            ),
            (
                Reply::Written(Ok(2), vec![in heap; 171, 15, 0]?),
                Shown::Whole,
                "sheet 2 ab0f00",
            ),
            (
                Reply::Written(Ok(2), vec![in heap; 171, 15, 0]?),
                Shown::Filled,
                "sheet 2 ab0f",
            ),
            (
                Reply::Written(Err(refusal), Vec::new(heap)),
                Shown::Whole,
                refused,
            ),
            (Reply::NotTaken, Shown::Whole, "not taken while closed"),
        ] {
            check_answer(&rt, &reply, shown, want)?;
        }
        Ok(())
    }
}
