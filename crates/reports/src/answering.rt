//! A sheet's whole way: its bytes are read, its round is cleared, and the text of its award or its refusal is written.
ghost use Rattle.std.specs.Prelude.{◌≡◌, ◌≤◌, IfOk, IfSome, take};
ghost use Rattle.rounds.specs.Views.{of_open};
ghost use Rattle.reports.specs.Answering.{Answered, MAX_SHEET_BYTES};
ghost use Rattle.reports.specs.Cleared.{ClearsTo};
ghost use Rattle.reports.specs.Searching.{searching};

use crate::report::{RefusedSheet, Report};
use crate::searching::Rules;
use offers::Refusal;
use pricing::Filed;
use printing::write_text;
use rounds::{AwardedRound, OpenRound, Progress, finish};
use std::alloc::Global;
use std::io;
use std::io::{ErrorKind, Read, Write};

// The most bytes of a sheet that are read.
const MAX_SHEET_BYTES: usize = 4096;

/// Reads a sheet of at most 4,096 bytes, clears its round, searching by these rules, and writes the text of its award or its refusal,
/// which is the same by any. Answers whether the sheet was refused. Nothing is written before the whole text is made.
pub fn answer_sheet<R: Read + Drop, W: Write, P: Progress>(
    heap: Global,
    input: R,
    output: &mut W,
    rules: Rules,
    progress: &mut P,
) -> io::Result<bool>
    ensures { IfOk result (Answered (R.remaining input) (W.contents output.old) (W.contents output.new)) }
{
    let mut sheet = [0u8; MAX_SHEET_BYTES];
    let count = read_sheet(input, &mut sheet)?;
    let round = OpenRound::new(heap)?;
    match clear(round, &sheet[..count], rules, progress) {
        Ok(awarded) => {
            let report = Report::new(heap, &awarded)?;
            write_text(heap, &report, output)?;
            Ok(false)
        }
        Err(refusal) => {
            write_text(heap, &RefusedSheet(refusal), output)?;
            Ok(true)
        }
    }
}

// Reads until the input ends or the array is full, and answers how many bytes came; the rest is left unread. It gets no memory.
// A read that a signal interrupts is tried again.
fn read_sheet<R: Read + Drop>(mut input: R, sheet: &mut [u8; MAX_SHEET_BYTES]) -> io::Result<usize>
    ensures few { IfOk result (λ count. count ≤ MAX_SHEET_BYTES) }
    ensures bytes { IfOk result (λ count. IfSome (R.remaining input) (λ all. take count sheet.new ≡ take MAX_SHEET_BYTES all)) }
{
    let mut count = 0;
    for _ in 0..u64::MAX {
        if count == MAX_SHEET_BYTES {
            return Ok(count);
        }
        match input.read(&mut sheet[count..]) {
            Ok(0) => return Ok(count),
            Ok(more) => count += more,
            Err(e) if e.kind() == ErrorKind::Interrupted => {}
            Err(e) => return Err(e),
        }
    }
    // reached only after almost 2^64 interrupted reads
    Err(io::Error::from(ErrorKind::TimedOut))
}

// The award of a sheet: caught up with, closed with the prices as filed, and searched to the end.
fn clear<P: Progress>(
    mut round: OpenRound,
    sheet: &[u8],
    mut rules: Rules,
    progress: &mut P,
) -> Result<AwardedRound, Refusal>
    ensures { ClearsTo (searching rules) (of_open round) sheet.now result }
{
    round.catch_up(sheet)?;
    match round.close(&mut Filed) {
        Ok(closed) => Ok(finish(closed, &mut rules, progress)),
        Err((_, refusal)) => Err(refusal),
    }
}

#[cfg(test)]
mod tests {
    use super::*;
    use std::test::*;

    // Wants to know nothing.
    #[derive(Drop)]
    struct Silent;

    impl Progress for Silent {
        fn note(&mut self, _settled: u64, _choices: u64, _surplus: i64) {}
    }

    #[test]
    fn answers_from_memory(rt: HostRuntime) -> Result<(), Fail> {
        let sheets: [(&[u8], bool, &str); 2] = [
            (b"", false, "open 0 choices 1\nsurplus 0\n"),
            (b"\x01", true, "refused 6 at 0\n"),
        ];
        for (sheet, refused, text) in sheets {
            let mut output = Vec::new(rt.alloc());
            assert_eq!(rt;
                answer_sheet(rt.alloc(), sheet, &mut output, Rules::Quick, &mut Silent)?,
                refused
            );
            assert_eq!(rt; output.as_slice(), text.as_bytes());
        }
        Ok(())
    }
}
