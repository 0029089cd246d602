//! A journal's whole way: its bytes are read, its calls are made, and a line is written for each answer.
ghost use Rattle.std.specs.Prelude.{◌≡◌, IfOk, IfSome, Some, map, vec_items};
ghost use Rattle.journals.specs.Lines.{said};
ghost use Rattle.journals.specs.Running.{Ran, Replayed, transcript_of, mistake_line};
ghost use Rattle.rounds.specs.Replays.{moment_of};

use crate::answers::AnswerLine;
use crate::journals::{JournalError, Mistake, read_journal};
use crate::lines::{Line, Shown};
use crate::requests::planned;
use printing::write_text;
use rounds::{Moment, Watch, replay};
use std::alloc::{AllocError, Global};
use std::io::{ErrorKind, Read, Write};
use std::{fmt, io};

// What the calls of a journal were answered, a line for each, and what is shown of its buffer.
#[derive(Drop)]
struct Transcript {
    moments: Vec<Moment>,
    shown: Vec<Shown>,
}

impl fmt::Display for Transcript {
    ghost output = { λ t. Some (transcript_of (vec_items t.shown) (map moment_of (vec_items t.moments))) };

    fn fmt<W: fmt::Write>(&self, f: &mut fmt::Formatter<W>) -> fmt::Result {
        for (shown, moment) in self.shown.iter().zip(&self.moments) {
            let answer = AnswerLine {
                reply: &moment.reply,
                stage: moment.stage,
                shown: *shown,
            };
            writeln!(f, "{answer}")?;
        }
        Ok(())
    }
}

// A mistake as a line.
#[derive(Clone, Copy)]
struct MistakeLine(Mistake);

impl fmt::Display for MistakeLine {
    ghost output = { λ line. Some (mistake_line line.0) };

    fn fmt<W: fmt::Write>(&self, f: &mut fmt::Formatter<W>) -> fmt::Result {
        writeln!(f, "{}", self.0)
    }
}

/// Reads a journal, makes its calls from an open and vacant round, and writes a line for each answer; where a line is no call, makes
/// none and writes the first mistake alone. Answers whether there was a mistake. Nothing is written before the whole text is made.
pub fn run_journal<R: Read + Drop, W: Write, T: Watch>(
    heap: Global,
    input: R,
    output: &mut W,
    watch: &mut T,
) -> io::Result<bool>
    ensures { IfOk result (Ran (R.remaining input) (W.contents output.old) (W.contents output.new)) }
{
    let text = read_text(heap, input)?;
    match read_journal(heap, &text) {
        Ok(lines) => {
            let transcript = run(heap, lines, watch)?;
            write_text(heap, &transcript, output)?;
            Ok(false)
        }
        Err(JournalError::Mistake(mistake)) => {
            write_text(heap, &MistakeLine(mistake), output)?;
            Ok(true)
        }
        Err(JournalError::OutOfMemory) => Err(io::Error::from(ErrorKind::OutOfMemory)),
    }
}

// All bytes that come.
fn read_text<R: Read + Drop>(heap: Global, mut input: R) -> io::Result<Vec<u8>>
    ensures { IfOk result (λ text. IfSome (R.remaining input) (λ all. text.items ≡ all)) }
{
    let mut text = Vec::new(heap);
    input.read_to_end(&mut text)?;
    Ok(text)
}

// Makes the calls of all lines.
fn run<T: Watch>(heap: Global, lines: Vec<Line>, watch: &mut T) -> Result<Transcript, AllocError>
    ensures { IfOk result (λ t. Replayed (map said lines.items) (vec_items t.shown) (map moment_of (vec_items t.moments))) }
{
    let plan = planned(heap, lines)?;
    let run = replay(heap, plan.requests, watch)?;
    Ok(Transcript {
        moments: run.moments,
        shown: plan.shown,
    })
}

#[cfg(test)]
mod tests {
    use super::*;
    use std::process::Abort;
    use std::test::*;

    // A journal is answered so, and has a mistake or has none.
    fn check_run<R: Abort + AllocGlobal>(
        rt: &R,
        journal: &str,
        mistaken: bool,
        want: &str,
    ) -> Result<(), Fail> {
        let mut output = Vec::new(rt.alloc());
        let answer = run_journal(rt.alloc(), journal.as_bytes(), &mut output, &mut ())?;
        assert_eq!(rt; answer, mistaken, "{journal}");
        assert_eq!(rt; output.as_slice(), want.as_bytes());
        Ok(())
    }

    #[test]
    fn journals_run(rt: HostRuntime) -> Result<(), Fail> {
        check_run(&rt, "", false, "")?;
        check_run(&rt, "award\n", false, "not taken while open\n")?;
        check_run(
            &rt,
            "reopen\nreopen\nshet\nreopn\n",
            true,
            "line 3: the first word names no call\n",
        )?;
        let text =
            "file package 1 0 10 0 0 20 1 1 1 1 0 0 0\nfile package 2 0 10 0 0 20 1 1 1 1 0 0 0\n\
        file band 1 4 10 5 1\nfile band 1 4 10 5 1\nwithdraw limit 1\naward\nsheet\nclose filed\n\
        search limits+all-in 1\nsearch ceiling 1000000\naward 1\naward 64\nfees 100 0 0\nfees 0 101 0 0\nreopen\nsearch limits 1\n";
        let want = "done\ndone\ndone\nrefused 3 tag 2 number 1 field 0 byte 0 depth 0\n\
        refused 5 tag 5 number 1 field 0 byte 0 depth 0\nnot taken while open\n\
        sheet 87 0100210101000000000000000a000000000000000000000000000000140101010100000001002102010000000000000\
        00a0000000000000000000000000000001401010101000000020\
        00c0101040000000a0000000501\n\
        done\nsettled 2 surplus 30\nsettled 4 surplus 30\nrefused 11 tag 0 number 0 field 0 byte 0 depth 0\n\
        choice 1 surplus 30 sold 10 0 0 0 0 0 0 0 0 0 0 0 0 0 0 0 0 0 0 0 0 0 0 0 0 0 0 0 0 0 0 0 0 0 0 0 0 0 0 0 0 0 0 \
        0 0 0 0 0 0 0 0 0 0 0 0 0 0 0 0 0 0 0 0 0\nfees 50 50 0 0 0 0 0 0 0 0 0 0 0 0 0 0 0\n\
        refused 13 tag 0 number 0 field 0 byte 0 depth 0\ndone\nnot taken while open\n";
        check_run(&rt, text, false, want)
    }

    // Keeps the last note, and counts all.
    #[derive(Drop)]
    struct Notes {
        count: usize,
        last: (usize, usize),
    }

    impl Watch for Notes {
        fn made(&mut self, requests: usize, all: usize) {
            self.count = self.count.saturating_add(1);
            self.last = (requests, all);
        }
    }

    #[test]
    fn each_call_is_told(rt: HostRuntime) -> Result<(), Fail> {
        let mut output = Vec::new(rt.alloc());
        let mut notes = Notes {
            count: 0,
            last: (0, 0),
        };
        let journal: &[u8] = b"reopen\n# none\n\naward\nsheet\n";
        let _ = run_journal(rt.alloc(), journal, &mut output, &mut notes)?;
        assert_eq!(rt; notes.count, 3);
        assert_eq!(rt; notes.last, (3, 3));
        Ok(())
    }
}
