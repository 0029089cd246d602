//! A journal: its lines read into calls.
ghost use Rattle.std.specs.Prelude.{◌≡◌, ◌<◌, ◌∷◌, IfSome, length, map, Some};
ghost use Rattle.std.specs.Str.Lines.{strip_carriage_return};
ghost use Rattle.journals.specs.declared.journals.JournalError.TheVariants as error;
ghost use Rattle.journals.specs.Journals.{journal_in, ReadsJournal, ReadsLine};
ghost use Rattle.journals.specs.Lines.{said, said_in};
ghost use Rattle.journals.specs.Words.{lines_in, lines_left};

use crate::lines::{Line, read_line};
use crate::parts::split_once;
use crate::wrongs::{ReadError, Wrong};
use std::alloc::{AllocFailed, Global};
use std::fmt;

/// A line that is no call, and why.
#[derive(Clone, Copy, PartialEq, Eq, Debug)]
pub struct Mistake {
    /// from 1
    pub line: usize,
    pub wrong: Wrong,
}

impl fmt::Display for Mistake {
    ghost use Rattle.journals.specs.Mistakes.{mistake_text};

    ghost output = { λ mistake. Some (mistake_text mistake) };

    fn fmt<W: fmt::Write>(&self, f: &mut fmt::Formatter<W>) -> fmt::Result {
        write!(f, "line {}: {}", self.line, self.wrong)
    }
}

/// Why a journal could not be read.
#[derive(Clone, Copy, PartialEq, Eq, Debug)]
pub enum JournalError {
    OutOfMemory,
    Mistake(Mistake),
}

impl<T: Drop> From<AllocFailed<T>> for JournalError {
    ghost from_gives = { λ _ e. e ≡ error.OutOfMemory };

    fn from(_e: AllocFailed<T>) -> JournalError {
        JournalError::OutOfMemory
    }
}

// A line without a carriage return at its end.
fn without_return(line: &[u8]) -> &[u8]
    ensures { result.now ≡ strip_carriage_return line.now }
{
    match line {
        [front @ .., b'\r'] => front,
        _ => line,
    }
}

// The first line of a text, and what is left after it, where the text has an end for it.
#[tactic(auto, using(crate::proofs::Journaling::ended_text))]
fn first_line(text: &[u8]) -> (&[u8], Option<&[u8]>)
    ensures lines { lines_in text.now ≡ result.0.now ∷ lines_left result.1 }
    ensures shorter { IfSome result.1 (λ rest. length rest.now < length text.now) }
{
    let (line, rest) = split_once(text, b'\n');
    match rest {
        None => (line, None),
        Some(after) => (without_return(line), Some(after)),
    }
}

// What a line of this number says; none for one that is passed over.
fn numbered(heap: Global, number: usize, line: &[u8]) -> Result<Option<Line>, JournalError>
    ensures { ReadsLine number result (said_in line.now) }
{
    match read_line(heap, line) {
        Ok(line) => Ok(line),
        Err(ReadError::OutOfMemory) => Err(JournalError::OutOfMemory),
        Err(ReadError::Wrong(wrong)) => Err(JournalError::Mistake(Mistake {
            line: number,
            wrong,
        })),
    }
}

/// The calls of all lines in order, or the first line that is no call and why.
pub fn read_journal(heap: Global, text: &[u8]) -> Result<Vec<Line>, JournalError>
    ensures { ReadsJournal (λ lines. map said lines.items) result (journal_in text.now) }
{
    let mut lines = Vec::new(heap);
    let mut number = 1;
    let mut rest = Some(text);
    while let Some(unread) = rest {
        let (line, more) = first_line(unread);
        if let Some(line) = numbered(heap, number, line)? {
            lines.push(line)?;
        }
        number += 1;
        rest = more;
    }
    Ok(lines)
}

#[cfg(test)]
mod tests {
    use super::*;
    use std::process::Abort;
    use std::test::*;

    // A text is read as lines that are written so.
    fn check_lines<R: Abort + AllocGlobal>(
        rt: &R,
        text: &str,
        written: &[&str],
    ) -> Result<(), Fail> {
        let Ok(lines) = read_journal(rt.alloc(), text.as_bytes()) else {
            return Err(Fail::new(text));
        };
        assert_eq!(rt; lines.len(), written.len(), "{text}");
        for (line, want) in lines.iter().zip(written) {
            assert_eq!(rt; line.to_string(rt.alloc())?.as_str(), *want);
        }
        Ok(())
    }

    // A text has this mistake.
    fn check_mistake<R: Abort + AllocGlobal>(rt: &R, text: &str, want: &str) -> Result<(), Fail> {
        let Err(JournalError::Mistake(mistake)) = read_journal(rt.alloc(), text.as_bytes()) else {
            return Err(Fail::new(text));
        };
        assert_eq!(rt; mistake.to_string(rt.alloc())?.as_str(), want);
        Ok(())
    }

    #[test]
    fn lines_as_they_are_written(rt: HostRuntime) -> Result<(), Fail> {
        for line in [
            "file package 0 0 0 0 0 0 0 0 0 0 0 0 0",
            "file package 255 4294967295 4294967295 4294967295 4294967295 18446744073709551615 255 255 255 255 255 255 255",
            "file band 0 0 0 0 0",
            "file band 255 255 4294967295 4294967295 255",
            "file pair 0 0 0",
            "file pair 255 255 255",
            "file exclusion 0 0 0",
            "file exclusion 255 255 255",
            "file limit 0 0 0 0",
            "file limit 255 255 255 4294967295",
            "withdraw package 0",
            "withdraw band 1",
            "withdraw pair 64",
            "withdraw exclusion 65",
            "withdraw limit 255",
            "catch-up",
            "catch-up 00",
            "catch-up 010afff0",
            "close filed",
            "close place -1000 1000 0 -1 1 2 3 4 5 6 7 8 9 10 -10 999",
            "close currency 10000 5000 0 0 0 0 0 0 0 0 0 0 0 0 0 0 0 0",
            "close currency 11000 20000 1000 1000 1000 1000 1000 1000 1000 1000 1000 1000 1000 1000 1000 1000 1000 -1000",
            "search ceiling 0",
            "search all-in 1",
            "search one-by-one 1000000",
            "search limits+all-in+one-by-one+ceiling+limits 4294967295",
            "search shares 2",
            "search tangent+shares+tangent 3",
            "award 0",
            "award 64",
            "award 4294967295",
            "fees 0 0 0 0",
            "fees 100 50 10 16",
            "fees 4294967295 4294967294 4294967293 4294967292",
            "reopen",
            "sheet",
            "sheet 0",
            "sheet 4294967295",
        ] {
            check_lines(&rt, line, &[line])?;
        }
        Ok(())
    }

    #[test]
    fn lines_as_they_may_be_written(rt: HostRuntime) -> Result<(), Fail> {
        check_lines(&rt, "", &[])?;
        check_lines(&rt, "\n\r\n \t\r\n# reopen\n#\n", &[])?;
        check_lines(&rt, "\treopen  \r\nreopen", &["reopen", "reopen"])?;
        check_mistake(&rt, "reopen\r", "line 1: the first word names no call")?;
        check_lines(&rt, "award\n", &["award 64"])?;
        check_lines(&rt, "fees 1 2 3\n", &["fees 1 2 3 16"])?;
        check_lines(&rt, "catch-up 0aFf\n", &["catch-up 0aff"])?;
        check_lines(
            &rt,
            "withdraw\tband   0000000000000000000000001\n",
            &["withdraw band 1"],
        )?;
        check_lines(
            &rt,
            "close place -0 00 0 0 0 0 0 0 0 0 0 0 0 0 0 -0001\n",
            &["close place 0 0 0 0 0 0 0 0 0 0 0 0 0 0 0 -1"],
        )
    }

    #[test]
    fn mistakes(rt: HostRuntime) -> Result<(), Fail> {
        for (text, want) in [
            ("file package 1\nopen", "line 1: a word is missing"),
            (
                "reopen\n\n# \n open",
                "line 4: the first word names no call",
            ),
            ("Reopen", "line 1: the first word names no call"),
            (" # reopen", "line 1: the first word names no call"),
            ("reopen\r\r", "line 1: the first word names no call"),
            ("file", "line 1: a word is missing"),
            (
                "withdraw offer 1",
                "line 1: no kind of record has this name",
            ),
            ("close", "line 1: a word is missing"),
            ("close all", "line 1: no rule has this name"),
            ("search limits+ 1", "line 1: no rule has this name"),
            ("search + 1", "line 1: no rule has this name"),
            ("search limits", "line 1: a word is missing"),
            ("reopen 1", "line 1: a word too many"),
            ("catch-up 00 00", "line 1: a word too many"),
            ("award 64 64", "line 1: a word too many"),
            ("fees 1 2", "line 1: a word is missing"),
            ("fees 1 2 3 4 5", "line 1: a word too many"),
            ("file pair 1 2 3 4", "line 1: a word too many"),
            (
                "withdraw band +1",
                "line 1: a word that should be a number is none",
            ),
            (
                "withdraw band 1_0",
                "line 1: a word that should be a number is none",
            ),
            (
                "withdraw band 99999999999999999999x",
                "line 1: a word that should be a number is none",
            ),
            (
                "withdraw band -1",
                "line 1: a word that should be a number is none",
            ),
            (
                "close place --1",
                "line 1: a word that should be a number is none",
            ),
            (
                "close place -",
                "line 1: a word that should be a number is none",
            ),
            ("withdraw band 256", "line 1: a number is too large"),
            ("file band 1 256", "line 1: a number is too large"),
            ("file band 1 1 4294967296", "line 1: a number is too large"),
            ("file band 1 1 1 1 256", "line 1: a number is too large"),
            ("fees 1 2 4294967296", "line 1: a number is too large"),
            (
                "file package 1 0 0 0 0 18446744073709551616",
                "line 1: a number is too large",
            ),
            ("search limits 4294967296", "line 1: a number is too large"),
            ("award 4294967296", "line 1: a number is too large"),
            ("sheet 4294967296", "line 1: a number is too large"),
            ("sheet -1", "line 1: a word that should be a number is none"),
            (
                "close place 1001 0 0 0 0 0 0 0 0 0 0 0 0 0 0 0",
                "line 1: a number of a price rule is outside its range",
            ),
            (
                "close currency 9999 5000 0",
                "line 1: a number of a price rule is outside its range",
            ),
            (
                "catch-up 0",
                "line 1: a word that should be bytes has not two hexadecimal digits for each",
            ),
            (
                "catch-up 0g",
                "line 1: a word that should be bytes has not two hexadecimal digits for each",
            ),
        ] {
            check_mistake(&rt, text, want)?;
        }
        Ok(())
    }
}
