//! Why a line is no call.
ghost use Rattle.std.specs.Prelude.{◌≡◌, Some};
ghost use Rattle.journals.specs.declared.wrongs.ReadError.TheVariants as error;

use std::alloc::{AllocError, AllocFailed};
use std::fmt;

/// What is wrong with a line.
#[derive(Clone, Copy, PartialEq, Eq, Debug)]
pub enum Wrong {
    /// the first word names no call
    UnknownWord,
    UnknownKind,
    UnknownRule,
    WordMissing,
    WordTooMany,
    NotANumber,
    /// a number that its field's bytes do not hold
    TooLarge,
    /// a price rule's check refuses its numbers
    RuleNumberOutside,
    NotBytes,
}

/// Why a line could not be read.
#[derive(Clone, Copy, PartialEq, Eq, Debug)]
pub enum ReadError {
    OutOfMemory,
    Wrong(Wrong),
}

impl From<Wrong> for ReadError {
    ghost from_gives = { λ wrong e. e ≡ error.Wrong wrong };

    fn from(wrong: Wrong) -> ReadError {
        ReadError::Wrong(wrong)
    }
}

impl From<AllocError> for ReadError {
    ghost from_gives = { λ _ e. e ≡ error.OutOfMemory };

    fn from(_e: AllocError) -> ReadError {
        ReadError::OutOfMemory
    }
}

impl<T: Drop> From<AllocFailed<T>> for ReadError {
    ghost from_gives = { λ _ e. e ≡ error.OutOfMemory };

    fn from(_e: AllocFailed<T>) -> ReadError {
        ReadError::OutOfMemory
    }
}

impl fmt::Display for Wrong {
    ghost use Rattle.journals.specs.Mistakes.{wrong_text};

    ghost output = { λ wrong. Some (wrong_text wrong) };

    fn fmt<W: fmt::Write>(&self, f: &mut fmt::Formatter<W>) -> fmt::Result {
        f.write_str(match self {
            Wrong::UnknownWord => "the first word names no call",
            Wrong::UnknownKind => "no kind of record has this name",
            Wrong::UnknownRule => "no rule has this name",
            Wrong::WordMissing => "a word is missing",
            Wrong::WordTooMany => "a word too many",
            Wrong::NotANumber => "a word that should be a number is none",
            Wrong::TooLarge => "a number is too large",
            Wrong::RuleNumberOutside => "a number of a price rule is outside its range",
            Wrong::NotBytes => {
                "a word that should be bytes has not two hexadecimal digits for each"
            }
        })
    }
}
