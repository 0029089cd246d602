//! The words of a line, read from the left.
ghost use Rattle.std.specs.Prelude.{◌≡◌, not};
ghost use Rattle.journals.specs.Readers.{unread, NextWord, Gives, word_at, number_at, optional_at, signed_at, end_at};
ghost use Rattle.std.specs.List.{position};
ghost use Rattle.journals.specs.Words.{words_in, is_blank};

use crate::numbers::{i64_of, u8_of, u32_of, u64_of};
use crate::wrongs::Wrong;

/// What of a line is still to be read.
#[derive(Drop)]
pub struct Words<'a> {
    rest: &'a [u8],
}

fn is_blank(byte: u8) -> bool
    ensures { result ≡ is_blank byte }
{
    byte == b' ' || byte == b'\t'
}

// Where the first blank stands.
fn first_blank(bytes: &[u8]) -> Option<usize>
    ensures { result ≡ position is_blank bytes.now }
{
    bytes.iter().position(|byte| is_blank(*byte))
}

// Where the first byte stands that is no blank.
fn first_other(bytes: &[u8]) -> Option<usize>
    ensures { result ≡ position (λ byte. not (is_blank byte)) bytes.now }
{
    bytes.iter().position(|byte| !is_blank(*byte))
}

impl<'a> Words<'a> {
    pub fn new(line: &'a [u8]) -> Words<'a>
        ensures { unread result ≡ words_in line.now }
    {
        Words { rest: line }
    }

    /// The next word, where there is one.
    #[tactic(auto, using(crate::proofs::Parting::no_word, crate::proofs::Parting::first_word))]
    pub fn next(&mut self) -> Option<&'a [u8]>
        ensures { NextWord self.old result self.new }
    {
        let start = first_other(self.rest)?;
        let rest = &self.rest[start..];
        let length = first_blank(rest).unwrap_or(rest.len());
        let (word, rest) = rest.split_at(length);
        self.rest = rest;
        Some(word)
    }

    /// The next word.
    pub fn word(&mut self) -> Result<&'a [u8], Wrong>
        ensures { Gives (λ word. word.now) result self.new (word_at (unread self.old)) }
    {
        self.next().ok_or(Wrong::WordMissing)
    }

    /// The next word as a number that one byte holds.
    #[tactic(auto, unfolding(crate::specs::Readers::number_at))]
    pub fn next_u8(&mut self) -> Result<u8, Wrong>
        ensures { Gives (λ n. n) result self.new (number_at 1 (unread self.old)) }
    {
        u8_of(self.word()?)
    }

    /// The next word as a number that four bytes hold.
    #[tactic(auto, unfolding(crate::specs::Readers::number_at))]
    pub fn next_u32(&mut self) -> Result<u32, Wrong>
        ensures { Gives (λ n. n) result self.new (number_at 4 (unread self.old)) }
    {
        u32_of(self.word()?)
    }

    /// The next word as a number that eight bytes hold.
    #[tactic(auto, unfolding(crate::specs::Readers::number_at))]
    pub fn next_u64(&mut self) -> Result<u64, Wrong>
        ensures { Gives (λ n. n) result self.new (number_at 8 (unread self.old)) }
    {
        u64_of(self.word()?)
    }

    /// The next word, where there is one, as a number that four bytes hold.
    pub fn optional_u32(&mut self) -> Result<Option<u32>, Wrong>
        ensures { Gives (λ n. n) result self.new (optional_at 4 (unread self.old)) }
    {
        match self.next() {
            Some(word) => Ok(Some(u32_of(word)?)),
            None => Ok(None),
        }
    }

    /// The next word as a signed number.
    #[tactic(auto, unfolding(crate::specs::Readers::signed_at))]
    pub fn next_i64(&mut self) -> Result<i64, Wrong>
        ensures { Gives (λ n. n) result self.new (signed_at (unread self.old)) }
    {
        i64_of(self.word()?)
    }

    /// No word is left.
    pub fn end(&mut self) -> Result<(), Wrong>
        ensures { Gives (λ n. n) result self.new (end_at (unread self.old)) }
    {
        match self.next() {
            Some(_) => Err(Wrong::WordTooMany),
            None => Ok(()),
        }
    }
}
