//! Bytes as words of two hexadecimal digits each.
ghost use Rattle.journals.specs.Bytes.{bytes_in, bytes_at};
ghost use Rattle.journals.specs.Readers.{unread, Reads};

use crate::words::Words;
use crate::wrongs::{ReadError, Wrong};
use hex::FromHexError;
use std::alloc::Global;

// The bytes that a word has.
fn decoded(heap: Global, word: &[u8]) -> Result<Vec<u8>, ReadError>
    ensures { Reads (λ bytes. bytes.items) result (bytes_in word.now) }
{
    match hex::decode(heap, word) {
        Ok(bytes) => Ok(bytes),
        Err(FromHexError::OutOfMemory) => Err(ReadError::OutOfMemory),
        Err(_) => Err(ReadError::Wrong(Wrong::NotBytes)),
    }
}

/// The next word as bytes; none where there is no word.
pub fn bytes(heap: Global, words: &mut Words) -> Result<Vec<u8>, ReadError>
    ensures { Reads (λ bytes. (bytes.items, unread words.new)) result (bytes_at (unread words.old)) }
{
    match words.next() {
        Some(word) => decoded(heap, word),
        None => Ok(Vec::new(heap)),
    }
}
