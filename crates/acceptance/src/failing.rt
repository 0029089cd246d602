//! Readers and a writer that fail.
use std::alloc::Global;
use std::io;
use std::io::{ErrorKind, Read, Write};

/// Gives one byte, the sign of a comment, and then fails.
#[derive(Drop)]
pub struct CutOff {
    pub is_cut: bool,
}

impl Read for CutOff {
    fn read(&mut self, buf: &mut [u8]) -> io::Result<usize> {
        if self.is_cut || buf.is_empty() {
            return Err(io::Error::from(ErrorKind::TimedOut));
        }
        self.is_cut = true;
        buf[0] = b'#';
        Ok(1)
    }
}

/// Gives the bytes one by one, and is interrupted before each.
#[derive(Drop)]
pub struct Interrupted<'a> {
    pub rest: &'a [u8],
    pub is_next: bool,
}

impl Read for Interrupted<'_> {
    fn read(&mut self, buf: &mut [u8]) -> io::Result<usize> {
        self.is_next = !self.is_next;
        if !self.is_next {
            return Err(io::Error::from(ErrorKind::Interrupted));
        }
        let [byte, others @ ..] = self.rest else {
            return Ok(0);
        };
        let [first, ..] = buf else {
            return Ok(0);
        };
        *first = *byte;
        self.rest = others;
        Ok(1)
    }
}

/// Keeps so many bytes more, and then fails.
#[derive(Drop)]
pub struct Full {
    pub room: usize,
    pub kept: Vec<u8>,
}

impl Full {
    pub fn new(heap: Global, room: usize) -> Full {
        Full {
            room,
            kept: Vec::new(heap),
        }
    }
}

impl Write for Full {
    fn write(&mut self, buf: &[u8]) -> io::Result<usize> {
        if self.room == 0 {
            return Err(io::Error::from(ErrorKind::BrokenPipe));
        }
        let count = buf.len().min(self.room);
        self.kept.extend_from_slice(&buf[..count])?;
        self.room -= count;
        Ok(count)
    }

    fn flush(&mut self) -> io::Result<()> {
        Ok(())
    }
}
