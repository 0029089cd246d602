//! How far a search or a run of calls is, said on standard error.
ghost use Rattle.std.specs.Prelude.{◌≡◌, ◌+◌, ◌<◌, if◌then◌else◌, IsTrue, ◌↔◌};

use rounds::{Progress, Watch};
use std::io::Eprint;

// Of so many notes of a search one is said; a note comes every million steps.
const SEARCH: u32 = 16;

// Of so many calls of a run one is said; a call takes a million steps at most.
const RUN: u32 = 20;

/// Counts notes, and says some of them.
#[derive(Drop)]
pub struct Meter<'a, R> {
    rt: &'a R,
    // of so many notes one is said
    each: u32,
    // since the last that was said
    notes: u32,
    ghost in_range: { notes < each },
}

impl<'a, R> Meter<'a, R> {
    /// A meter of a search.
    pub fn of_search(rt: &'a R) -> Meter<'a, R>
        ensures each { result.each ≡ 16 }
        ensures notes { result.notes ≡ 0 }
    {
        Meter {
            rt,
            each: SEARCH,
            notes: 0,
        }
    }

    /// A meter of a run of calls.
    pub fn of_run(rt: &'a R) -> Meter<'a, R>
        ensures each { result.each ≡ 20 }
        ensures notes { result.notes ≡ 0 }
    {
        Meter {
            rt,
            each: RUN,
            notes: 0,
        }
    }

    // Counts a note, and answers whether it is due to be said: whether it is the last of its so many.
    fn is_due(&mut self) -> bool
        ensures each { self.new.each ≡ self.old.each }
        ensures due { IsTrue result ↔ (self.old.notes + 1 ≡ self.old.each) }
        ensures notes { self.new.notes ≡ if result then 0 else self.old.notes + 1 }
    {
        let due = self.notes + 1 == self.each;
        self.notes = if due { 0 } else { self.notes + 1 };
        due
    }
}

impl<R: Eprint> Progress for Meter<'_, R> {
    fn note(&mut self, settled: u64, choices: u64, surplus: i64) {
        if self.is_due() {
            let _ = eprintln!(self.rt; "settled {settled} of {choices}, surplus {surplus}");
        }
    }
}

impl<R: Eprint> Watch for Meter<'_, R> {
    fn made(&mut self, requests: usize, all: usize) {
        if self.is_due() {
            let _ = eprintln!(self.rt; "made {requests} of {all} calls");
        }
    }
}
