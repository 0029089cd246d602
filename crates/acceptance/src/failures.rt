//! What comes of a sheet or a journal whose bytes end in a failure, and of a text for which there is no room.
use crate::failing::{CutOff, Full, Interrupted};
use crate::fixtures::TWO_PACKAGES;
use journals::run_journal;
use reports::{Rules, answer_sheet};
use rounds::Progress;
use std::io::ErrorKind;
use std::test::*;

// Wants to know nothing.
#[derive(Drop)]
struct Silent;

impl Progress for Silent {
    fn note(&mut self, _settled: u64, _choices: u64, _surplus: i64) {}
}

#[test]
fn a_sheet_cut_off(rt: HostRuntime) {
    let mut output = Vec::new(rt.alloc());
    let reader = CutOff { is_cut: false };
    match answer_sheet(rt.alloc(), reader, &mut output, Rules::Quick, &mut Silent) {
        Ok(_) => assert!(rt; false, "answered half a sheet"),
        Err(e) => assert!(rt; e.kind() == ErrorKind::TimedOut),
    }
    assert!(rt; output.is_empty());
}

// A read that is interrupted is tried again.
#[test]
fn a_sheet_in_pieces(rt: HostRuntime) -> Result<(), Fail> {
    let mut output = Vec::new(rt.alloc());
    let reader = Interrupted {
        rest: TWO_PACKAGES,
        is_next: true,
    };
    assert!(rt; !answer_sheet(rt.alloc(), reader, &mut output, Rules::Quick, &mut Silent)?);
    let text = "open 2 choices 4\npackage 1\nband 1 sold 10\nsurplus 30\n";
    assert_eq!(rt; output.as_slice(), text.as_bytes());
    Ok(())
}

#[test]
fn no_room_for_an_award(rt: HostRuntime) {
    let sheet: &[u8] = b"";
    let mut full = Full::new(rt.alloc(), 20);
    match answer_sheet(rt.alloc(), sheet, &mut full, Rules::Quick, &mut Silent) {
        Ok(_) => assert!(rt; false, "wrote past the end"),
        Err(e) => assert!(rt; e.kind() == ErrorKind::BrokenPipe),
    }
    assert_eq!(rt; full.kept.as_slice(), "open 0 choices 1\nsur".as_bytes());
}

#[test]
fn a_journal_cut_off(rt: HostRuntime) {
    let mut output = Vec::new(rt.alloc());
    match run_journal(rt.alloc(), CutOff { is_cut: false }, &mut output, &mut ()) {
        Ok(_) => assert!(rt; false, "answered half a journal"),
        Err(e) => assert!(rt; e.kind() == ErrorKind::TimedOut),
    }
    assert!(rt; output.is_empty());
}

// Of its answers, and of its first mistake.
#[test]
fn no_room_for_a_journals_text(rt: HostRuntime) {
    for (journal, kept) in [
        ("award", "not taken while open"),
        ("awrd", "line 1: the first wo"),
    ] {
        let mut full = Full::new(rt.alloc(), 20);
        match run_journal(rt.alloc(), journal.as_bytes(), &mut full, &mut ()) {
            Ok(_) => assert!(rt; false, "wrote past the end"),
            Err(e) => assert!(rt; e.kind() == ErrorKind::BrokenPipe),
        }
        assert_eq!(rt; full.kept.as_slice(), kept.as_bytes());
    }
}
