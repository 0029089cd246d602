//! What is printed of an award and of a refused sheet.
use crate::fixtures::{
    LIMITS_AND_ALL_IN, TWO_PACKAGES, UsualRequest, filing, four_packages, report_of, six_bands,
};
use offers::{Code, Refusal};
use pricing::Filed;
use reports::{RefusedSheet, Report};
use rounds::{OpenRound, Progress, Request, finish, replay};
use std::process::Abort;
use std::test::*;

// Once all that is asked is done, the round is closed as filed and searched to its end, and its award has this text.
fn check_text<R: Abort + AllocGlobal>(
    rt: &R,
    mut requests: Vec<UsualRequest>,
    lines: &str,
) -> Result<(), Fail> {
    requests.push(Request::Close(Filed))?;
    requests.push(Request::Search(LIMITS_AND_ALL_IN, 1_000_000))?;
    let report = report_of(rt.alloc(), &replay(rt.alloc(), requests, &mut ())?.round)?;
    assert_eq!(rt; report.to_string(rt.alloc())?.as_str(), lines);
    Ok(())
}

#[test]
fn no_offers(rt: HostRuntime) -> Result<(), Fail> {
    check_text(&rt, Vec::new(rt.alloc()), "open 0 choices 1\nsurplus 0\n")
}

#[test]
fn four_packages_and_six_bands(rt: HostRuntime) -> Result<(), Fail> {
    let requests = filing(rt.alloc(), &four_packages(), &six_bands(), &[])?;
    let lines = "open 4 choices 16\npackage 1\npackage 3\npackage 4\n\
        band 1 sold 50\nband 2 sold 30\nband 3 sold 150000\n\
        band 4 sold 90000\nband 5 sold 150000\nband 6 sold 90000\nsurplus 123500000\n";
    check_text(&rt, requests, lines)
}

// Keeps what it was told last.
#[derive(Drop)]
struct Last(u64, u64, i64);

impl Progress for Last {
    fn note(&mut self, settled: u64, choices: u64, surplus: i64) {
        *self = Last(settled, choices, surplus);
    }
}

// The two-package round by the calls of each state, from its sheet to its text, with word of how far the search is.
#[test]
fn two_packages_and_a_band(rt: HostRuntime) -> Result<(), Fail> {
    let heap = rt.alloc();
    let mut round = OpenRound::new(heap)?;
    round.catch_up(TWO_PACKAGES)?;
    let Ok(closed) = round.close(&mut Filed) else {
        return Err(Fail::new("not closed"));
    };
    let mut last = Last(0, 0, 0);
    let awarded = finish(closed, &mut LIMITS_AND_ALL_IN, &mut last);
    assert_eq!(rt; (last.0, last.1, last.2), (4, 4, 30));
    let text = Report::new(heap, &awarded)?.to_string(heap)?;
    let lines = "open 2 choices 4\npackage 1\nband 1 sold 10\nsurplus 30\n";
    assert_eq!(rt; text.as_str(), lines);
    Ok(())
}

// Of a round with no offers, whose one choice is settled from the start, no word of its search is told.
#[test]
fn nothing_told_of_no_offers(rt: HostRuntime) -> Result<(), Fail> {
    let Ok(closed) = OpenRound::new(rt.alloc())?.close(&mut Filed) else {
        return Err(Fail::new("not closed"));
    };
    let mut last = Last(0, 0, 0);
    finish(closed, &mut LIMITS_AND_ALL_IN, &mut last);
    assert_eq!(rt; (last.0, last.1, last.2), (0, 0, 0));
    Ok(())
}

#[test]
fn refused_sheet(rt: HostRuntime) -> Result<(), Fail> {
    let refused = RefusedSheet(Refusal {
        tag: 1,
        number: 1,
        byte: 36,
        ..Refusal::code_only(Code::NotRising)
    });
    assert_eq!(rt;
        refused.to_string(rt.alloc())?.as_str(),
        "refused 8 at 36\n"
    );
    Ok(())
}
