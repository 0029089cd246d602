//! Runs of calls: what each state takes, what a refused call leaves, and rounds that are closed more than once.
use crate::fixtures::{
    FEE_RATES, LIMITS_AND_ALL_IN, TWO_PACKAGES, Told, UsualRequest, band, check_answers, check_run,
    check_sold, filing, four_packages, package, row, six_bands, stack,
};
use bounds::Ceiling;
use offers::{Code, Kind, Offer, Package, Refusal};
use pricing::Filed;
use rounds::{Reply, Request, Round, Run};
use std::alloc::{AllocError, Global};
use std::process::Abort;
use std::test::*;

// Catches up from the sheet of the two-package round.
fn two_packages(heap: Global) -> Result<UsualRequest, AllocError> {
    Ok(Request::CatchUp(TWO_PACKAGES.to_vec(heap)?))
}

// A package of 10 MWh for 20 pesos.
fn ten_for_20() -> Offer {
    Offer::Package(package(0, 10, 0, 20))
}

#[test]
fn not_taken_while_open(rt: HostRuntime) -> Result<(), Fail> {
    let heap = rt.alloc();
    let fees_row = row(heap, 16)?;
    let row = row(heap, 64)?;
    let requests: Vec<UsualRequest> = vec![in heap;
        Request::Search(LIMITS_AND_ALL_IN, 1),
        Request::Reopen,
        Request::ReadAward(row),
        Request::ReadFees(FEE_RATES, fees_row),
    ]?;
    check_answers(&rt, requests, &[Told::NotTaken; 4])
}

// The search comes to what it would have come to without the calls that are not taken.
#[test]
fn not_taken_while_closed(rt: HostRuntime) -> Result<(), Fail> {
    let heap = rt.alloc();
    let catch_up = two_packages(heap)?;
    let fees_row = row(heap, 16)?;
    let row = row(heap, 64)?;
    let requests = vec![in heap;
        catch_up,
        Request::Close(Filed),
        Request::File(3, ten_for_20()),
        Request::Withdraw(Kind::Package, 1),
        Request::CatchUp(Vec::new(heap)),
        Request::Close(Filed),
        Request::ReadAward(row),
        Request::ReadFees(FEE_RATES, fees_row),
        Request::Search(LIMITS_AND_ALL_IN, 100),
    ]?;
    let last = [
        Told::NotTaken,
        Told::NotTaken,
        Told::NotTaken,
        Told::NotTaken,
        Told::NotTaken,
        Told::NotTaken,
        Told::Found(4, 30),
    ];
    check_answers(&rt, requests, &last)
}

// And so does the award.
#[test]
fn not_taken_while_awarded(rt: HostRuntime) -> Result<(), Fail> {
    let heap = rt.alloc();
    let catch_up = two_packages(heap)?;
    let row = row(heap, 64)?;
    let requests = vec![in heap;
        catch_up,
        Request::Close(Filed),
        Request::Search(LIMITS_AND_ALL_IN, 100),
        Request::File(3, ten_for_20()),
        Request::Withdraw(Kind::Package, 1),
        Request::CatchUp(Vec::new(heap)),
        Request::Close(Filed),
        Request::Search(LIMITS_AND_ALL_IN, 100),
        Request::ReadAward(row),
    ]?;
    let last = [
        Told::Found(4, 30),
        Told::NotTaken,
        Told::NotTaken,
        Told::NotTaken,
        Told::NotTaken,
        Told::NotTaken,
        Told::Awarded(1, 30),
    ];
    check_sold(&rt, requests, &last, &[10])
}

// With its package withdrawn a round has one choice. A count of steps out of range is refused even so; one in range makes
// no step.
#[test]
fn nothing_open(rt: HostRuntime) -> Result<(), Fail> {
    let heap = rt.alloc();
    let row = row(heap, 64)?;
    let requests = vec![in heap;
        Request::File(1, ten_for_20()),
        Request::File(1, band(4, 10, 5)),
        Request::Withdraw(Kind::Package, 1),
        Request::Close(Filed),
        Request::Search(LIMITS_AND_ALL_IN, 0),
        Request::Search(LIMITS_AND_ALL_IN, 1_000_001),
        Request::Search(LIMITS_AND_ALL_IN, 1),
        Request::ReadAward(row),
    ]?;
    let outside = Told::Refused(Refusal::code_only(Code::StepsOutside));
    let last = [outside, outside, Told::Found(1, 0), Told::Awarded(0, 0)];
    check_sold(&rt, requests, &last, &[0])
}

// What the award of the two-package round is answered into a row of so many places, and what the row holds then.
fn check_row_of<R: Abort + AllocGlobal>(
    rt: &R,
    places: usize,
    told: Told,
    sales: &[u64],
) -> Result<(), Fail> {
    let heap = rt.alloc();
    let catch_up = two_packages(heap)?;
    let row = row(heap, places)?;
    let requests = vec![in heap;
        catch_up,
        Request::Close(Filed),
        Request::Search(LIMITS_AND_ALL_IN, 100),
        Request::ReadAward(row),
    ]?;
    check_sold(rt, requests, &[Told::Found(4, 30), told], sales)
}

// Place 65 is kept.
#[test]
fn longer_row(rt: HostRuntime) -> Result<(), Fail> {
    check_row_of(&rt, 65, Told::Awarded(1, 30), &[10])
}

// Every place is kept.
#[test]
fn shorter_row(rt: HostRuntime) -> Result<(), Fail> {
    let no_room = Refusal::code_only(Code::NoRoom);
    check_row_of(&rt, 63, Told::Refused(no_room), &[7; 63])
}

// Asks for the sheet of the two-package round in a buffer that is two bytes longer, and in one that is a byte too short.
// Both hold a 7 at every place.
fn ask_for_sheets(requests: &mut Vec<UsualRequest>, heap: Global) -> Result<(), AllocError> {
    for places in [88, 85] {
        let buffer = vec![in heap; 7u8; places]?;
        requests.push(Request::WriteSheet(buffer))?;
    }
    Ok(())
}

// Each buffer of a run that was long enough begins with the sheet, and all the rest is as it was lent.
fn check_buffers(rt: &impl Abort, run: &Run) {
    for moment in &run.moments {
        if let Reply::Written(answer, buffer) = &moment.reply {
            let sheet = if answer.is_ok() {
                TWO_PACKAGES.as_slice()
            } else {
                &[]
            };
            check_buffer(rt, buffer, sheet);
        }
    }
}

fn check_buffer(rt: &impl Abort, buffer: &[u8], sheet: &[u8]) {
    for (place, byte) in buffer.iter().enumerate() {
        let expected = sheet.get(place).copied().unwrap_or(7);
        assert_eq!(rt; *byte, expected, "place {place}");
    }
}

// The two-package round is open, closed and awarded, and each time its sheet is asked for.
#[test]
fn sheet_in_each_state(rt: HostRuntime) -> Result<(), Fail> {
    let heap = rt.alloc();
    let mut requests = Vec::new(heap);
    requests.push(two_packages(heap)?)?;
    ask_for_sheets(&mut requests, heap)?;
    requests.push(Request::Close(Filed))?;
    ask_for_sheets(&mut requests, heap)?;
    requests.push(Request::Search(LIMITS_AND_ALL_IN, 100))?;
    ask_for_sheets(&mut requests, heap)?;
    let no_room = Told::Refused(Refusal::code_only(Code::NoRoom));
    let last = [
        Told::Written(87),
        no_room,
        Told::Done,
        Told::Written(87),
        no_room,
        Told::Found(4, 30),
        Told::Written(87),
        no_room,
    ];
    let run = check_run(&rt, requests, &last)?;
    check_buffers(&rt, &run);
    Ok(())
}

// The four-package round is reopened while it is searched and when it is awarded, and then package 3 is withdrawn.
#[test]
fn reopened(rt: HostRuntime) -> Result<(), Fail> {
    let heap = rt.alloc();
    let mut requests = filing(heap, &four_packages(), &six_bands(), &[])?;
    let row = row(heap, 64)?;
    requests.append(&mut vec![in heap;
        Request::Close(Filed),
        Request::Search(LIMITS_AND_ALL_IN, 5),
        Request::Reopen,
        Request::Close(Filed),
        Request::Search(LIMITS_AND_ALL_IN, 100),
        Request::Reopen,
        Request::Withdraw(Kind::Package, 3),
        Request::Close(Filed),
        Request::Search(LIMITS_AND_ALL_IN, 100),
        Request::ReadAward(row),
    ]?)?;
    let last = [
        Told::Found(4, 68_000_000),
        Told::Reopened,
        Told::Done,
        Told::Found(16, 123_500_000),
        Told::Reopened,
        Told::Done,
        Told::Done,
        Told::Found(8, 87_500_000),
        Told::Awarded(7, 87_500_000),
    ];
    check_sold(&rt, requests, &last, &[50, 30, 150_000, 0, 150_000, 0])
}

// The answer to a closing where this package's price is a fault of the third rule from below.
fn no_price(number: u8) -> Told {
    Told::Refused(Refusal {
        tag: 1,
        number,
        depth: 3,
        ..Refusal::code_only(Code::PriceFault)
    })
}

// Two packages have no price. The lowest-numbered of them refuses the closing, and the round stays open.
#[test]
fn price_fault(rt: HostRuntime) -> Result<(), Fail> {
    let dear = Offer::Package(Package {
        dollar: 1,
        ..package(0, 10_000_000, 0, 10_000_000_000)
    });
    let close = Request::Close(stack(1_000, 11_000, 20_000)?);
    let close_again = Request::Close(stack(1_000, 11_000, 20_000)?);
    let requests: Vec<Request<_, Ceiling>> = vec![in rt.alloc();
        Request::File(7, dear),
        Request::File(3, dear),
        Request::File(1, ten_for_20()),
        close,
        Request::Withdraw(Kind::Package, 7),
        Request::Withdraw(Kind::Package, 3),
        close_again,
    ]?;
    let last = [no_price(3), Told::Done, Told::Done, Told::Done];
    check_answers(&rt, requests, &last)
}

// Package 1 of the two-package round is withdrawn, and then stands open on an older sheet: package 2 is awarded.
fn check_package_2<R: Abort + AllocGlobal>(rt: &R, withdraw: UsualRequest) -> Result<(), Fail> {
    let heap = rt.alloc();
    let catch_up = two_packages(heap)?;
    let catch_up_again = two_packages(heap)?;
    let row = row(heap, 64)?;
    let requests = vec![in heap;
        catch_up,
        withdraw,
        catch_up_again,
        Request::Close(Filed),
        Request::Search(LIMITS_AND_ALL_IN, 100),
        Request::ReadAward(row),
    ]?;
    let run = check_run(rt, requests, &[Told::Found(2, 30), Told::Awarded(1, 30)])?;
    check_open(rt, &run.round, 2)
}

// This package alone was open at the closing of an awarded round.
fn check_open(rt: &impl Abort, round: &Round, number: u8) -> Result<(), Fail> {
    let Round::Awarded(awarded) = round else {
        return Err(Fail::new("not awarded"));
    };
    let open = awarded.docket().packages.as_slice();
    assert_eq!(rt; open.len(), 1);
    assert_eq!(rt; open[0].number, number);
    Ok(())
}

#[test]
fn withdrawal_outlives_an_older_sheet(rt: HostRuntime) -> Result<(), Fail> {
    check_package_2(&rt, Request::Withdraw(Kind::Package, 1))
}

// The same where a newer sheet has it withdrawn.
#[test]
fn withdrawn_on_a_sheet(rt: HostRuntime) -> Result<(), Fail> {
    let mut sheet = *TWO_PACKAGES;
    sheet[4] = 2;
    check_package_2(&rt, Request::CatchUp(sheet.to_vec(rt.alloc())?))
}
