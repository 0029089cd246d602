//! Fees: of several buyers, of a band that is withdrawn, and what is refused.
use crate::fixtures::{
    FEE_RATES, LIMITS_AND_ALL_IN, TWO_PACKAGES, Told, UsualRequest, band_of, check_charged,
    check_run, filing, four_packages, row,
};
use fees::FeeRates;
use offers::{Code, Kind, Refusal};
use pricing::Filed;
use rounds::{Reply, Request};
use std::process::Abort;
use std::test::*;

// Buyers 1 and 16 have two bands each, and each of 2 and 9 has one; what they are sold is 150, 117.5, 54 and 27 million pesos.
#[test]
fn several_buyers(rt: HostRuntime) -> Result<(), Fail> {
    let bands = [
        band_of(16, 1, 50, 1_300_000),
        band_of(1, 1, 40, 1_000_000),
        band_of(1, 4, 150_000, 800),
        band_of(2, 4, 120_000, 600),
        band_of(16, 5, 150_000, 350),
        band_of(9, 5, 120_000, 300),
    ];
    let requests = filing(rt.alloc(), &four_packages(), &bands, &[])?;
    let mut fees = [0; 16];
    fees[0] = 55_500_000;
    fees[1] = 27_500_000;
    fees[8] = 14_000_000;
    fees[15] = 52_250_000;
    let last = [Told::Found(16, 123_500_000), Told::Charged(149_250_000)];
    check_charged(&rt, requests, &last, &fees)
}

// The two-package round with a band of buyer 2 that is withdrawn: buyer 1 pays on 50 pesos.
#[test]
fn withdrawn_band(rt: HostRuntime) -> Result<(), Fail> {
    let heap = rt.alloc();
    let sheet = TWO_PACKAGES.to_vec(heap)?;
    let requests = vec![in heap;
        Request::CatchUp(sheet),
        Request::File(2, band_of(2, 4, 10, 9)),
        Request::Withdraw(Kind::Band, 2),
    ]?;
    let last = [Told::Found(4, 30), Told::Charged(50)];
    check_charged(&rt, requests, &last, &[50])
}

// The award of the two-package round charges at these rates into a row of so many places, and refuses so; the row stays.
fn check_refused<R: Abort + AllocGlobal>(
    rt: &R,
    rates: FeeRates,
    places: usize,
    code: Code,
) -> Result<(), Fail> {
    let heap = rt.alloc();
    let sheet = TWO_PACKAGES.to_vec(heap)?;
    let row = row(heap, places)?;
    let requests: Vec<UsualRequest> = vec![in heap;
        Request::CatchUp(sheet),
        Request::Close(Filed),
        Request::Search(LIMITS_AND_ALL_IN, 100),
        Request::ReadFees(rates, row),
    ]?;
    let refused = Told::Refused(Refusal::code_only(code));
    let run = check_run(rt, requests, &[Told::Found(4, 30), refused])?;
    let Some(Reply::Charged(_, row)) = run.moments.last().map(|moment| &moment.reply) else {
        return Err(Fail::new("no fees were asked for"));
    };
    assert_eq!(rt; row.len(), places);
    assert!(rt; row.iter().all(|place| *place == 7));
    Ok(())
}

// A rate that is too great comes before a row that is too short.
#[test]
fn refused(rt: HostRuntime) -> Result<(), Fail> {
    let rate = Code::RateOutside;
    for (first, second, third, places, code) in [
        (101, 50, 10, 15, rate),
        (100, 101, 10, 15, rate),
        (100, 50, 101, 0, rate),
        (4_294_967_295, 50, 10, 16, rate),
        (100, 100, 100, 15, Code::NoRoom),
        (0, 0, 0, 0, Code::NoRoom),
    ] {
        let rates = FeeRates {
            first,
            second,
            third,
        };
        check_refused(&rt, rates, places, code)?;
    }
    assert_eq!(rt; rate.number(), 13);
    Ok(())
}
