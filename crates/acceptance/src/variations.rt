//! Variations of the worked rounds: the eighth with a qualified package, and the tenth with a band that buys.
use crate::fixtures::{
    Clearing, Told, band, check_answers, check_clearing, filing, four_packages, limit, package,
    six_bands, stack, unqualified,
};
use bounds::AllIn;
use offers::{Offer, Package};
use rounds::Request;
use std::process::Abort;
use std::test::*;

// Round 8 with package 1 qualified: its nameplate does not count. Field `qualified_not_counted` of `WorkedRounds`.
#[test]
fn round_8_with_package_1_qualified(rt: HostRuntime) -> Result<(), Fail> {
    let mut packages = four_packages().map(unqualified);
    packages[0].unqualified = 0;
    let requests = filing(rt.alloc(), &packages, &six_bands(), &[limit(1, 1, 49)])?;
    let expected = Clearing {
        choices: 16,
        packages: &[1, 2, 3],
        choice: 7,
        surplus: 116_500_000,
        sales: &[50, 20, 150_000, 60_000, 150_000, 60_000],
    };
    check_clearing(&rt, requests, &expected)
}

// What the package of round 10 is worth at this filed price, closed in the round's own stack, to a band that pays 80 pesos
// for all of it.
fn check_worth<R: Abort + AllocGlobal>(rt: &R, price: u64, surplus: i64) -> Result<(), Fail> {
    let offer = Offer::Package(Package {
        dollar: 1,
        ..package(0, 10, 0, price)
    });
    let close = Request::Close(stack(-3, 10_100, 10_000)?);
    let requests = vec![in rt.alloc();
        Request::File(1, offer),
        Request::File(1, band(4, 10, 8)),
        close,
        Request::Search(AllIn, 1),
    ]?;
    check_answers(rt, requests, &[Told::Found(2, surplus)])
}

// The prices are -30 and 71 pesos.
#[test]
fn round_10_with_a_band(rt: HostRuntime) -> Result<(), Fail> {
    check_worth(&rt, 0, 110)?;
    check_worth(&rt, 100, 9)
}
