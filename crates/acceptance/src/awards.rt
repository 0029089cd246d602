//! Awards of other rounds than the worked ones: each rule of lawfulness that those leave out, and other bounding rules.
use crate::fixtures::{
    Clearing, Told, band, check_answers, check_clearing, excluded, filing, four_packages, limit,
    needs, package, row, six_bands, unqualified,
};
use crate::worked_rounds::{ALL_BUT_2, ALL_FOUR};
use bounds::{AllIn, BoundingRule, Ceiling, Joined, Limits, OneByOne, Shares, Tangent};
use offers::{Date, Kind, Limit, Offer, Package};
use pricing::{Filed, Place, ZoneNumbers};
use rounds::{OneOf, Request};
use std::process::Abort;
use std::test::*;

// Packages 1 and 3 together are 210,000 MWh a year.
#[test]
fn export_within_210000(rt: HostRuntime) -> Result<(), Fail> {
    let packages = four_packages().map(unqualified);
    let requests = filing(rt.alloc(), &packages, &six_bands(), &[limit(2, 1, 210_000)])?;
    let expected = Clearing {
        choices: 16,
        packages: &[1, 2, 3],
        choice: 7,
        surplus: 116_500_000,
        sales: &[50, 20, 150_000, 60_000, 150_000, 60_000],
    };
    check_clearing(&rt, requests, &expected)
}

#[test]
fn export_within_209999(rt: HostRuntime) -> Result<(), Fail> {
    let packages = four_packages().map(unqualified);
    let requests = filing(rt.alloc(), &packages, &six_bands(), &[limit(2, 1, 209_999)])?;
    let expected = Clearing {
        choices: 16,
        packages: &[2, 3, 4],
        choice: 14,
        surplus: 103_000_000,
        sales: &[50, 20, 120_000, 0, 120_000, 0],
    };
    check_clearing(&rt, requests, &expected)
}

// The four-package round with the third dated so, under a limit and a percentage of 100 in its zone: of two percentages the
// least binds.
fn check_dated<R: Abort + AllocGlobal>(
    rt: &R,
    date: Date,
    least: Limit,
    expected: &Clearing,
) -> Result<(), Fail> {
    let mut packages = four_packages();
    packages[2].date = date as u8;
    let most = Limit {
        amount: 100,
        ..least
    };
    let limits = [Offer::Limit(least), Offer::Limit(most)];
    let requests = filing(rt.alloc(), &packages, &six_bands(), &limits)?;
    check_clearing(rt, requests, expected)
}

const POWER_AFTER: u8 = 2;

const CERTIFICATES_BEFORE: u8 = 3;

const CERTIFICATES_AFTER: u8 = 4;

fn percentage(zone: u8, amount: u32) -> Limit {
    Limit {
        sort: 3,
        zone,
        amount,
    }
}

// Packages 1, 3 and 4 sell 80 MW and 240,000 certificates. The third's 20 MW are 25 per cent, its 90,000 certificates 37.5.
#[test]
fn percentages_kept(rt: HostRuntime) -> Result<(), Fail> {
    check_dated(&rt, Date::After, percentage(POWER_AFTER, 25), &ALL_BUT_2)?;
    check_dated(
        &rt,
        Date::Before,
        percentage(CERTIFICATES_BEFORE, 38),
        &ALL_BUT_2,
    )?;
    check_dated(
        &rt,
        Date::After,
        percentage(CERTIFICATES_AFTER, 38),
        &ALL_BUT_2,
    )
}

// All four sell more power, but no more certificates.
#[test]
fn percentages_broken(rt: HostRuntime) -> Result<(), Fail> {
    check_dated(&rt, Date::After, percentage(POWER_AFTER, 24), &ALL_FOUR)?;
    let all_but_3 = Clearing {
        choices: 16,
        packages: &[1, 2, 4],
        choice: 11,
        surplus: 87_500_000,
        sales: &[50, 30, 150_000, 0, 150_000, 0],
    };
    check_dated(
        &rt,
        Date::Before,
        percentage(CERTIFICATES_BEFORE, 37),
        &all_but_3,
    )?;
    check_dated(
        &rt,
        Date::After,
        percentage(CERTIFICATES_AFTER, 37),
        &all_but_3,
    )
}

// A percentage of power is of one zone: package 1 is all that zone 2 sells, and a quarter of what zones 2 and 3 sell.
#[test]
fn power_zones_apart(rt: HostRuntime) -> Result<(), Fail> {
    let packages = [
        Package {
            power_zone: 2,
            date: 1,
            ..package(10, 0, 0, 0)
        },
        Package {
            power_zone: 3,
            ..package(30, 0, 0, 0)
        },
    ];
    let bands = [band(2, 10, 5), band(3, 40, 5)];
    let requests = filing(rt.alloc(), &packages, &bands, &[limit(3, 1, 25)])?;
    let expected = Clearing {
        choices: 4,
        packages: &[2],
        choice: 2,
        surplus: 150,
        sales: &[0, 30],
    };
    check_clearing(&rt, requests, &expected)
}

// Package 1 is a MW too much for interconnection zone 2, package 3 a MWh for export zone 3; zone 1 has room for the rest.
#[test]
fn zones_of_limits_apart(rt: HostRuntime) -> Result<(), Fail> {
    let mut packages = four_packages().map(unqualified);
    packages[0].interconnection_zone = 2;
    packages[2].export_zone = 3;
    let limits = [limit(1, 2, 29), limit(2, 3, 89_999), limit(1, 1, 50)];
    let requests = filing(rt.alloc(), &packages, &six_bands(), &limits)?;
    let expected = Clearing {
        choices: 16,
        packages: &[2, 4],
        choice: 10,
        surplus: 39_500_000,
        sales: &[50, 0, 30_000, 0, 30_000, 0],
    };
    check_clearing(&rt, requests, &expected)
}

// Package 1 needs 4, and 4 needs 2.
#[test]
fn chain_of_pairs(rt: HostRuntime) -> Result<(), Fail> {
    let pairs = [needs(1, 4), needs(4, 2)];
    let requests = filing(rt.alloc(), &four_packages(), &six_bands(), &pairs)?;
    check_clearing(&rt, requests, &ALL_FOUR)
}

// A group with one member left forbids nothing, and a band that is withdrawn buys nothing.
#[test]
fn withdrawn_rule_and_band(rt: HostRuntime) -> Result<(), Fail> {
    let members = [excluded(1), excluded(3)];
    let mut requests = filing(rt.alloc(), &four_packages(), &six_bands(), &members)?;
    requests.push(Request::Withdraw(Kind::Exclusion, 2))?;
    requests.push(Request::Withdraw(Kind::Band, 2))?;
    let expected = Clearing {
        choices: 16,
        packages: &[1, 3],
        choice: 5,
        surplus: 111_500_000,
        sales: &[50, 0, 150_000, 60_000, 150_000, 60_000],
    };
    check_clearing(&rt, requests, &expected)
}

// The dearest band is filled first; of equal ones the lowest number, in whatever order they were filed.
#[test]
fn bands_of_equal_price(rt: HostRuntime) -> Result<(), Fail> {
    let requests = vec![in rt.alloc();
        Request::File(9, band(4, 4, 5)),
        Request::File(5, band(4, 3, 6)),
        Request::File(2, band(4, 10, 5)),
        Request::File(1, band(4, 4, 5)),
        Request::File(40, Offer::Package(package(0, 10, 0, 20))),
    ]?;
    let expected = Clearing {
        choices: 2,
        packages: &[40],
        choice: 1,
        surplus: 33,
        sales: &[4, 3, 0, 0, 3],
    };
    check_clearing(&rt, requests, &expected)
}

const ALL_JOINED: Joined<Limits, Joined<AllIn, Joined<Shares, Tangent>>> = Joined(
    Limits,
    Joined(AllIn, Joined(Shares, Tangent)),
);

// The four-package round where package 3 needs 2, searched under a rule: it ends with the last of so many steps.
fn check_steps<R: Abort + AllocGlobal, B: BoundingRule + Copy + Drop>(
    rt: &R,
    rule: B,
    steps: u32,
) -> Result<(), Fail> {
    let others = [needs(3, 2)];
    let mut requests = filing(rt.alloc(), &four_packages(), &six_bands(), &others)?;
    requests.push(Request::Close(Filed))?;
    requests.push(Request::Search(rule, steps.saturating_sub(1)))?;
    requests.push(Request::Search(rule, 1))?;
    let last = [Told::Found(15, 116_500_000), Told::Found(16, 118_500_000)];
    check_answers(rt, requests, &last)
}

#[test]
fn steps_under_each_rule(rt: HostRuntime) -> Result<(), Fail> {
    check_steps(&rt, Ceiling, 26)?;
    check_steps(&rt, AllIn, 26)?;
    check_steps(&rt, OneByOne, 20)?;
    check_steps(&rt, Limits, 22)?;
    check_steps(&rt, Joined(OneByOne, Limits), 16)?;
    check_steps(&rt, Shares, 26)?;
    check_steps(&rt, Tangent, 18)?;
    check_steps(&rt, ALL_JOINED, 16)
}

// The worked rounds of four packages, searched to their ends under a rule: each has the award that it has under any.
fn check_rule<R: Abort + AllocGlobal, B: BoundingRule + Copy + Drop>(
    rt: &R,
    rule: B,
) -> Result<(), Fail> {
    let packages = four_packages();
    let limited = packages.map(unqualified);
    let mut dated = packages;
    dated[2].date = 1;
    let rounds: [(&[Package], &[Offer], u64, i64); 12] = [
        (&packages, &[], 13, 123_500_000),
        (&packages, &[excluded(1), excluded(3)], 14, 103_000_000),
        (&packages, &[needs(3, 2)], 15, 118_500_000),
        (&limited, &[limit(1, 1, 50)], 5, 111_500_000),
        (&limited, &[limit(1, 1, 49)], 6, 80_500_000),
        (&dated, &[limit(3, 1, 25)], 13, 123_500_000),
        (&dated, &[limit(3, 1, 24)], 15, 118_500_000),
        (&packages, &[needs(3, 2), needs(2, 1)], 15, 118_500_000),
        (
            &limited,
            &[limit(1, 1, 50), limit(1, 1, 60)],
            5,
            111_500_000,
        ),
        (&limited, &[limit(1, 1, 49), limit(1, 1, 60)], 6, 80_500_000),
        (&dated, &[limit(3, 1, 25), limit(3, 1, 60)], 13, 123_500_000),
        (&dated, &[limit(3, 1, 24), limit(3, 1, 60)], 15, 118_500_000),
    ];
    for (packages, others, choice, surplus) in rounds {
        let mut requests = filing(rt.alloc(), packages, &six_bands(), others)?;
        requests.push(Request::Close(Filed))?;
        requests.push(Request::Search(rule, 1_000_000))?;
        requests.push(Request::ReadAward(row(rt.alloc(), 64)?))?;
        let last = [Told::Found(16, surplus), Told::Awarded(choice, surplus)];
        check_answers(rt, requests, &last)?;
    }
    Ok(())
}

#[test]
fn one_award_under_all_rules(rt: HostRuntime) -> Result<(), Fail> {
    check_rule(&rt, Ceiling)?;
    check_rule(&rt, AllIn)?;
    check_rule(&rt, OneByOne)?;
    check_rule(&rt, Limits)?;
    check_rule(&rt, Shares)?;
    check_rule(&rt, Tangent)?;
    check_rule(&rt, ALL_JOINED)
}

// Three searches of one round, each under another rule.
#[test]
fn different_rules(rt: HostRuntime) -> Result<(), Fail> {
    let mut requests = filing(rt.alloc(), &four_packages(), &six_bands(), &[])?;
    requests.push(Request::Close(Filed))?;
    requests.push(Request::Search(OneOf::First(Ceiling), 5))?;
    requests.push(Request::Search(OneOf::Second(OneOf::First(OneByOne)), 3))?;
    requests.push(Request::Search(OneOf::Second(OneOf::Second(AllIn)), 100))?;
    let last = [
        Told::Found(4, 68_000_000),
        Told::Found(6, 111_500_000),
        Told::Found(16, 123_500_000),
    ];
    check_answers(&rt, requests, &last)
}

// A round that is closed as filed, and again with a number for its zone.
#[test]
fn different_price_rules(rt: HostRuntime) -> Result<(), Fail> {
    let place = Place {
        numbers: ZoneNumbers::new([-3; 16])?,
        below: Filed,
    };
    let requests = vec![in rt.alloc();
        Request::File(1, Offer::Package(package(0, 10, 0, 20))),
        Request::File(1, band(4, 10, 5)),
        Request::Close(OneOf::First(Filed)),
        Request::Search(AllIn, 1),
        Request::Reopen,
        Request::Close(OneOf::Second(place)),
        Request::Search(AllIn, 1),
    ]?;
    let last = [
        Told::Found(2, 30),
        Told::Reopened,
        Told::Done,
        Told::Found(2, 60),
    ];
    check_answers(&rt, requests, &last)
}
