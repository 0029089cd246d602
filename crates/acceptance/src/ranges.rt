//! The fields of each kind at both ends of their ranges, and one past them.
use crate::fixtures::LEAST;
use offers::{Band, Exclusion, Limit, Package, Pair, Record};
use std::process::Abort;
use std::test::*;

// Checks an offer with one field changed: after each value stands the first field that is then out of range, 0 for none.
macro_rules! check_fields {
    ($rt:expr, $kind:ident, $offer:expr, $($field:ident: $($value:expr => $fault:expr),+;)+) => {
        check_faults(&$rt, &[$($(($kind { $field: $value, ..$offer }, $fault)),+),+])
    };
}

// Each row is an offer and its first field out of range, 0 for none.
fn check_faults<R: Record>(rt: &impl Abort, rows: &[(R, u8)]) -> Result<(), Fail> {
    for (row, (offer, field)) in rows.iter().enumerate() {
        assert_eq!(rt; offer.fault(), (*field != 0).then_some(*field), "row {row}");
    }
    Ok(())
}

#[test]
fn quantities_of_a_package(rt: HostRuntime) -> Result<(), Fail> {
    check_fields!(
        rt, Package, LEAST,
        power: 0 => 0, 10_000 => 0, 10_001 => 2;
        energy: 0 => 0, 10_000_000 => 0, 10_000_001 => 3;
        certificates: 0 => 0, 10_000_000 => 0, 10_000_001 => 4;
        nameplate: 0 => 0, 100_000 => 0, 100_001 => 5;
        price: 0 => 0, 10_000_000_000 => 0, 10_000_000_001 => 6;
    )
}

#[test]
fn zones_of_a_package(rt: HostRuntime) -> Result<(), Fail> {
    check_fields!(
        rt, Package, LEAST,
        power_zone: 0 => 7, 1 => 0, 3 => 0, 4 => 7;
        interconnection_zone: 0 => 8, 1 => 0, 16 => 0, 17 => 8;
        export_zone: 0 => 9, 1 => 0, 16 => 0, 17 => 9;
        price_zone: 0 => 10, 1 => 0, 16 => 0, 17 => 10;
    )
}

#[test]
fn choices_of_a_package(rt: HostRuntime) -> Result<(), Fail> {
    check_fields!(
        rt, Package, LEAST,
        date: 0 => 0, 2 => 0, 3 => 11;
        unqualified: 0 => 0, 1 => 0, 2 => 12;
        dollar: 0 => 0, 1 => 0, 2 => 13;
    )
}

#[test]
fn fields_of_a_band(rt: HostRuntime) -> Result<(), Fail> {
    let band = Band {
        market: 1,
        quantity: 1,
        price: 0,
        buyer: 1,
    };
    check_fields!(
        rt, Band, band,
        market: 0 => 2, 1 => 0, 5 => 0, 6 => 2;
        quantity: 0 => 3, 1 => 0, 100_000_000 => 0, 100_000_001 => 3;
        price: 0 => 0, 10_000_000 => 0, 10_000_001 => 4;
        buyer: 0 => 5, 1 => 0, 16 => 0, 17 => 5;
    )
}

#[test]
fn fields_of_a_pair(rt: HostRuntime) -> Result<(), Fail> {
    let pair = Pair {
        dependent: 2,
        needed: 3,
    };
    check_fields!(
        rt, Pair, pair,
        dependent: 0 => 2, 1 => 0, 40 => 0, 41 => 2;
        needed: 0 => 3, 1 => 0, 40 => 0, 41 => 3;
    )?;
    // a package that needs itself
    check_fields!(rt, Pair, pair, dependent: 3 => 3; needed: 2 => 3;)
}

#[test]
fn fields_of_an_exclusion(rt: HostRuntime) -> Result<(), Fail> {
    let exclusion = Exclusion {
        group: 1,
        member: 1,
    };
    check_fields!(
        rt, Exclusion, exclusion,
        group: 0 => 2, 1 => 0, 16 => 0, 17 => 2;
        member: 0 => 3, 1 => 0, 40 => 0, 41 => 3;
    )
}

#[test]
fn fields_of_a_limit(rt: HostRuntime) -> Result<(), Fail> {
    let interconnection = Limit {
        sort: 1,
        zone: 1,
        amount: 0,
    };
    check_fields!(
        rt, Limit, interconnection,
        sort: 0 => 2, 1 => 0, 3 => 0, 4 => 2;
        zone: 0 => 3, 1 => 0, 16 => 0, 17 => 3;
        amount: 0 => 0, 1_000_000_000 => 0, 1_000_000_001 => 4;
    )?;
    let export = Limit {
        sort: 2,
        ..interconnection
    };
    check_fields!(
        rt, Limit, export,
        zone: 0 => 3, 1 => 0, 16 => 0, 17 => 3;
        amount: 0 => 0, 1_000_000_000 => 0, 1_000_000_001 => 4;
    )?;
    let percentage = Limit {
        sort: 3,
        ..interconnection
    };
    check_fields!(
        rt, Limit, percentage,
        zone: 0 => 3, 1 => 0, 4 => 0, 5 => 3;
        amount: 0 => 0, 100 => 0, 101 => 4;
    )
}

// Of several fields out of range the leftmost is named.
#[test]
fn several_fields(rt: HostRuntime) -> Result<(), Fail> {
    let pair = Pair {
        dependent: 41,
        needed: 41,
    };
    assert_eq!(rt; pair.fault(), Some(2));
    let limit = Limit {
        sort: 4,
        zone: 17,
        amount: 1_000_000_001,
    };
    assert_eq!(rt; limit.fault(), Some(2));
    let percentage = Limit { sort: 3, ..limit };
    assert_eq!(rt; percentage.fault(), Some(3));
    Ok(())
}
