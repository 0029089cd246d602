//! Prices by the filed, the place and the currency rule, and their faults.
use crate::fixtures::{package, stack};
use offers::{Code, Package, Refusal};
use pricing::{Fault, PriceRule};
use std::test::*;

// A package of this energy and filed price, in dollars.
fn in_dollars(energy: u32, price: u64) -> Package {
    Package {
        dollar: 1,
        ..package(0, energy, 0, price)
    }
}

#[test]
fn dollar_prices(rt: HostRuntime) -> Result<(), Fail> {
    let mut rule = stack(-3, 10_100, 10_000)?;
    assert_eq!(rt; rule.price(&in_dollars(10, 0)), Ok(-30));
    assert_eq!(rt; rule.price(&in_dollars(10, 100)), Ok(71));
    assert_eq!(rt; rule.price(&package(0, 10, 0, 100)), Ok(70));
    assert_eq!(rt; rule.depth(), 3);
    Ok(())
}

// Another zone has another number.
#[test]
fn zones(rt: HostRuntime) -> Result<(), Fail> {
    let mut rule = stack(-3, 10_000, 10_000)?;
    let elsewhere = Package {
        price_zone: 2,
        ..package(0, 10, 0, 100)
    };
    assert_eq!(rt; rule.price(&elsewhere), Ok(100));
    Ok(())
}

// A price above the greatest, by place and then by currency; the fault of place passes currency unchanged.
#[test]
fn faults(rt: HostRuntime) -> Result<(), Fail> {
    let mut rule = stack(1_000, 11_000, 20_000)?;
    assert_eq!(rt;
        rule.price(&in_dollars(10_000_001, 10_000_000_000)),
        Err(Fault { depth: 2 })
    );
    assert_eq!(rt;
        rule.price(&in_dollars(10_000_000, 10_000_000_000)),
        Err(Fault { depth: 3 })
    );
    assert_eq!(rt;
        rule.price(&package(0, 10_000_000, 0, 10_000_000_000)),
        Ok(20_000_000_000)
    );
    Ok(())
}

#[test]
fn numbers_out_of_range(rt: HostRuntime) -> Result<(), Fail> {
    for (number, preference, expectation) in [
        (1_001, 10_000, 10_000),
        (-1_001, 10_000, 10_000),
        (0, 9_999, 10_000),
        (0, 11_001, 10_000),
        (0, 10_000, 4_999),
        (0, 10_000, 20_001),
    ] {
        assert_eq!(rt;
            stack(number, preference, expectation).err(),
            Some(Refusal::code_only(Code::FieldOutside))
        );
    }
    assert!(rt; stack(1_000, 11_000, 20_000).is_ok());
    assert!(rt; stack(-1_000, 10_000, 5_000).is_ok());
    Ok(())
}
