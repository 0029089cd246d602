//! What choices of the four-package round are worth, and each rule of lawfulness just kept and just broken.
use crate::fixtures::{excluded, four_packages, limit, needs, package, six_bands};
use clearing::{Docket, is_lawful, worth};
use offers::{Code, Offer, Offers, Package, Refusal};
use pricing::{Filed, Place, ZoneNumbers};
use std::process::Abort;
use std::test::*;

// The four-package round, all packages with this mark and a nameplate equal to their power, the third with this date.
fn offered(unqualified: u8, date: u8) -> Result<Offers, Refusal> {
    let mut offers = Offers::vacant();
    for (number, package) in (1..=4).zip(four_packages()) {
        offers.file(
            number,
            Offer::Package(Package {
                nameplate: package.power,
                unqualified,
                date: if number == 3 { date } else { 0 },
                ..package
            }),
        )?;
    }
    for (number, band) in (1..=6).zip(six_bands()) {
        offers.file(number, band)?;
    }
    Ok(offers)
}

// What choices of the offers are worth: choice numbers with their surplus in pesos, `None` where it is unlawful.
fn check_worth<R: Abort + AllocGlobal>(
    rt: &R,
    offers: &Offers,
    rows: &[(u64, Option<i64>)],
) -> Result<(), Fail> {
    let mut docket = Docket::new(rt.alloc())?;
    docket.close(offers, &mut Filed)?;
    for (choice, surplus) in rows {
        assert_eq!(rt; worth(&docket, *choice), *surplus);
        assert_eq!(rt; is_lawful(&docket, *choice), surplus.is_some());
    }
    Ok(())
}

#[test]
fn published_example(rt: HostRuntime) -> Result<(), Fail> {
    check_worth(
        &rt,
        &offered(0, 0)?,
        &[
            (0, Some(0)),
            (13, Some(123_500_000)),
            (15, Some(118_500_000)),
            (14, Some(103_000_000)),
            (11, Some(87_500_000)),
        ],
    )
}

// Package 3 needs 2, and 4 needs one that is not open.
#[test]
fn pairs(rt: HostRuntime) -> Result<(), Fail> {
    let mut offers = offered(0, 0)?;
    offers.file(1, needs(3, 2))?;
    offers.file(2, needs(4, 40))?;
    check_worth(
        &rt,
        &offers,
        &[
            (4, None),
            (6, Some(80_500_000)),
            (8, None),
            (2, Some(11_000_000)),
        ],
    )
}

// Packages 1 and 3 exclude each other; 3 is in the group twice.
#[test]
fn exclusions(rt: HostRuntime) -> Result<(), Fail> {
    let mut offers = offered(0, 0)?;
    offers.file(1, excluded(1))?;
    offers.file(2, excluded(3))?;
    offers.file(3, excluded(3))?;
    check_worth(
        &rt,
        &offers,
        &[(5, None), (4, Some(69_500_000)), (14, Some(103_000_000))],
    )
}

// 30 and 20 MW of nameplate against 50 and 49 MW; with connection priority nothing counts.
#[test]
fn interconnection(rt: HostRuntime) -> Result<(), Fail> {
    let mut offers = offered(1, 0)?;
    offers.file(1, limit(1, 1, 50))?;
    offers.file(2, limit(1, 2, 0))?;
    check_worth(&rt, &offers, &[(5, Some(111_500_000)), (13, None)])
}

#[test]
fn interconnection_broken(rt: HostRuntime) -> Result<(), Fail> {
    let mut offers = offered(1, 0)?;
    offers.file(1, limit(1, 1, 49))?;
    check_worth(&rt, &offers, &[(5, None), (6, Some(80_500_000))])
}

// 120,000 and 90,000 MWh against 210,000 MWh.
#[test]
fn export(rt: HostRuntime) -> Result<(), Fail> {
    let mut offers = offered(1, 0)?;
    offers.file(1, limit(2, 1, 210_000))?;
    check_worth(&rt, &offers, &[(5, Some(111_500_000)), (13, None)])
}

// Package 3 is dated before: 20 MW of the 80 MW that packages 1, 3 and 4 sell, and of the 90 MW of all four.
#[test]
fn power_before(rt: HostRuntime) -> Result<(), Fail> {
    let mut offers = offered(0, 1)?;
    offers.file(1, limit(3, 1, 25))?;
    offers.file(2, limit(3, 1, 60))?;
    offers.file(3, limit(3, 2, 0))?;
    check_worth(&rt, &offers, &[(13, Some(123_500_000)), (12, None)])
}

#[test]
fn power_before_broken(rt: HostRuntime) -> Result<(), Fail> {
    let mut offers = offered(0, 1)?;
    offers.file(1, limit(3, 1, 24))?;
    check_worth(&rt, &offers, &[(13, None), (15, Some(118_500_000))])
}

// Package 3 is dated after: 90,000 certificates of 240,000 are 37.5 per cent.
#[test]
fn certificates_after(rt: HostRuntime) -> Result<(), Fail> {
    let mut offers = offered(0, 2)?;
    offers.file(1, limit(3, 4, 38))?;
    offers.file(2, limit(3, 3, 0))?;
    check_worth(&rt, &offers, &[(13, Some(123_500_000)), (12, None)])
}

// Each sort of limit as packages 1, 3 and 4 just keep it and, one less, just break it; all are unqualified, the third is dated.
#[test]
fn just_kept_and_just_broken(rt: HostRuntime) -> Result<(), Fail> {
    let mut docket = Docket::new(rt.alloc())?;
    for (date, sort, zone, amount) in [
        (0, 1, 1, 80),
        (0, 2, 1, 240_000),
        (1, 3, 1, 25),
        (2, 3, 2, 25),
        (1, 3, 3, 38),
        (2, 3, 4, 38),
    ] {
        let mut kept = offered(1, date)?;
        kept.file(1, limit(sort, zone, amount))?;
        docket.close(&kept, &mut Filed)?;
        assert_eq!(rt; worth(&docket, 13), Some(123_500_000));
        let mut broken = offered(1, date)?;
        broken.file(1, limit(sort, zone, amount.saturating_sub(1)))?;
        docket.close(&broken, &mut Filed)?;
        assert_eq!(rt; worth(&docket, 13), None);
    }
    Ok(())
}

// More certificates than are sold, all dated: a missing percentage is 100.
#[test]
fn no_percentage(rt: HostRuntime) -> Result<(), Fail> {
    let mut offers = Offers::vacant();
    offers.file(
        1,
        Offer::Package(Package {
            date: 2,
            ..package(0, 0, 1, 0)
        }),
    )?;
    check_worth(&rt, &offers, &[(0, Some(0)), (1, None)])
}

// The lowest-numbered package without a price refuses the closing.
#[test]
fn price_fault(rt: HostRuntime) -> Result<(), Fail> {
    let mut offers = offered(0, 0)?;
    offers.file(7, Offer::Package(package(0, 10_000_000, 0, 10_000_000_000)))?;
    let mut docket = Docket::new(rt.alloc())?;
    let mut rule = Place {
        numbers: ZoneNumbers::new([1_000; 16])?,
        below: Place {
            numbers: ZoneNumbers::new([1_000; 16])?,
            below: Filed,
        },
    };
    assert_eq!(rt;
        docket.close(&offers, &mut rule),
        Err(Refusal {
            tag: 1,
            number: 7,
            depth: 3,
            ..Refusal::code_only(Code::PriceFault)
        })
    );
    Ok(())
}
