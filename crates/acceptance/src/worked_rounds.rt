//! The worked rounds of docs/RULES.md, a test each. Each names the fields of `WorkedRounds` that say the same, proved.
use crate::fixtures::{
    Clearing, LEAST, TWO_PACKAGES, Told, UsualRequest, check_charged, check_clearing, check_run,
    check_same, excluded, filing, four_packages, limit, needs, package, six_bands, stack,
    unqualified,
};
use bounds::{AllIn, Block, BoundingRule, CEILING, Ceiling};
use clearing::{Docket, worth};
use offers::{Band, Code, Entry, Kind, Offer, Offers, Package, Refusal};
use pricing::{Filed, PriceRule};
use rounds::{Request, Stage, replay};
use sheets::catch_up;
use std::alloc::{AllocError, Global};
use std::process::Abort;
use std::test::*;

// Where a search stands after a step; k is of the block that is next.
#[derive(Clone, Copy)]
struct After {
    settled: u64,
    k: u8,
}

const UNDER_CEILING: &[After] = &[
    After { settled: 2, k: 1 },
    After { settled: 2, k: 0 },
    After { settled: 3, k: 0 },
    After { settled: 4, k: 2 },
];

const UNDER_ALL_IN: &[After] = &[After { settled: 2, k: 1 }, After { settled: 4, k: 2 }];

// The two-package round, closed as filed, and a search of so many calls of one step each.
fn searched_by_steps<B: Copy>(
    heap: Global,
    rule: B,
    steps: usize,
) -> Result<Vec<Request<Filed, B>>, AllocError> {
    let mut requests = Vec::new(heap);
    requests.push(Request::CatchUp(TWO_PACKAGES.to_vec(heap)?))?;
    requests.push(Request::Close(Filed))?;
    for _ in 0..steps {
        requests.push(Request::Search(rule, 1))?;
    }
    Ok(requests)
}

// The two-package round is searched to its end in these steps, and choice 1 leads with 30 from the first of them on.
fn check_steps<R: Abort + AllocGlobal, B: BoundingRule + Copy + Drop>(
    rt: &R,
    rule: B,
    steps: &[After],
) -> Result<(), Fail> {
    let requests = searched_by_steps(rt.alloc(), rule, steps.len())?;
    let run = replay(rt.alloc(), requests, &mut ())?;
    for (moment, step) in run.moments.iter().skip(2).zip(steps) {
        let (at, is_last) = match moment.stage {
            Stage::Open => return Err(Fail::new("not closed")),
            Stage::Closed(at) => (at, false),
            Stage::Awarded(at) => (at, true),
        };
        assert_eq!(rt; (at.settled, at.free), (step.settled, step.k));
        assert_eq!(rt; (at.leader, at.surplus), (1, 30));
        assert_eq!(rt; is_last, step.settled == 4);
    }
    Ok(())
}

// Package 1 alone, 2 alone and both are worth 30, 30 and 10; the ceiling and the all-in rule give these caps.
fn check_worths_and_caps<R: Abort + AllocGlobal>(rt: &R) -> Result<(), Fail> {
    let mut offers = Offers::vacant();
    catch_up(&mut offers, TWO_PACKAGES)?;
    let mut docket = Docket::new(rt.alloc())?;
    docket.close(&offers, &mut Filed)?;
    assert_eq!(rt; worth(&docket, 1), Some(30));
    assert_eq!(rt; worth(&docket, 2), Some(30));
    assert_eq!(rt; worth(&docket, 3), Some(10));
    let first = Block { first: 1, free: 0 };
    let second = Block { first: 2, free: 1 };
    assert_eq!(rt; Ceiling.consult(&docket, second), Some(CEILING));
    assert_eq!(rt; AllIn.consult(&docket, first), Some(30));
    assert_eq!(rt; AllIn.consult(&docket, second), Some(30));
    Ok(())
}

// Fields `two_packages`, `two_packages_under_ceiling` and `two_packages_under_all_in`.
#[test]
fn round_1_two_packages(rt: HostRuntime) -> Result<(), Fail> {
    let heap = rt.alloc();
    let sheet = TWO_PACKAGES.to_vec(heap)?;
    let requests = vec![in heap; Request::CatchUp(sheet)]?;
    let expected = Clearing {
        choices: 4,
        packages: &[1],
        choice: 1,
        surplus: 30,
        sales: &[10],
    };
    check_clearing(&rt, requests, &expected)?;
    check_worths_and_caps(&rt)?;
    check_steps(&rt, Ceiling, UNDER_CEILING)?;
    check_steps(&rt, AllIn, UNDER_ALL_IN)
}

// Field `no_offers`.
#[test]
fn round_2_no_offers(rt: HostRuntime) -> Result<(), Fail> {
    let expected = Clearing {
        choices: 1,
        packages: &[],
        choice: 0,
        surplus: 0,
        sales: &[],
    };
    check_clearing(&rt, Vec::new(rt.alloc()), &expected)
}

// The four-package round with other offers.
fn four_filed(heap: Global, others: &[Offer]) -> Result<Vec<UsualRequest>, AllocError> {
    filing(heap, &four_packages(), &six_bands(), others)
}

/// All packages but the second, of the four-package round.
pub const ALL_BUT_2: Clearing = Clearing {
    choices: 16,
    packages: &[1, 3, 4],
    choice: 13,
    surplus: 123_500_000,
    sales: &[50, 30, 150_000, 90_000, 150_000, 90_000],
};

/// All of them.
pub const ALL_FOUR: Clearing = Clearing {
    choices: 16,
    packages: &[1, 2, 3, 4],
    choice: 15,
    surplus: 118_500_000,
    sales: &[50, 40, 150_000, 90_000, 150_000, 90_000],
};

// Nothing is different. Field `four_packages`.
#[test]
fn round_3_four_packages(rt: HostRuntime) -> Result<(), Fail> {
    check_clearing(&rt, four_filed(rt.alloc(), &[])?, &ALL_BUT_2)
}

// Field `package_3_withdrawn`.
#[test]
fn round_4_package_3_withdrawn(rt: HostRuntime) -> Result<(), Fail> {
    let mut requests = four_filed(rt.alloc(), &[])?;
    requests.push(Request::Withdraw(Kind::Package, 3))?;
    let expected = Clearing {
        choices: 8,
        packages: &[1, 2, 4],
        choice: 7,
        surplus: 87_500_000,
        sales: &[50, 30, 150_000, 0, 150_000, 0],
    };
    check_clearing(&rt, requests, &expected)
}

// Field `packages_1_and_3_exclusive`.
#[test]
fn round_5_packages_1_and_3_exclusive(rt: HostRuntime) -> Result<(), Fail> {
    let requests = four_filed(rt.alloc(), &[excluded(1), excluded(3)])?;
    let expected = Clearing {
        choices: 16,
        packages: &[2, 3, 4],
        choice: 14,
        surplus: 103_000_000,
        sales: &[50, 20, 120_000, 0, 120_000, 0],
    };
    check_clearing(&rt, requests, &expected)
}

// Field `package_3_needs_2`.
#[test]
fn round_6_package_3_needs_2(rt: HostRuntime) -> Result<(), Fail> {
    let requests = four_filed(rt.alloc(), &[needs(3, 2)])?;
    check_clearing(&rt, requests, &ALL_FOUR)
}

// The four-package round with each nameplate equal to the power, all unqualified, and so many MW of room in zone 1.
fn four_unqualified(heap: Global, room: u32) -> Result<Vec<UsualRequest>, AllocError> {
    let packages = four_packages().map(unqualified);
    filing(heap, &packages, &six_bands(), &[limit(1, 1, room)])
}

// Field `nameplates_within_50`.
#[test]
fn round_7_nameplates_within_50(rt: HostRuntime) -> Result<(), Fail> {
    let requests = four_unqualified(rt.alloc(), 50)?;
    let expected = Clearing {
        choices: 16,
        packages: &[1, 3],
        choice: 5,
        surplus: 111_500_000,
        sales: &[50, 0, 150_000, 60_000, 150_000, 60_000],
    };
    check_clearing(&rt, requests, &expected)
}

// Field `nameplates_within_49`.
#[test]
fn round_8_nameplates_within_49(rt: HostRuntime) -> Result<(), Fail> {
    let requests = four_unqualified(rt.alloc(), 49)?;
    let expected = Clearing {
        choices: 16,
        packages: &[2, 3],
        choice: 6,
        surplus: 80_500_000,
        sales: &[40, 0, 90_000, 0, 90_000, 0],
    };
    check_clearing(&rt, requests, &expected)
}

// Package 3 is dated before: its 20 MW are 25 per cent of the 80 MW of packages 1, 3 and 4, and below 24 of the 90 MW of all.
// Fields `power_before_25_per_cent` and `power_before_24_per_cent`.
#[test]
fn round_9_power_before_a_percentage(rt: HostRuntime) -> Result<(), Fail> {
    let mut packages = four_packages();
    packages[2].date = 1;
    for (percentage, expected) in [(25, ALL_BUT_2), (24, ALL_FOUR)] {
        let limits = [limit(3, 1, percentage)];
        let requests = filing(rt.alloc(), &packages, &six_bands(), &limits)?;
        check_clearing(&rt, requests, &expected)?;
    }
    Ok(())
}

// A package's price as filed, by the place rule, and by the currency rule on it.
#[derive(Clone, Copy)]
struct Prices {
    filed: u64,
    place: i64,
    currency: i64,
}

// Fields `own_price_below_zero` and `own_price_above_zero`.
#[test]
fn round_10_own_prices_rounded_up(rt: HostRuntime) -> Result<(), Fail> {
    let below_zero = Prices {
        filed: 0,
        place: -30,
        currency: -30,
    };
    let above_zero = Prices {
        filed: 100,
        place: 70,
        currency: 71,
    };
    let mut own = stack(-3, 10_100, 10_000)?;
    for expected in [below_zero, above_zero] {
        let terms = Package {
            dollar: 1,
            ..package(0, 10, 0, expected.filed)
        };
        assert_eq!(rt; own.below.price(&terms), Ok(expected.place));
        assert_eq!(rt; own.price(&terms), Ok(expected.currency));
    }
    Ok(())
}

// A package of the two-package round.
const TEN_FOR_20: Package = Package {
    energy: 10,
    price: 20,
    ..LEAST
};

// Package 2 of the two-package round is filed and withdrawn, and then the sheet of that round comes, with package 2 for
// this price. It is answered so, and then these entries stand.
fn check_sheet<R: Abort + AllocGlobal>(
    rt: &R,
    price: u8,
    told: Told,
    expected: &Offers,
) -> Result<(), Fail> {
    let heap = rt.alloc();
    let mut sheet = *TWO_PACKAGES;
    sheet[64] = price;
    let sheet = sheet.to_vec(heap)?;
    let requests: Vec<UsualRequest> = vec![in heap;
        Request::File(2, Offer::Package(TEN_FOR_20)),
        Request::Withdraw(Kind::Package, 2),
        Request::CatchUp(sheet),
    ]?;
    let run = check_run(rt, requests, &[told])?;
    check_same(rt, &run.round.offers(), expected);
    Ok(())
}

// Package 1 and band 1 are then open, and package 2 stays withdrawn. Field `older_sheet`.
#[test]
fn round_11_a_withdrawal_outlives_an_older_sheet(rt: HostRuntime) -> Result<(), Fail> {
    let mut expected = Offers::vacant();
    expected.packages.entries[0] = Entry::Open(TEN_FOR_20);
    expected.packages.entries[1] = Entry::Withdrawn(TEN_FOR_20);
    expected.bands.entries[0] = Entry::Open(Band {
        market: 4,
        quantity: 10,
        price: 5,
        buyer: 1,
    });
    check_sheet(&rt, 20, Told::Done, &expected)
}

// On the sheet package 2 has price 21: it is refused with code 9, and the round is unchanged. Field `another_price_clashes`.
#[test]
fn round_12_a_clash(rt: HostRuntime) -> Result<(), Fail> {
    let mut expected = Offers::vacant();
    expected.packages.entries[1] = Entry::Withdrawn(TEN_FOR_20);
    let clash = Refusal {
        tag: 1,
        number: 2,
        byte: 36,
        ..Refusal::code_only(Code::Clash)
    };
    assert_eq!(rt; clash.code.number(), 9);
    check_sheet(&rt, 21, Told::Refused(clash), &expected)
}

// All bands are of buyer 1, whose value is 348,500,000 pesos. Field `one_buyer`.
#[test]
fn round_13_fees(rt: HostRuntime) -> Result<(), Fail> {
    let requests = filing(rt.alloc(), &four_packages(), &six_bands(), &[])?;
    let last = [Told::Found(16, 123_500_000), Told::Charged(75_350_000)];
    check_charged(&rt, requests, &last, &[75_350_000])
}
