//! What tests are written with: the offers of the worked rounds, requests to a round, and what they are answered.
use bounds::{AllIn, BoundingRule, Joined, Limits};
use fees::FeeRates;
use offers::{Band, Exclusion, Limit, Offer, Offers, Package, Pair, Refusal};
use pricing::{Currency, Filed, Place, PriceRule, Rates, ZoneNumbers};
use reports::Report;
use rounds::{Moment, Reply, Request, Round, Run, replay};
use std::alloc::{AllocError, Global};
use std::process::Abort;
use std::test::*;

/// A package of which each field has its least value.
pub const LEAST: Package = Package {
    power: 0,
    energy: 0,
    certificates: 0,
    nameplate: 0,
    price: 0,
    power_zone: 1,
    interconnection_zone: 1,
    export_zone: 1,
    price_zone: 1,
    date: 0,
    unqualified: 0,
    dollar: 0,
};

/// A package with all zones 1 and all other fields 0.
pub fn package(power: u32, energy: u32, certificates: u32, price: u64) -> Package {
    Package {
        power,
        energy,
        certificates,
        price,
        ..LEAST
    }
}

/// Without connection priority, and with a nameplate equal to its power.
pub fn unqualified(package: Package) -> Package {
    Package {
        nameplate: package.power,
        unqualified: 1,
        ..package
    }
}

/// A band of buyer 1.
pub fn band(market: u8, quantity: u32, price: u32) -> Offer {
    band_of(1, market, quantity, price)
}

pub fn band_of(buyer: u8, market: u8, quantity: u32, price: u32) -> Offer {
    Offer::Band(Band {
        market,
        quantity,
        price,
        buyer,
    })
}

pub fn needs(dependent: u8, needed: u8) -> Offer {
    Offer::Pair(Pair { dependent, needed })
}

/// A member of the first group.
pub fn excluded(member: u8) -> Offer {
    Offer::Exclusion(Exclusion { group: 1, member })
}

pub fn limit(sort: u8, zone: u8, amount: u32) -> Offer {
    Offer::Limit(Limit { sort, zone, amount })
}

/// The packages of the four-package round.
pub fn four_packages() -> [Package; 4] {
    [
        package(30, 120_000, 120_000, 120_000_000),
        package(20, 0, 0, 15_000_000),
        package(20, 90_000, 90_000, 60_000_000),
        package(30, 30_000, 30_000, 45_000_000),
    ]
}

/// Its bands: two for power in zone 1, two for energy and two for certificates.
pub fn six_bands() -> [Offer; 6] {
    [
        band(1, 50, 1_300_000),
        band(1, 40, 1_000_000),
        band(4, 150_000, 800),
        band(4, 120_000, 600),
        band(5, 150_000, 350),
        band(5, 120_000, 300),
    ]
}

/// The sheet of the two-package round.
pub const TWO_PACKAGES: &[u8; 87] =
    b"\x01\x00\x21\x01\x01\x00\x00\x00\x00\x00\x00\x00\x0a\x00\x00\x00\x00\x00\x00\x00\x00\
    \x00\x00\x00\x00\x00\x00\x00\x14\x01\x01\x01\x01\x00\x00\x00\
    \x01\x00\x21\x02\x01\x00\x00\x00\x00\x00\x00\x00\x0a\x00\x00\x00\x00\x00\x00\x00\x00\
    \x00\x00\x00\x00\x00\x00\x00\x14\x01\x01\x01\x01\x00\x00\x00\
    \x02\x00\x0c\x01\x01\x04\x00\x00\x00\x0a\x00\x00\x00\x05\x01";

/// Currency on place on filed, with one number for price zone 1 and 0 for the others.
pub fn stack(
    number: i64,
    preference: u32,
    expectation: u32,
) -> Result<Currency<Place<Filed>>, Refusal> {
    let mut numbers = [0i64; 16];
    numbers[0] = number;
    Ok(Currency {
        rates: Rates::new(preference, expectation)?,
        below: Place {
            numbers: ZoneNumbers::new(numbers)?,
            below: Filed,
        },
    })
}

/// What most rounds are asked: they are closed as filed, and searched under limits and all-in joined.
pub type UsualRequest = Request<Filed, Joined<Limits, AllIn>>;

pub const LIMITS_AND_ALL_IN: Joined<Limits, AllIn> = Joined(Limits, AllIn);

/// The rates at which most fees are asked for.
pub const FEE_RATES: FeeRates = FeeRates {
    first: 100,
    second: 50,
    third: 10,
};

/// Files packages, bands and other offers, each from number 1 on.
pub fn filing<P: Drop, B: Drop>(
    heap: Global,
    packages: &[Package],
    bands: &[Offer],
    others: &[Offer],
) -> Result<Vec<Request<P, B>>, AllocError> {
    let mut requests = Vec::new(heap);
    for (number, package) in (1..=40).zip(packages) {
        requests.push(Request::File(number, Offer::Package(*package)))?;
    }
    for (number, offer) in (1..=64).zip(bands).chain((1..=64).zip(others)) {
        requests.push(Request::File(number, *offer))?;
    }
    Ok(requests)
}

/// A row to lend, of so many places that each hold a 7.
pub fn row(heap: Global, places: usize) -> Result<Vec<u64>, AllocError> {
    Ok(vec![in heap; 7u64; places]?)
}

/// What a request is answered, without its row or buffer.
#[derive(Clone, Copy, PartialEq, Eq, Debug)]
pub enum Told {
    Done,
    /// choices settled, and the leader's surplus
    Found(u64, i64),
    Reopened,
    /// the choice, and its surplus
    Awarded(u64, i64),
    /// the fees of all buyers together
    Charged(u64),
    /// the sheet's length
    Written(usize),
    Refused(Refusal),
    NotTaken,
}

impl Told {
    fn from_reply(reply: &Reply) -> Told {
        match reply {
            Reply::Done(Ok(())) => Told::Done,
            Reply::Found(Ok((settled, surplus))) => Told::Found(*settled, *surplus),
            Reply::Reopened => Told::Reopened,
            Reply::Awarded(Ok(award), _) => Told::Awarded(award.choice, award.surplus),
            Reply::Charged(Ok(total), _) => Told::Charged(*total),
            Reply::Written(Ok(length), _) => Told::Written(*length),
            Reply::Done(Err(refusal))
            | Reply::Found(Err(refusal))
            | Reply::Awarded(Err(refusal), _)
            | Reply::Charged(Err(refusal), _)
            | Reply::Written(Err(refusal), _) => Told::Refused(*refusal),
            Reply::NotTaken => Told::NotTaken,
        }
    }
}

/// The run of these requests, of which the last are answered so and each before them is done.
pub fn check_run<R: Abort + AllocGlobal, P: PriceRule + Drop, B: BoundingRule + Drop>(
    rt: &R,
    requests: Vec<Request<P, B>>,
    last: &[Told],
) -> Result<Run, Fail> {
    let run = replay(rt.alloc(), requests, &mut ())?;
    assert!(rt; last.len() <= run.moments.len());
    let before = run.moments.len() - last.len();
    for (at, moment) in run.moments.iter().enumerate() {
        let expected = match at.checked_sub(before) {
            Some(place) => last.get(place).copied().unwrap_or(Told::NotTaken),
            None => Told::Done,
        };
        assert_eq!(rt; Told::from_reply(&moment.reply), expected, "request {at}");
    }
    Ok(run)
}

/// The same of a run of which nothing else is looked at.
pub fn check_answers<R: Abort + AllocGlobal, P: PriceRule + Drop, B: BoundingRule + Drop>(
    rt: &R,
    requests: Vec<Request<P, B>>,
    last: &[Told],
) -> Result<(), Fail> {
    check_run(rt, requests, last)?;
    Ok(())
}

/// The same of one that reads its award last: the row then has these sales from band 1 on, 0 up to place 64, and then what
/// it was lent with.
pub fn check_sold<R: Abort + AllocGlobal, P: PriceRule + Drop, B: BoundingRule + Drop>(
    rt: &R,
    requests: Vec<Request<P, B>>,
    last: &[Told],
    sales: &[u64],
) -> Result<(), Fail> {
    let run = check_run(rt, requests, last)?;
    check_row(rt, &run, 64, sales)
}

// The row that the last request lent, 7 in each place, has these numbers, then 0 up to so many places, and then is as it was.
fn check_row(rt: &impl Abort, run: &Run, places: usize, numbers: &[u64]) -> Result<(), Fail> {
    let Some(
        Moment {
            reply: Reply::Awarded(_, row) | Reply::Charged(_, row),
            ..
        },
    ) = run.moments.last()
    else {
        return Err(Fail::new("no row was lent"));
    };
    for (place, number) in row.iter().enumerate() {
        let rest = if place < places { 0 } else { 7 };
        let expected = numbers.get(place).copied().unwrap_or(rest);
        assert_eq!(rt; *number, expected, "place {place}");
    }
    Ok(())
}

/// The report of a round that is awarded.
pub fn report_of(heap: Global, round: &Round) -> Result<Report, Fail> {
    match round {
        Round::Awarded(awarded) => Ok(Report::new(heap, awarded)?),
        _ => Err(Fail::new("not awarded")),
    }
}

/// What a round that is searched to its end comes to.
#[derive(Clone, Copy)]
pub struct Clearing {
    /// the choices of its docket
    pub choices: u64,
    /// the offer numbers of the packages taken
    pub packages: &'static [u8],
    /// the choice that takes them
    pub choice: u64,
    /// pesos
    pub surplus: i64,
    /// what the bands are sold, from band 1 on
    pub sales: &'static [u64],
}

/// A round that is asked this, closed as filed and searched to its end under limits and all-in joined comes to that.
pub fn check_clearing<R: Abort + AllocGlobal>(
    rt: &R,
    mut requests: Vec<UsualRequest>,
    expected: &Clearing,
) -> Result<(), Fail> {
    let heap = rt.alloc();
    requests.push(Request::Close(Filed))?;
    requests.push(Request::Search(LIMITS_AND_ALL_IN, 1_000_000))?;
    requests.push(Request::ReadAward(row(heap, 64)?))?;
    let last = [
        Told::Found(expected.choices, expected.surplus),
        Told::Awarded(expected.choice, expected.surplus),
    ];
    let run = check_run(rt, requests, &last)?;
    check_row(rt, &run, 64, expected.sales)?;
    let report = report_of(heap, &run.round)?;
    assert_eq!(rt; report.packages.as_slice(), expected.packages);
    Ok(())
}

/// A round that is asked this is closed as filed, searched to its end, and asked for its fees into a row of 20 places; it is answered so
/// in the end, and its buyers pay this, from buyer 1 on.
pub fn check_charged<R: Abort + AllocGlobal>(
    rt: &R,
    mut requests: Vec<UsualRequest>,
    last: &[Told; 2],
    fees: &[u64],
) -> Result<(), Fail> {
    let row = row(rt.alloc(), 20)?;
    requests.push(Request::Close(Filed))?;
    requests.push(Request::Search(LIMITS_AND_ALL_IN, 1_000_000))?;
    requests.push(Request::ReadFees(FEE_RATES, row))?;
    let run = check_run(rt, requests, last)?;
    check_row(rt, &run, 16, fees)
}

/// The same entries stand under every number of every kind.
pub fn check_same(rt: &impl Abort, offers: &Offers, expected: &Offers) {
    assert!(rt; offers.packages.entries == expected.packages.entries);
    assert!(rt; offers.bands.entries == expected.bands.entries);
    assert!(rt; offers.pairs.entries == expected.pairs.entries);
    assert!(rt; offers.exclusions.entries == expected.exclusions.entries);
    assert!(rt; offers.limits.entries == expected.limits.entries);
}
