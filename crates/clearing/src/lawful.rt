//! Whether a choice keeps the rules.
ghost use Rattle.std.specs.Prelude.{◌≡◌, ℕ, ◌-◌, ◌*◌, ◌≤◌, true, List, nat_le, slice_index, IsTrue, ◌↔◌};
ghost use Rattle.offers.specs.Tables.{limit_layout};
ghost use Rattle.clearing.specs.Filling.{BestFilled};
ghost use Rattle.clearing.specs.Judging.{dates_stand, worth_of};
ghost use Rattle.clearing.specs.Kept.{PairsKept, ExclusionsKept, ZonesKept, DatesKept, zone_load};
ghost use Rattle.clearing.specs.Lawful.{Lawful, Worth, percentage};
ghost use Rattle.clearing.specs.Tallies.{row};
ghost use Rattle.clearing.specs.Ranges.{fits, at_most, MOST_SUPPLY, MOST_ASKED};

use crate::dockets::Docket;
use crate::sales::{Sales, sell};
use crate::tallies::{CERTIFICATES, ENERGY, Tally};
use offers::{Limit, Sort};

/// Whether each taken package that needs another has it among the possible ones.
pub fn pairs_kept(docket: &Docket, tally: &Tally, possible: &Tally) -> bool
    ensures { IsTrue result ↔ (PairsKept docket.now.pairs tally.now.takes possible.now.takes) }
{
    docket.pairs.as_slice().iter().all(|pair| {
        !tally.takes[pair.dependent as usize] || possible.takes[pair.needed as usize]
    })
}

/// Whether no two different taken packages are in one group.
pub fn exclusions_kept(docket: &Docket, tally: &Tally) -> bool
    ensures { IsTrue result ↔ (ExclusionsKept docket.now.exclusions tally.now.takes) }
{
    let mut first = [None; 16];
    for exclusion in docket.exclusions.as_slice().iter() {
        let group = exclusion.group as usize - 1;
        let member = exclusion.member;
        if tally.takes[member as usize] {
            match first[group] {
                Some(other) if other != member => return false,
                _ => first[group] = Some(member),
            }
        }
    }
    true
}

/// Whether the taken packages without connection priority keep the limits of their zones.
pub fn zones_kept(docket: &Docket, tally: &Tally) -> bool
    ensures { IsTrue result ↔ (ZonesKept docket.now.limits tally.now.nameplate tally.now.export) }
{
    docket
        .limits
        .as_slice()
        .iter()
        .all(|limit| zone_load(limit, tally) <= limit.amount as u64)
}

// What counts against a limit of a zone; nothing counts against a percentage here.
fn zone_load(limit: &Limit, tally: &Tally) -> u64
    requires { fits limit_layout limit.now ≡ true }
    ensures { result ≡ zone_load limit.now tally.now }
{
    if limit.is_on(Sort::Interconnection) {
        tally.nameplate[limit.zone as usize - 1]
    } else if limit.is_on(Sort::Export) {
        tally.export[limit.zone as usize - 1]
    } else {
        0
    }
}

// The percentages that bind, by the zone that a limit has for each: power before and after, certificates before and after; the least
// of each, or 100.
fn percentages(docket: &Docket) -> [u64; 4]
    ensures value { result ≡ row (percentage docket.now.limits) 1 4 }
    ensures bound { at_most 100 result ≡ true }
{
    let mut least = [100u64; 4];
    for limit in docket.limits.as_slice().iter() {
        if limit.is_on(Sort::Percentage) {
            let zone = limit.zone as usize - 1;
            least[zone] = least[zone].min(limit.amount as u64);
        }
    }
    least
}

// Whether what dated packages supply to a market is at most a percentage of what is sold there.
fn share_kept(percent: u64, dated: &[u64; 5], sold: &[u64; 5], market: usize) -> bool
    requires percent { percent ≤ 100 }
    requires dated { at_most MOST_SUPPLY dated.now ≡ true }
    requires sold { at_most MOST_ASKED sold.now ≡ true }
    requires first { 1 ≤ market }
    requires last { market ≤ 5 }
    ensures { result ≡ nat_le (100 * slice_index dated.now (market - 1)) (percent * slice_index sold.now (market - 1)) }
{
    100 * dated[market - 1] <= percent * sold[market - 1]
}

// Whether dated packages keep their percentages, in each market of power and in that of certificates.
fn dates_kept(docket: &Docket, tally: &Tally, sales: &Sales) -> bool
    requires before { at_most MOST_SUPPLY tally.now.before ≡ true }
    requires after { at_most MOST_SUPPLY tally.now.after ≡ true }
    requires sold { at_most MOST_ASKED sales.now.sold ≡ true }
    ensures { IsTrue result ↔ (DatesKept docket.now.limits tally.now sales.now.sold) }
{
    let least = percentages(docket);
    (1..ENERGY).all(|market| {
        share_kept(least[0], &tally.before, &sales.sold, market)
            && share_kept(least[1], &tally.after, &sales.sold, market)
    }) && share_kept(least[2], &tally.before, &sales.sold, CERTIFICATES)
        && share_kept(least[3], &tally.after, &sales.sold, CERTIFICATES)
}

/// Whether what is dated of the packages that one choice takes keeps the percentages of what another choice's filled sales sell.
pub fn dates_stand(docket: &Docket, first: u64, last: u64) -> bool
    ensures { result ≡ dates_stand docket.now first last }
{
    let dated = Tally::new(docket, first);
    let selling = Tally::new(docket, last);
    let sales = sell(docket, &selling.supply);
    dates_kept(docket, &dated, &sales)
}

/// The surplus in pesos of a choice with filled sales, if it is lawful.
pub fn worth(docket: &Docket, choice: u64) -> Option<i64>
    ensures value { result ≡ worth_of docket.now choice }
    ensures worth { Worth docket.now choice result }
    // why filled sales are the sales to take, a law of every choice that this call only carries
    ensures best_filled { BestFilled docket.now choice }
{
    let tally = Tally::new(docket, choice);
    let sales = sell(docket, &tally.supply);
    if pairs_kept(docket, &tally, &tally)
        && exclusions_kept(docket, &tally)
        && zones_kept(docket, &tally)
        && dates_kept(docket, &tally, &sales)
    {
        Some(sales.income as i64 - tally.cost)
    } else {
        None
    }
}

/// Whether some sales make a choice lawful.
pub fn is_lawful(docket: &Docket, choice: u64) -> bool
    ensures { IsTrue result ↔ ((sales : List ℕ) × Lawful docket.now choice sales) }
{
    worth(docket, choice).is_some()
}
