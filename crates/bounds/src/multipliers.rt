//! The multipliers of a block: what a unit of each market is taken to be worth, found by halving between what the bands pay when all is
//! supplied and when only the fixed packages are.
ghost use Rattle.std.specs.Prelude.{◌≡◌, ◌+◌, ◌-◌, ◌/◌, ◌≤◌, true, pos, ◌≤ℤ◌, slice_index, if◌then◌else◌, neg_ℤ};
ghost use Rattle.offers.specs.Tables.{package_layout};
ghost use Rattle.clearing.specs.Choices.{taken, supplied, supply};
ghost use Rattle.clearing.specs.Ranged.{Ranged};
ghost use Rattle.clearing.specs.Ranges.{fits, package_fits, at_most, MOST_SUPPLY};
ghost use Rattle.clearing.specs.Tallies.{row, plus};
ghost use Rattle.bounds.specs.Multipliers.{value_at, gain, gainful, asked_above, either, over_asked, price_at, middle, narrowed_in, widest_in, multipliers_in, fixed_supply};

use crate::blocks::Block;
use clearing::{CERTIFICATES, Docket, ENERGY, PricedPackage, supply_of};
use offers::Package;

// How often the stretch between low and high is halved.
const TURNS: u8 = 6;

/// Between which pesos the multipliers are looked for, market m at place m - 1.
#[derive(Clone, Copy)]
pub struct Between {
    pub low: [u32; 5],
    pub high: [u32; 5],
}

/// The multipliers of a block, whose fixed packages supply `base`, and where `live` is the choice of those of its free packages that
/// count.
pub(crate) fn multipliers(docket: &Docket, block: Block, base: &[u64; 5], live: u64) -> [u32; 5]
    requires { base.now ≡ fixed_supply docket.now block }
    ensures value { result ≡ multipliers_in docket.now block live }
    ensures range { at_most 10000000 result ≡ true }
{
    let mut between = Between::widest(docket, block, base, live);
    for _turn in 0..TURNS {
        between = between.narrowed(docket, block, base, live);
    }
    between.middle()
}

impl Between {
    // What the first band pays that is not filled by all, and by the fixed alone.
    fn widest(docket: &Docket, block: Block, base: &[u64; 5], live: u64) -> Between
        requires { base.now ≡ fixed_supply docket.now block }
        ensures value { result ≡ widest_in docket.now block live }
        ensures ranged { Ranged docket.now }
    {
        let free = supply_of(docket, live);
        let all = together(base, &free);
        Between {
            low: prices_at(docket, &all),
            high: prices_at(docket, base),
        }
    }

    // Half-way between, rounded down.
    fn middle(self) -> [u32; 5]
        ensures { result ≡ middle self }
    {
        [
            half_way(self.low[0], self.high[0]),
            half_way(self.low[1], self.high[1]),
            half_way(self.low[2], self.high[2]),
            half_way(self.low[3], self.high[3]),
            half_way(self.low[4], self.high[4]),
        ]
    }

    // The half where they are looked for next.
    fn narrowed(self, docket: &Docket, block: Block, base: &[u64; 5], live: u64) -> Between
        requires { base.now ≡ fixed_supply docket.now block }
        ensures { result ≡ narrowed_in docket.now block live self }
    {
        let middle = self.middle();
        let worthwhile = supply_of(docket, gainful_choice(docket, &middle, live));
        let supply = together(base, &worthwhile);
        let over = oversupplied(docket, &middle, &supply);
        Between {
            low: either(&over, &self.low, &middle),
            high: either(&over, &middle, &self.high),
        }
    }
}

// Half-way between two numbers, rounded down.
fn half_way(low: u32, high: u32) -> u32
    ensures { result ≡ (low + high) / 2 }
{
    ((low as u64 + high as u64) / 2) as u32
}

// Of each market the one number where a test holds, else the other.
fn either(tests: &[bool; 5], yes: &[u32; 5], no: &[u32; 5]) -> [u32; 5]
    ensures { result ≡ either tests.now yes.now no.now }
{
    [
        pick(tests[0], yes[0], no[0]),
        pick(tests[1], yes[1], no[1]),
        pick(tests[2], yes[2], no[2]),
        pick(tests[3], yes[3], no[3]),
        pick(tests[4], yes[4], no[4]),
    ]
}

fn pick(test: bool, yes: u32, no: u32) -> u32
    ensures { result ≡ (if test then yes else no) }
{
    if test { yes } else { no }
}

/// Two supplies of each market as one.
pub(crate) fn together(one: &[u64; 5], other: &[u64; 5]) -> [u64; 5]
    requires one { at_most MOST_SUPPLY one.now ≡ true }
    requires other { at_most MOST_SUPPLY other.now ≡ true }
    ensures { result ≡ plus one.now other.now }
{
    [
        one[0] + other[0],
        one[1] + other[1],
        one[2] + other[2],
        one[3] + other[3],
        one[4] + other[4],
    ]
}

// Of each market what its first band pays, by falling price, that an amount does not fill; 0 where it fills all. The bands stand by
// number, so each is looked at: of those that the amount does not fill, the first pays most.
fn prices_at(docket: &Docket, amounts: &[u64; 5]) -> [u32; 5]
    ensures { result ≡ row (λ m. price_at docket.now.bands m (slice_index amounts.now (m - 1))) 1 5 }
{
    let mut prices = [0u32; 5];
    for band in docket.bands.as_slice().iter() {
        let market = band.terms.market as usize - 1;
        let total = band.ahead + band.terms.quantity as u64;
        if amounts[market] < total {
            prices[market] = prices[market].max(band.terms.price);
        }
    }
    prices
}

// Of each market, is more supplied than its bands ask for that pay above its multiplier?
fn oversupplied(docket: &Docket, multipliers: &[u32; 5], supply: &[u64; 5]) -> [bool; 5]
    ensures { result ≡ over_asked docket.now.bands multipliers.now supply.now }
{
    let asked = asked_above(docket, multipliers);
    [
        asked[0] < supply[0],
        asked[1] < supply[1],
        asked[2] < supply[2],
        asked[3] < supply[3],
        asked[4] < supply[4],
    ]
}

// Of each market what its bands ask for that pay above its multiplier.
fn asked_above(docket: &Docket, multipliers: &[u32; 5]) -> [u64; 5]
    ensures { result ≡ row (asked_above docket.now.bands multipliers.now) 1 5 }
{
    let mut asked = [0u64; 5];
    for band in docket.bands.as_slice().iter() {
        let market = band.terms.market as usize - 1;
        if multipliers[market] < band.terms.price {
            asked[market] += band.terms.quantity as u64;
        }
    }
    asked
}

// The choice that takes, of what another takes, the packages that are worth more than their price.
fn gainful_choice(docket: &Docket, multipliers: &[u32; 5], choice: u64) -> u64
    ensures { taken docket.now.packages result ≡ gainful multipliers.now (taken docket.now.packages choice) }
{
    let mut gainful = 0u64;
    let mut digits = choice;
    for (place, package) in docket.packages.as_slice().iter().enumerate() {
        if digits % 2 == 1 && gain(multipliers, package) > 0 {
            gainful += 1u64 << place;
        }
        digits /= 2;
    }
    gainful
}

// What a package's supplies are worth, in pesos.
fn value_at(multipliers: &[u32; 5], terms: &Package) -> u64
    requires { fits package_layout terms.now ≡ true }
    ensures value { result ≡ value_at multipliers.now (λ m. supplied m terms.now) }
    ensures bound { result ≤ 90000000000000000 }
{
    let power = multipliers[terms.power_zone as usize - 1] as u64 * terms.power as u64;
    let energy = multipliers[ENERGY - 1] as u64 * terms.energy as u64;
    let certificates = multipliers[CERTIFICATES - 1] as u64 * terms.certificates as u64;
    power + energy + certificates
}

/// What a package's supplies are worth above its price, in pesos.
pub(crate) fn gain(multipliers: &[u32; 5], priced: &PricedPackage) -> i64
    requires { package_fits priced.now ≡ true }
    ensures value { result ≡ gain multipliers.now priced.now }
    ensures low { neg_ℤ (pos 100000000000) ≤ℤ result }
    ensures high { result ≤ℤ pos 100000000000000000 }
{
    value_at(multipliers, &priced.terms) as i64 - priced.price
}
