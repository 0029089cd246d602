//! Which free packages of a block count: those that could be taken with the fixed ones. No lawful choice of the block takes another.
ghost use Rattle.std.specs.Prelude.{◌≡◌, true};
ghost use Rattle.offers.specs.Marks.{sort_byte};
ghost use Rattle.offers.specs.Tables.{package_layout};
ghost use Rattle.clearing.specs.Ranges.{fits, at_most, MOST_SUPPLY};
ghost use Rattle.clearing.specs.Tallies.{row};
ghost use Rattle.bounds.specs.Rules.{TakesLive};
ghost use Rattle.bounds.specs.Live.{cleared, head, needs, unopposed, tightest, room};

use crate::blocks::Block;
use crate::limits::stands;
use clearing::{Docket, Tally};
use offers::{Package, Sort};

// More than the packages of any docket have in a zone.
const UNLIMITED: u64 = 1_000_000_000_000;

/// The choice that takes just them.
pub(crate) fn live_choice(docket: &Docket, block: Block) -> u64
    ensures { TakesLive docket.now block result }
{
    let fixed = Tally::new(docket, block.first);
    let possible = Tally::new(docket, block.last());
    if !stands(docket, &fixed, &possible) {
        return 0;
    }
    let met = met(docket, &possible);
    let apart = apart(docket, &heads(docket, &fixed));
    let interconnection = tightest(docket, Sort::Interconnection);
    let export = tightest(docket, Sort::Export);
    let mut live = 0u64;
    for (place, package) in docket.packages.as_slice().iter().enumerate() {
        let number = package.number as usize;
        if place < block.free as usize
            && met[number]
            && apart[number]
            && has_room(&interconnection, &export, &fixed, &package.terms)
        {
            live += 1u64 << place;
        }
    }
    live
}

// By offer number: is each package possible that one of this number needs?
fn met(docket: &Docket, possible: &Tally) -> [bool; 41]
    ensures { result ≡ row (cleared (λ p. p.dependent) (needs possible.now.takes) docket.now.pairs) 0 41 }
{
    let mut met = [true; 41];
    for pair in docket.pairs.as_slice().iter() {
        if !possible.takes[pair.needed as usize] {
            met[pair.dependent as usize] = false;
        }
    }
    met
}

// Of each group the greatest member that is taken, 0 where none is; where the taken ones keep the rule of groups it is the only one.
fn heads(docket: &Docket, tally: &Tally) -> [u8; 16]
    ensures { result ≡ row (head tally.now.takes docket.now.exclusions) 1 16 }
{
    let mut heads = [0u8; 16];
    for exclusion in docket.exclusions.as_slice().iter() {
        let group = exclusion.group as usize - 1;
        if tally.takes[exclusion.member as usize] {
            heads[group] = heads[group].max(exclusion.member);
        }
    }
    heads
}

// By offer number: does no other member stand for a group of a package of this number?
fn apart(docket: &Docket, heads: &[u8; 16]) -> [bool; 41]
    ensures { result ≡ row (cleared (λ e. e.member) (unopposed heads.now) docket.now.exclusions) 0 41 }
{
    let mut apart = [true; 41];
    for exclusion in docket.exclusions.as_slice().iter() {
        let head = heads[exclusion.group as usize - 1];
        if head != 0 && head != exclusion.member {
            apart[exclusion.member as usize] = false;
        }
    }
    apart
}

// Of each zone the least amount of its limits of a sort.
fn tightest(docket: &Docket, sort: Sort) -> [u64; 16]
    ensures { result ≡ row (tightest (sort_byte sort) docket.now.limits) 1 16 }
{
    let mut least = [UNLIMITED; 16];
    for limit in docket.limits.as_slice().iter() {
        if limit.is_on(sort) {
            let zone = limit.zone as usize - 1;
            least[zone] = least[zone].min(limit.amount as u64);
        }
    }
    least
}

// Whether the zones of a package have room for it beside the taken ones.
fn has_room(interconnection: &[u64; 16], export: &[u64; 16], tally: &Tally, terms: &Package) -> bool
    requires fits { fits package_layout terms.now ≡ true }
    requires nameplate { at_most MOST_SUPPLY tally.now.nameplate ≡ true }
    requires export { at_most MOST_SUPPLY tally.now.export ≡ true }
    ensures { result ≡ room interconnection.now export.now tally.now terms.now }
{
    let from = terms.interconnection_zone as usize - 1;
    let to = terms.export_zone as usize - 1;
    terms.unqualified != 1
        || tally.nameplate[from] + terms.nameplate as u64 <= interconnection[from]
            && tally.export[to] + terms.energy as u64 <= export[to]
}
