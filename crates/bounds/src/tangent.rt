//! A cap by multipliers, with what a unit of each market is taken to be worth: sound whatever that is, and small where it is near what
//! the bands pay.
ghost use Rattle.std.specs.Prelude.{◌≡◌, ◌≤◌, pos, ◌≤ℤ◌};
ghost use Rattle.clearing.specs.Choices.{taken};
ghost use Rattle.clearing.specs.Tallies.{tally_of};
ghost use Rattle.bounds.specs.Rules.{sold_above, gains_above, tangent_by, tangent};
ghost use Rattle.bounds.specs.Blocks.{fixed};
ghost use Rattle.clearing.proofs.ClosedRanges.{ranged-closing};
ghost use Rattle.bounds.specs.Laws.Tangent.{tangent-sound};

use crate::blocks::{Block, BoundingRule};
use crate::live::live_choice;
use crate::multipliers::{gain, multipliers, together};
use clearing::{Docket, Tally, sale_at, sell, supply_of};

/// A cap by multipliers: what a unit of each market is taken to be worth.
#[derive(Clone, Copy)]
pub struct Tangent;

impl BoundingRule for Tangent {
    ghost answers = { λ _. tangent };

    ghost sound = { λ s v b closed block. tangent-sound v (ranged-closing v closed) b block };

    fn consult(&mut self, docket: &Docket, block: Block) -> Option<i64> {
        let first = Tally::new(docket, block.first);
        let live = live_choice(docket, block);
        let multipliers = multipliers(docket, block, &first.supply, live);
        Some(cap(docket, block, &first, live, &multipliers))
    }
}

/// The cap of a block by any multipliers, where `live` is the choice of those of its free packages that count, and its first choice comes
/// to `first`.
pub(crate) fn cap(
    docket: &Docket,
    block: Block,
    first: &Tally,
    live: u64,
    multipliers: &[u32; 5],
) -> i64
    requires { first.now ≡ tally_of (fixed docket.now block) }
    ensures { result ≡ tangent_by multipliers.now (taken docket.now.packages live) docket.now block }
{
    let free = supply_of(docket, live);
    let sales = sell(docket, &first.supply);
    let surplus = sales.income as i64 - first.cost;
    let all = together(&first.supply, &free);
    let sold = sold_above(docket, multipliers, &first.supply, &all);
    surplus + sold as i64 + gains_above(docket, multipliers, live)
}

// What a supply sells beyond a smaller one, in pesos that the bands pay above what a unit of their market is worth.
fn sold_above(docket: &Docket, multipliers: &[u32; 5], less: &[u64; 5], more: &[u64; 5]) -> u64
    ensures value { result ≡ sold_above multipliers.now docket.now.bands less.now more.now }
    ensures bound { result ≤ 64000000000000000 }
{
    let mut above = 0u64;
    for (place, band) in docket.bands.as_slice().iter().enumerate() {
        let sold = sale_at(docket, more, place).saturating_sub(sale_at(docket, less, place));
        let worth = multipliers[band.terms.market as usize - 1];
        above += sold * band.terms.price.saturating_sub(worth) as u64;
    }
    above
}

// What the supplies of each package that a choice takes are worth above its price, where that is above 0, together.
fn gains_above(docket: &Docket, multipliers: &[u32; 5], choice: u64) -> i64
    ensures value { result ≡ gains_above multipliers.now (taken docket.now.packages choice) }
    ensures low { pos 0 ≤ℤ result }
    ensures high { result ≤ℤ pos 4000000000000000000 }
{
    // a loop: the library's lemmas on what a `sum` stays within are of unsigned numbers
    let mut above = 0i64;
    for package in docket.taken(choice) {
        above += gain(multipliers, package).max(0);
    }
    above
}
