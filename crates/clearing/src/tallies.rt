//! What the taken packages of a choice come to, in one pass over the docket.
ghost use Rattle.std.specs.Prelude.{◌≡◌, true, ◌-◌};
ghost use Rattle.clearing.specs.Choices.{taken, supplied, supply};
ghost use Rattle.clearing.specs.Ranged.{Ranged};
ghost use Rattle.clearing.specs.Ranges.{package_fits, at_most, MOST_SUPPLY};
ghost use Rattle.clearing.specs.Tallies.{tally_of, Room, added, row, plus};

use crate::dockets::{Docket, PricedPackage};
use offers::Date;

/// The market of energy; markets 1 to 3 are power in the zone of that number.
pub const ENERGY: usize = 4;

/// The market of certificates.
pub const CERTIFICATES: usize = 5;

/// The sums over the taken packages. Market m stands at place m - 1, zone z at place z - 1.
#[derive(Clone, Copy)]
pub struct Tally {
    /// by offer number, place 0 standing for none: is it taken?
    pub takes: [bool; 41],
    /// MW, MWh or certificates by market: all, and those of packages dated before and after
    pub supply: [u64; 5],
    pub before: [u64; 5],
    pub after: [u64; 5],
    /// of unqualified packages: MW by interconnection zone, and MWh by export zone
    pub nameplate: [u64; 16],
    pub export: [u64; 16],
    /// pesos
    pub cost: i64,
}

impl Tally {
    /// What a choice takes of a docket, together.
    pub fn new(docket: &Docket, choice: u64) -> Tally
        ensures tally { result ≡ tally_of (taken docket.now.packages choice) }
        ensures ranged { Ranged docket.now }
    {
        let mut sums = Tally {
            takes: [false; 41],
            supply: [0; 5],
            before: [0; 5],
            after: [0; 5],
            nameplate: [0; 16],
            export: [0; 16],
            cost: 0,
        };
        for package in docket.taken(choice) {
            sums.add(package);
        }
        sums
    }

    // Counts one more package as taken.
    fn add(&mut self, more: &PricedPackage)
        requires room { Room self.old }
        requires fits { package_fits more.now ≡ true }
        ensures { self.new ≡ added self.old more.now }
    {
        let terms = more.terms;
        self.takes[more.number as usize] = true;
        self.cost += more.price;
        add_supply(&mut self.supply, more);
        if terms.is_dated(Date::Before) {
            add_supply(&mut self.before, more);
        }
        if terms.is_dated(Date::After) {
            add_supply(&mut self.after, more);
        }
        if terms.unqualified == 1 {
            self.nameplate[terms.interconnection_zone as usize - 1] += terms.nameplate as u64;
            self.export[terms.export_zone as usize - 1] += terms.energy as u64;
        }
    }
}

/// What a choice's packages supply to each market, in one light pass for those who need no more of the sums.
pub fn supply_of(docket: &Docket, choice: u64) -> [u64; 5]
    ensures supply { result ≡ row (λ m. supply m (taken docket.now.packages choice)) 1 5 }
    ensures ranged { Ranged docket.now }
{
    let mut sums = [0u64; 5];
    for package in docket.taken(choice) {
        add_supply(&mut sums, package);
    }
    sums
}

// Adds what a package supplies to each market.
fn add_supply(supply: &mut [u64; 5], more: &PricedPackage)
    requires room { at_most (MOST_SUPPLY - 10000000) supply.old ≡ true }
    requires fits { package_fits more.now ≡ true }
    ensures { supply.new ≡ plus supply.old (row (λ m. supplied m more.now.terms) 1 5) }
{
    let terms = more.terms;
    supply[terms.power_zone as usize - 1] += terms.power as u64;
    supply[ENERGY - 1] += terms.energy as u64;
    supply[CERTIFICATES - 1] += terms.certificates as u64;
}
