//! What was open at a closing, and what a choice of its packages is worth.
#![tactic(auto)]

mod bounded;
mod choices;
mod closing;
mod dockets;
mod lawful;
mod sales;
mod tallies;

/// The docket of a closing: what was open, each package with its price.
pub use dockets::{Docket, OpenBand, PricedPackage};

/// A docket's lists, of bounded length: read one by `as_slice`.
pub use bounded::BoundedVec;

/// The packages that a choice takes, one after another, and what they come to together.
pub use choices::Taken;
pub use tallies::{CERTIFICATES, ENERGY, Tally, supply_of};

/// What a supply sells to the open bands.
pub use sales::{Sales, sale_at, sales_row, sell};

/// Whether a choice keeps the rules, and what it is worth.
pub use lawful::{dates_stand, exclusions_kept, is_lawful, pairs_kept, worth, zones_kept};
