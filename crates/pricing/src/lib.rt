//! What a package costs: price rules, stacked each on the one below it.
#![tactic(auto)]

mod currency;
mod filed;
mod numbers;
mod place;
mod rules;

/// What every price rule owes, and its fault where a package has no price.
pub use rules::{Fault, PriceRule, checked};

/// The lowest rule: a package costs what was filed.
pub use filed::Filed;

/// Energy costs more or less by price zone.
pub use place::Place;

/// Prices in dollars are weighed against those in pesos; rounding is up to a whole peso.
pub use currency::{Currency, round_up};

/// The numbers of the rules, checked where they are made.
pub use numbers::{Rates, ZoneNumbers};
