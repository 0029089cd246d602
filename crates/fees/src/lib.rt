//! What each buyer of an award is sold, in pesos, and the fees on it.
#![tactic(auto)]

mod charges;
mod rates;

/// The three rates of a fee.
pub use rates::FeeRates;

/// The fees of all buyers, written into a row that is lent.
pub use charges::charge_fees;
