//! What programs print: a text, written at once when all of it is made; and how far a search or a run is, on standard error.
#![tactic(auto)]

mod meters;
mod texts;

/// Writes a text whole, or nothing where memory for it is wanting.
pub use texts::write_text;

/// Says how far a search or a run is.
pub use meters::Meter;
