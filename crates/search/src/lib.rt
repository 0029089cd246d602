//! The search for the best lawful choice of a docket, by any bounding rule.
#![tactic(auto)]

mod positions;

/// Where a search stands. `Position::start` has choice 0 settled and leading; `Position::run` makes so many steps.
/// `choices` is how many choices a docket has.
pub use positions::{Position, choices};
