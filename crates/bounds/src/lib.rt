//! Bounding rules: what a block of choices can be worth at most, without trying each.
#![tactic(auto)]

mod all_in;
mod blocks;
mod ceiling;
mod chains;
mod joined;
mod limits;
mod live;
mod multipliers;
mod names;
mod one_by_one;
mod shares;
mod tangent;

/// A block of choices, and what every bounding rule owes: a cap that is true of each lawful choice in it.
pub use blocks::{Block, BoundingRule, CEILING};

/// Rules that give a cap.
pub use all_in::AllIn;
pub use ceiling::Ceiling;
pub use one_by_one::OneByOne;
pub use tangent::Tangent;

/// Rules that tell where no choice is lawful.
pub use limits::Limits;
pub use shares::Shares;

/// Rules joined: two, or any number; and a rule that a name picks.
pub use chains::Chain;
pub use joined::Joined;
pub use names::Named;
