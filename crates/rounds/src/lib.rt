//! A round of the auction: its states as types, the calls that each takes, and whole runs of them.
#![tactic(auto)]

mod awarded_round;
mod closed_round;
mod finishing;
mod open_round;
mod replays;
mod requests;
mod rules;

/// An open round, with no docket: `file`, `withdraw`, `catch_up`, `write_sheet`, and `close`, which makes a closed round.
pub use open_round::OpenRound;

/// A closed round, with a docket and where its search stands: `search`, which leaves it closed or awarded, `write_sheet`, `reopen`.
pub use closed_round::{ClosedRound, Searched};

/// An awarded round, whose search has finished: `award`, `fees`, `docket`, `write_sheet`, `reopen`.
pub use awarded_round::{Award, AwardedRound};

/// A round in whatever state: `serve` answers one request to it.
pub use requests::{Reply, Request, Round, serve};

/// `replay` makes a whole run of requests from an open and vacant round, and keeps every moment of it.
pub use replays::{Moment, Run, Stage, Watch, replay};

/// Different rules in one run: one of two, and so one of as many as are wanted.
pub use rules::OneOf;

/// `finish` searches a closed round to its end, and tells how far it is.
pub use finishing::{Progress, finish};
