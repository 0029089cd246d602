//! The record of a round, one call a line: read into calls, run, and answered a line for each.
#![tactic(auto)]

mod answers;
mod bytes;
mod chains;
mod journals;
mod laws;
mod lines;
mod names;
mod numbers;
mod parts;
mod records;
mod requests;
mod running;
mod stacks;
mod words;
mod wrongs;

/// Reads a journal, makes its calls, and writes their answers.
pub use running::run_journal;

/// The calls of all lines of a journal, or the first line that is no call, and why.
pub use journals::{JournalError, Mistake, read_journal};

/// What one line says: a call, whose text is a line that reads back to it; and why a line is none.
pub use lines::{Line, Shown, read_line};
pub use wrongs::{ReadError, Wrong};

/// The price rules that a line names.
pub use stacks::{Stack, Weighing, Zones};

/// The requests that lines ask for.
pub use requests::{Plan, Pricing, planned};

/// What a call was answered; its text is what is printed.
pub use answers::AnswerLine;

/// What writing and reading owe each other.
pub use laws::{journals_read_back, lines_read_back, sheets_shown};
