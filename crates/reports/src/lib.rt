//! What is told of a round in words, and a sheet's whole way from its bytes to that text.
#![tactic(auto)]

mod answering;
mod report;
mod searching;

/// Reads a sheet, clears its round, and writes the text of its award or its refusal.
pub use answering::answer_sheet;

/// By which rules a sheet's round is searched: those that are stated, or more for a quick search.
pub use searching::Rules;

/// The report of an awarded round, and a sheet that is refused; their texts are what is printed.
pub use report::{RefusedSheet, Report, Sold};
