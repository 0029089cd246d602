//! Sheets: how one round's offers reach another, written and read field by field.
#![tactic(auto)]

mod fields;
mod reading;
mod writing;

/// Brings offers up to date from a whole sheet, or refuses it whole.
pub use reading::catch_up;

/// Writes the sheet of offers, which says every entry that is not vacant; and the bytes that it has.
pub use writing::{sheet_length, write_sheet};
