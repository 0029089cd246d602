//! The lines of a journal: what one says, read from its text.
use crate::stacks::Stack;
use bounds::{Chain, Named};
use fees::FeeRates;
use offers::{Kind, Offer};

/// What a line says: a call.
#[derive(Drop)]
pub enum Line {
    /// a record under an offer number
    File(u8, Offer),
    Withdraw(Kind, u8),
    /// a sheet's bytes
    CatchUp(Vec<u8>),
    Close(Stack),
    /// bounding rules, and a count of steps
    Search(Chain<Named>, u32),
    Reopen,
    /// the length of the row that is lent
    Award(u32),
    /// the rates, and the length of the row that is lent
    Fees(FeeRates, u32),
    /// the length of the buffer that is lent; none for one as long as the sheet
    Sheet(Option<u32>),
}

/// What is shown of a buffer.
#[derive(Clone, Copy, PartialEq, Eq, Debug)]
pub enum Shown {
    /// all its bytes
    Whole,
    /// those that the sheet filled
    Filled,
}

mod reading;
mod writing;

pub use reading::read_line;
