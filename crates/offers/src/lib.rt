//! The offers of a round: the kinds of record, the registers that hold them, and why a call is refused.
#![tactic(auto)]

mod kinds;
mod layouts;
mod ledgers;
mod memory;
mod records;
mod refusals;
mod registers;
mod words;

/// What is offered: a record of one of five kinds. `Record` is what each kind owes: its tag, length, ranges and bytes.
pub use records::{Band, Date, Exclusion, Limit, Package, Pair, Record, Sort};

/// The kinds by their tags, and a byte that stands for none.
pub use kinds::{Kind, Unknown};

/// All offers of a round: filed, and withdrawn, under the numbers of each kind; how many numbers each kind has, and how many buyers
/// there are.
pub use memory::{BANDS, BUYERS, EXCLUSIONS, LIMITS, Offer, Offers, PACKAGES, PAIRS};

/// The entries of one kind: owned as a ledger, or lent as a register.
pub use ledgers::Ledger;
pub use registers::{Entry, Register, file_in, place_of, withdraw_in};

/// Why a call is refused: a code, and the values that go with it.
pub use refusals::{Code, Refusal};
