//! A ledger: the entries of one kind, one for each offer number, every record of them in range.
ghost use Rattle.std.specs.Prelude.{◌≡◌, List, replicate, ⊤};
ghost use Rattle.offers.specs.Registers.{IsLedger};
ghost use Rattle.offers.specs.declared.registers.Entry.{Entry};
ghost use Rattle.offers.specs.declared.registers.Entry.TheVariants.{Vacant};

use crate::records::Record;
use crate::registers::Entry;
use std::alloc::AllocError;
use std::marker::Model;

/// Number n stands at place n - 1.
pub struct Ledger<R: Record, const N: usize> {
    pub entries: [Entry<R>; N],
}

impl<R: Record, const N: usize> Model for Ledger<R, N> {
    ghost Value = { List (Entry R) };

    ghost view = { λ l. l.entries };

    ghost invariant = { λ l. IsLedger R.Record.layout N l.entries };

    ghost inverse = { λ es. record { entries = es } };
}

impl<R: Record, const N: usize> Copy for Ledger<R, N> {}

// By hand, since `Clone` cannot be derived for a generic struct with invariants.
impl<R: Record, const N: usize> Clone for Ledger<R, N> {
    ghost is_clone = { λ ledger copy. copy ≡ ledger };

    ghost is_infallible = { λ _. ⊤ };

    fn clone(&self) -> Result<Ledger<R, N>, AllocError> {
        Ok(*self)
    }
}

impl<R: Record, const N: usize> Ledger<R, N> {
    /// Every number is vacant.
    pub(crate) fn vacant() -> Ledger<R, N>
        requires { N ≡ R.Record.layout.count }
        ensures { result ≡ replicate N Vacant }
    {
        Ledger {
            entries: [Entry::Vacant; N],
        }
    }
}
