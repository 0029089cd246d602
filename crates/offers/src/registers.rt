//! A register: one entry for each offer number of a kind, filed on and withdrawn in one text for every kind.
ghost use Rattle.std.specs.Prelude.{◌≡◌, IfErr};
ghost use Rattle.offers.specs.Refusals.{Carries};
ghost use Rattle.offers.specs.Registers.{is_vacant, refused_number, place, filing, withdrawing, Moved};

use crate::records::Record;
use crate::refusals::{Code, Refusal};

/// What stands under an offer number.
#[derive(Clone, Copy, PartialEq, Eq, Debug)]
pub enum Entry<R> {
    Vacant,
    Open(R),
    Withdrawn(R),
}

impl<R> Entry<R> {
    pub fn is_vacant(&self) -> bool
        ensures { result ≡ is_vacant self.now }
    {
        matches!(self, Entry::Vacant)
    }
}

/// The entries of one kind, lent by whoever holds them. Number n stands at place n - 1.
#[derive(Drop)]
pub struct Register<'a, R>(pub &'a mut [Entry<R>]);

impl<R: Record> Register<'_, R> {
    /// Makes a vacant number open.
    pub fn file(&mut self, number: u8, new: R) -> Result<(), Refusal>
        ensures answer { result ≡ (filing R.Record.layout self.old.0.now number new).answer }
        ensures same_lender { self.new.0.ghost_name ≡ self.old.0.ghost_name }
        ensures after { self.new.0.now ≡ (filing R.Record.layout self.old.0.now number new).after }
        ensures moved { Moved self.old.0.now number result self.new.0.now }
        ensures carries { IfErr result Carries }
    {
        file_in(self.0, number, new)
    }

    /// Makes an open number withdrawn.
    pub fn withdraw(&mut self, number: u8) -> Result<(), Refusal>
        ensures answer { result ≡ (withdrawing R.Record.layout self.old.0.now number).answer }
        ensures same_lender { self.new.0.ghost_name ≡ self.old.0.ghost_name }
        ensures after { self.new.0.now ≡ (withdrawing R.Record.layout self.old.0.now number).after }
        ensures moved { Moved self.old.0.now number result self.new.0.now }
        ensures carries { IfErr result Carries }
    {
        withdraw_in(self.0, number)
    }
}

/// The place of an offer number, where the kind has it and the register is that long.
pub fn place_of<R: Record>(entries: &[Entry<R>], number: u8) -> Option<usize>
    ensures { result ≡ place R.Record.layout entries.now number }
{
    if (1..=R::COUNT).contains(&number) && number as usize <= entries.len() {
        Some(number as usize - 1)
    } else {
        None
    }
}

// A refusal of a call on one number.
fn refused_number<R: Record>(code: Code, number: u8) -> Refusal
    ensures { result ≡ refused_number R.Record.layout code number }
{
    Refusal {
        tag: R::TAG,
        number,
        ..Refusal::code_only(code)
    }
}

/// Makes a vacant number of the entries open.
pub fn file_in<R: Record>(entries: &mut [Entry<R>], number: u8, new: R) -> Result<(), Refusal>
    ensures answer { result ≡ (filing R.Record.layout entries.old number new).answer }
    ensures after { entries.new ≡ (filing R.Record.layout entries.old number new).after }
    ensures moved { Moved entries.old number result entries.new }
    ensures carries { IfErr result Carries }
{
    let Some(at) = place_of(entries, number) else {
        return Err(refused_number::<R>(Code::NumberOutside, number));
    };
    if let Some(field) = new.fault() {
        return Err(Refusal {
            field,
            ..refused_number::<R>(Code::FieldOutside, number)
        });
    }
    let entry = &entries[at];
    match *entry {
        Entry::Vacant => {
            entries[at] = Entry::Open(new);
            Ok(())
        }
        Entry::Open(_) => Err(refused_number::<R>(Code::AlreadyOpen, number)),
        Entry::Withdrawn(_) => Err(refused_number::<R>(Code::AlreadyWithdrawn, number)),
    }
}

/// Makes an open number of the entries withdrawn.
pub fn withdraw_in<R: Record>(entries: &mut [Entry<R>], number: u8) -> Result<(), Refusal>
    ensures answer { result ≡ (withdrawing R.Record.layout entries.old number).answer }
    ensures after { entries.new ≡ (withdrawing R.Record.layout entries.old number).after }
    ensures moved { Moved entries.old number result entries.new }
    ensures carries { IfErr result Carries }
{
    let Some(at) = place_of(entries, number) else {
        return Err(refused_number::<R>(Code::NumberOutside, number));
    };
    let entry = &entries[at];
    match *entry {
        Entry::Vacant => Err(refused_number::<R>(Code::NotFiled, number)),
        Entry::Open(filed) => {
            entries[at] = Entry::Withdrawn(filed);
            Ok(())
        }
        Entry::Withdrawn(_) => Err(refused_number::<R>(Code::AlreadyWithdrawn, number)),
    }
}
