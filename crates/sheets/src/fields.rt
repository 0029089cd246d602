//! One field of a sheet: its header taken off, its content taken into the entries of its kind.
ghost use Rattle.std.specs.Prelude.{◌≡◌, length, IfErr};
ghost use Rattle.offers.specs.Layouts.{fault_of};
ghost use Rattle.offers.specs.Marks.{decoded};
ghost use Rattle.offers.specs.Memory.{layout_of};
ghost use Rattle.offers.specs.Refusals.{Carries};
ghost use Rattle.offers.specs.Registers.{entry_fault, InRange};
ghost use Rattle.sheets.specs.Views.{ReadAs};
ghost use Rattle.sheets.specs.Fields.{content_size, refused_tagged, refused_number, split_field, rises, agrees, status_of, status_byte, status_withdrawn, entry_of, joined_entry, enter_content};

use offers::{Code, Entry, Kind, Record, Refusal, Unknown, place_of};

/// How far a reader has come on a sheet.
#[derive(Clone, Copy)]
pub struct Cursor {
    /// where the next field starts
    pub next_byte: usize,
    /// of the field before it, 0 where there is none
    pub last_tag: u8,
    /// of the field before it, 0 where there is none
    pub last_number: u8,
}

/// A field of a sheet with its header taken off.
#[derive(Clone, Copy)]
pub struct SheetField<'a> {
    pub kind: Kind,
    /// offer number, status and record
    pub content: &'a [u8],
    /// the sheet after the field
    pub rest: &'a [u8],
}

/// The bytes of a header: tag and two of length.
pub const HEADER: usize = 3;

/// What a sheet says of an entry.
#[derive(Clone, Copy, PartialEq, Eq, Debug)]
pub enum Status {
    Open = 1,
    Withdrawn = 2,
}

impl TryFrom<u8> for Status {
    type Error = Unknown;

    ghost try_from_gives = { λ byte r. r ≡ decoded status_of byte };

    fn try_from(byte: u8) -> Result<Status, Unknown> {
        match byte {
            1 => Ok(Status::Open),
            2 => Ok(Status::Withdrawn),
            _ => Err(Unknown(byte)),
        }
    }
}

impl Status {
    /// Its byte on a sheet.
    pub(crate) fn byte(self) -> u8
        ensures { result ≡ status_byte self }
    {
        self as u8
    }
}

/// The bytes of a content: offer number, status and record.
pub(crate) fn content_bytes<R: Record>() -> usize
    ensures { result ≡ content_size R.Record.layout }
{
    R::LENGTH as usize + 2
}

/// The bytes of a content of a kind.
pub(crate) fn content_length(kind: Kind) -> usize
    ensures { result ≡ content_size (layout_of kind) }
{
    kind.record_length() as usize + 2
}

/// Takes the header off the field that starts the sheet's rest, at `byte` of the whole.
pub(crate) fn split_field(sheet: &[u8], byte: usize) -> Result<SheetField<'_>, Refusal>
    ensures answer { ReadAs result (split_field sheet.now byte) }
    ensures carries { IfErr result Carries }
{
    let [tag, high, low, body @ ..] = sheet else {
        return Err(Refusal {
            byte,
            ..Refusal::code_only(Code::CutShort)
        });
    };
    let length = u16::from_be_bytes([*high, *low]) as usize;
    let Ok(kind) = Kind::try_from(*tag) else {
        return Err(refused_tagged(Code::Strange, *tag, byte));
    };
    if length != content_length(kind) {
        return Err(refused_tagged(Code::Strange, *tag, byte));
    }
    if body.len() < length {
        return Err(refused_tagged(Code::CutShort, *tag, byte));
    }
    let (content, rest) = body.split_at(length);
    Ok(SheetField {
        kind,
        content,
        rest,
    })
}

// A refusal of a field whose tag was read.
fn refused_tagged(code: Code, tag: u8, byte: usize) -> Refusal
    ensures { result ≡ refused_tagged code tag byte }
{
    Refusal {
        tag,
        byte,
        ..Refusal::code_only(code)
    }
}

// Whether a field of this tag and number comes after the one that was read before it.
fn rises(cursor: Cursor, tag: u8, number: u8) -> bool
    ensures { result ≡ rises cursor tag number }
{
    (cursor.last_tag, cursor.last_number) < (tag, number)
}

// Whether an entry can be joined with the record that a sheet sends for its number: not where it has another one.
fn agrees<R: Record>(entry: &Entry<R>, sent: &R) -> bool
    requires entry_in_range { entry_fault R.Record.layout entry.now ≡ 0 }
    requires in_range { fault_of R.Record.layout sent.now ≡ 0 }
    ensures { result ≡ agrees R.Record.layout entry.now sent.now }
{
    match entry {
        Entry::Vacant => true,
        Entry::Open(mine) => mine == sent,
        Entry::Withdrawn(mine) => mine == sent,
    }
}

// The entry of a record with a status.
fn entry_of<R: Record>(status: Status, sent: R) -> Entry<R>
    ensures { result ≡ entry_of (status_withdrawn status) sent }
{
    match status {
        Status::Open => Entry::Open(sent),
        Status::Withdrawn => Entry::Withdrawn(sent),
    }
}

// What becomes of an entry: a vacant one takes what is sent, and any other is withdrawn if either says so.
fn joined_entry<R: Record>(entry: Entry<R>, status: Status, sent: R) -> Entry<R>
    ensures { result ≡ joined_entry entry (status_withdrawn status) sent }
{
    match entry {
        Entry::Vacant => entry_of(status, sent),
        Entry::Open(mine) => entry_of(status, mine),
        Entry::Withdrawn(mine) => Entry::Withdrawn(mine),
    }
}

// A refusal of a field whose offer number was read.
fn refused_number<R: Record>(code: Code, cursor: Cursor, number: u8) -> Refusal
    ensures { result ≡ refused_number R.Record.layout code cursor number }
{
    Refusal {
        tag: R::TAG,
        number,
        byte: cursor.next_byte,
        ..Refusal::code_only(code)
    }
}

/// Enters a field's content in the entries of its kind, and gives its offer number.
pub(crate) fn enter_content<R: Record>(
    entries: &mut [Entry<R>],
    cursor: Cursor,
    content: &[u8],
) -> Result<u8, Refusal>
    requires whole { length content.now ≡ content_size R.Record.layout }
    requires in_range { InRange R.Record.layout entries.old }
    ensures answer { result ≡ (enter_content R.Record.layout entries.old cursor content.now).answer }
    ensures after { entries.new ≡ (enter_content R.Record.layout entries.old cursor content.now).after }
    ensures in_range { InRange R.Record.layout entries.new }
    ensures as_long { length entries.new ≡ length entries.old }
    ensures carries { IfErr result Carries }
{
    let number = content[0];
    let Some(at) = place_of(entries, number) else {
        return Err(refused_number::<R>(Code::NumberOutside, cursor, number));
    };
    if !rises(cursor, R::TAG, number) {
        return Err(refused_number::<R>(Code::NotRising, cursor, number));
    }
    let Ok(status) = Status::try_from(content[1]) else {
        return Err(Refusal {
            field: 1,
            ..refused_number::<R>(Code::FieldOutside, cursor, number)
        });
    };
    let sent = R::read(&content[2..]);
    if let Some(field) = sent.fault() {
        return Err(Refusal {
            field,
            ..refused_number::<R>(Code::FieldOutside, cursor, number)
        });
    }
    let entry = entries[at];
    if !agrees(&entry, &sent) {
        return Err(refused_number::<R>(Code::Clash, cursor, number));
    }
    entries[at] = joined_entry(entry, status, sent);
    Ok(number)
}
