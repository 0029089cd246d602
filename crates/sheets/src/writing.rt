//! Writing: every entry that is not vacant goes straight into the caller's buffer, by rising tag, then rising number.
ghost use Rattle.std.specs.Prelude.{◌≡◌, ◌+◌, ◌*◌, ◌^◌, ◌<◌, ◌≤◌, ◌++◌, length, take, drop, IfErr};
ghost use Rattle.offers.specs.Memory.{Sound};
ghost use Rattle.offers.specs.Refusals.{Carries};
ghost use Rattle.sheets.specs.Fields.{content_size, status_byte};
ghost use Rattle.sheets.specs.Laws.{Faithful};
ghost use Rattle.sheets.specs.Writing.{field_bytes, register_bytes, sheet_of, write_sheet};

use crate::fields::{HEADER, Status, content_bytes};
use offers::{Code, Entry, Offers, Record, Refusal};

/// Writes the sheet of the offers into the buffer's first bytes, and gives its length.
pub fn write_sheet(offers: &Offers, buffer: &mut [u8]) -> Result<usize, Refusal>
    ensures answer { result ≡ (write_sheet offers.now buffer.old).answer }
    ensures after { buffer.new ≡ (write_sheet offers.now buffer.old).buffer }
    // what the sheet is to every round, a law of the entries that this call only carries
    ensures faithful { Faithful offers.now }
    ensures carries { IfErr result Carries }
{
    let length = sheet_length(offers);
    if buffer.len() < length {
        return Err(Refusal::code_only(Code::NoRoom));
    }
    let at = put_register(&offers.packages.entries, buffer, 0);
    let at = put_register(&offers.bands.entries, buffer, at);
    let at = put_register(&offers.pairs.entries, buffer, at);
    let at = put_register(&offers.exclusions.entries, buffer, at);
    put_register(&offers.limits.entries, buffer, at);
    Ok(length)
}

/// The bytes of the offers' sheet, which is written from sound entries.
pub fn sheet_length(offers: &Offers) -> usize
    ensures value { result ≡ length (sheet_of offers.now) }
    // what any offers are, which this call only tells
    ensures sound { Sound offers.now }
{
    register_length(&offers.packages.entries)
        + register_length(&offers.bands.entries)
        + register_length(&offers.pairs.entries)
        + register_length(&offers.exclusions.entries)
        + register_length(&offers.limits.entries)
}

// The bytes of a register's fields.
fn register_length<R: Record>(entries: &[Entry<R>]) -> usize
    requires few { length entries.now ≤ 64 }
    requires short { content_size R.Record.layout < 2 ^ 16 }
    ensures value { result ≡ length (register_bytes R.Record.layout 1 entries.now) }
    ensures bound { result ≤ 64 * 65538 }
{
    let held: usize = entries
        .iter()
        .map(|entry| usize::from(!entry.is_vacant()))
        .sum();
    held * (HEADER + content_bytes::<R>())
}

// Writes a register's fields from `at` on, and gives where they end.
fn put_register<R: Record>(entries: &[Entry<R>], buffer: &mut [u8], at: usize) -> usize
    requires few { length entries.now ≤ 64 }
    requires short { content_size R.Record.layout < 2 ^ 16 }
    requires room { at + length (register_bytes R.Record.layout 1 entries.now) ≤ length buffer.old }
    ensures end { result ≡ at + length (register_bytes R.Record.layout 1 entries.now) }
    ensures front { take result buffer.new ≡ take at buffer.old ++ register_bytes R.Record.layout 1 entries.now }
    ensures back { drop result buffer.new ≡ drop result buffer.old }
{
    let mut next = at;
    for (i, entry) in entries.iter().enumerate() {
        let number = i as u8 + 1;
        next = match entry {
            Entry::Vacant => next,
            Entry::Open(filed) => put_field(buffer, next, number, Status::Open, filed),
            Entry::Withdrawn(filed) => put_field(buffer, next, number, Status::Withdrawn, filed),
        };
    }
    next
}

// Writes one field from `at` on, and gives where it ends.
fn put_field<R: Record>(
    buffer: &mut [u8],
    at: usize,
    number: u8,
    status: Status,
    filed: &R,
) -> usize
    requires short { content_size R.Record.layout < 2 ^ 16 }
    requires room { at + length (field_bytes R.Record.layout number (status_byte status) filed.now) ≤ length buffer.old }
    ensures end { result ≡ at + length (field_bytes R.Record.layout number (status_byte status) filed.now) }
    ensures front { take result buffer.new ≡ take at buffer.old ++ field_bytes R.Record.layout number (status_byte status) filed.now }
    ensures back { drop result buffer.new ≡ drop result buffer.old }
{
    let content = content_bytes::<R>();
    let start = at + HEADER;
    let end = start + content;
    let [high, low] = (content as u16).to_be_bytes();
    let front = [R::TAG, high, low, number, status.byte()];
    buffer[at..start + 2].copy_from_slice(&front);
    filed.write(&mut buffer[start + 2..end]);
    end
}
