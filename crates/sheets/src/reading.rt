//! Catching up: a sheet is read into a copy of the offers, which is stored once the whole sheet was in order.
ghost use Rattle.std.specs.Prelude.{◌≡◌, length, IfErr};
ghost use Rattle.offers.specs.Memory.{layout_of};
ghost use Rattle.offers.specs.Refusals.{Carries};
ghost use Rattle.sheets.specs.Fields.{content_size};
ghost use Rattle.sheets.specs.Laws.{CaughtUp};
ghost use Rattle.sheets.specs.Reading.{enter_field, catching_up};
ghost use Rattle.sheets.specs.Views.{plain_field};

use crate::fields::{Cursor, HEADER, SheetField, enter_content, split_field};
use offers::{Kind, Offers, Refusal};

/// Brings the offers up to date from a whole sheet, or refuses it and leaves them as they were.
pub fn catch_up(offers: &mut Offers, sheet: &[u8]) -> Result<(), Refusal>
    ensures answer { result ≡ (catching_up offers.old sheet.now).answer }
    ensures after { offers.new ≡ (catching_up offers.old sheet.now).after }
    ensures caught_up { CaughtUp offers.old sheet.now result offers.new }
{
    let mut copy = *offers;
    let mut cursor = Cursor {
        next_byte: 0,
        last_tag: 0,
        last_number: 0,
    };
    let mut rest = sheet;
    while !rest.is_empty() {
        let field = split_field(rest, cursor.next_byte)?;
        let number = enter_field(&mut copy, cursor, field)?;
        cursor = Cursor {
            next_byte: cursor.next_byte + HEADER + field.content.len(),
            last_tag: field.kind.tag(),
            last_number: number,
        };
        rest = field.rest;
    }
    *offers = copy;
    Ok(())
}

// Enters a field in the ledger of its kind, and gives its offer number.
fn enter_field(offers: &mut Offers, cursor: Cursor, field: SheetField<'_>) -> Result<u8, Refusal>
    requires { length field.content.now ≡ content_size (layout_of field.kind) }
    ensures answer { result ≡ (enter_field offers.old cursor (plain_field field.entry)).answer }
    ensures after { offers.new ≡ (enter_field offers.old cursor (plain_field field.entry)).after }
    ensures carries { IfErr result Carries }
{
    match field.kind {
        Kind::Package => enter_content(&mut offers.packages.entries, cursor, field.content),
        Kind::Band => enter_content(&mut offers.bands.entries, cursor, field.content),
        Kind::Pair => enter_content(&mut offers.pairs.entries, cursor, field.content),
        Kind::Exclusion => enter_content(&mut offers.exclusions.entries, cursor, field.content),
        Kind::Limit => enter_content(&mut offers.limits.entries, cursor, field.content),
    }
}
