//! Sheets: every offence at several places, their order, the fullest sheet, and how a withdrawal travels.
use crate::fixtures::LEAST;
use offers::{Band, Code, Entry, Exclusion, Kind, Limit, Offer, Offers, Package, Pair, Refusal};
use sheets::{catch_up, write_sheet};
use std::process::Abort;
use std::test::*;

const PACKAGE: Package = Package {
    energy: 10,
    price: 20,
    ..LEAST
};

const BAND: Band = Band {
    market: 4,
    quantity: 10,
    price: 5,
    buyer: 1,
};

const PAIR: Pair = Pair {
    dependent: 1,
    needed: 2,
};

const EXCLUSION: Exclusion = Exclusion {
    group: 1,
    member: 2,
};

const LIMIT: Limit = Limit {
    sort: 3,
    zone: 4,
    amount: 100,
};

// The bytes where the six fields of `offered` start, and where they end.
const SECOND: usize = 36;

const THIRD: usize = 72;

const FOURTH: usize = 87;

const FIFTH: usize = 94;

const SIXTH: usize = 101;

const END: usize = 112;

// Two packages and one offer of each other kind, all open.
fn offered() -> Result<Offers, Refusal> {
    let mut offers = Offers::vacant();
    offers.file(1, Offer::Package(PACKAGE))?;
    offers.file(2, Offer::Package(PACKAGE))?;
    offers.file(1, Offer::Band(BAND))?;
    offers.file(1, Offer::Pair(PAIR))?;
    offers.file(1, Offer::Exclusion(EXCLUSION))?;
    offers.file(1, Offer::Limit(LIMIT))?;
    Ok(offers)
}

// The sheet of `offered`.
fn sheet() -> Result<[u8; END], Refusal> {
    let mut bytes = [0u8; END];
    write_sheet(&offered()?, &mut bytes)?;
    Ok(bytes)
}

// A refusal of the field that starts at this byte, of which only a tag was read.
fn headed(code: Code, tag: u8, byte: usize) -> Refusal {
    Refusal {
        tag,
        byte,
        ..Refusal::code_only(code)
    }
}

// And of one that was read as far as its number.
fn numbered(code: Code, kind: Kind, number: u8, byte: usize) -> Refusal {
    Refusal {
        tag: kind.tag(),
        number,
        byte,
        ..Refusal::code_only(code)
    }
}

// And of one with number 1 that holds a value out of range.
fn field_outside(kind: Kind, field: u8, byte: usize) -> Refusal {
    Refusal {
        field,
        ..numbered(Code::FieldOutside, kind, 1, byte)
    }
}

// The sheet with one byte changed is refused so, by a round that has nothing.
fn check_changed(rt: &impl Abort, rows: &[(usize, u8, Refusal)]) -> Result<(), Fail> {
    for (at, byte, expected) in rows {
        let mut bytes = sheet()?;
        assert!(rt; *at < END);
        bytes[*at] = *byte;
        let mut offers = Offers::vacant();
        assert_eq!(rt; catch_up(&mut offers, &bytes), Err(*expected));
        let entry = offers.packages.entries[0];
        assert_eq!(rt; entry, Entry::Vacant);
    }
    Ok(())
}

#[test]
fn strange_headers(rt: HostRuntime) -> Result<(), Fail> {
    check_changed(
        &rt,
        &[
            (0, 0, Refusal::code_only(Code::Strange)),
            (0, 6, headed(Code::Strange, 6, 0)),
            (1, 1, headed(Code::Strange, 1, 0)),
            (2, 32, headed(Code::Strange, 1, 0)),
            (THIRD, 255, headed(Code::Strange, 255, THIRD)),
            (THIRD + 2, 33, headed(Code::Strange, 2, THIRD)),
            (THIRD + 2, 11, headed(Code::Strange, 2, THIRD)),
            (SIXTH + 2, 9, headed(Code::Strange, 5, SIXTH)),
        ],
    )
}

#[test]
fn numbers_and_order(rt: HostRuntime) -> Result<(), Fail> {
    check_changed(
        &rt,
        &[
            (3, 0, numbered(Code::NumberOutside, Kind::Package, 0, 0)),
            (3, 41, numbered(Code::NumberOutside, Kind::Package, 41, 0)),
            (
                THIRD + 3,
                65,
                numbered(Code::NumberOutside, Kind::Band, 65, THIRD),
            ),
            (
                SIXTH + 3,
                33,
                numbered(Code::NumberOutside, Kind::Limit, 33, SIXTH),
            ),
            (
                SECOND + 3,
                1,
                numbered(Code::NotRising, Kind::Package, 1, SECOND),
            ),
            (FIFTH, 3, numbered(Code::NotRising, Kind::Pair, 1, FIFTH)),
        ],
    )
}

#[test]
fn status_and_fields(rt: HostRuntime) -> Result<(), Fail> {
    check_changed(
        &rt,
        &[
            (4, 0, field_outside(Kind::Package, 1, 0)),
            (4, 3, field_outside(Kind::Package, 1, 0)),
            (5, 1, field_outside(Kind::Package, 2, 0)),
            (35, 2, field_outside(Kind::Package, 13, 0)),
            (THIRD + 5, 6, field_outside(Kind::Band, 2, THIRD)),
            (FOURTH - 1, 0, field_outside(Kind::Band, 5, THIRD)),
            (FOURTH - 1, 17, field_outside(Kind::Band, 5, THIRD)),
            (FOURTH + 6, 1, field_outside(Kind::Pair, 3, FOURTH)),
            (FIFTH + 5, 17, field_outside(Kind::Exclusion, 2, FIFTH)),
            (SIXTH + 6, 5, field_outside(Kind::Limit, 3, SIXTH)),
            (END - 1, 101, field_outside(Kind::Limit, 4, SIXTH)),
        ],
    )
}

// A sheet that ends inside a field, at each sort of place.
#[test]
fn cut_short(rt: HostRuntime) -> Result<(), Fail> {
    let bytes = sheet()?;
    let rows = [
        (1, Refusal::code_only(Code::CutShort)),
        (2, Refusal::code_only(Code::CutShort)),
        (3, headed(Code::CutShort, 1, 0)),
        (35, headed(Code::CutShort, 1, 0)),
        (SECOND + 2, headed(Code::CutShort, 0, SECOND)),
        (FOURTH + 4, headed(Code::CutShort, 3, FOURTH)),
        (END - 1, headed(Code::CutShort, 5, SIXTH)),
    ];
    for (length, expected) in rows {
        assert!(rt; length < END);
        let mut offers = Offers::vacant();
        assert_eq!(rt; catch_up(&mut offers, &bytes[0..length]), Err(expected));
    }
    Ok(())
}

// Of two offences in one field, and in two fields, the first decides.
#[test]
fn first_offence(rt: HostRuntime) -> Result<(), Fail> {
    let mut bytes = sheet()?;
    bytes[SECOND + 3] = 1;
    bytes[SECOND + 4] = 3;
    let mut offers = Offers::vacant();
    assert_eq!(rt;
        catch_up(&mut offers, &bytes),
        Err(numbered(Code::NotRising, Kind::Package, 1, SECOND))
    );
    bytes[4] = 3;
    bytes[5] = 1;
    assert_eq!(rt;
        catch_up(&mut offers, &bytes),
        Err(field_outside(Kind::Package, 1, 0))
    );
    Ok(())
}

// A clash comes before the cut header of the next field.
#[test]
fn clash_before_a_cut(rt: HostRuntime) -> Result<(), Fail> {
    let bytes = sheet()?;
    let mut offers = Offers::vacant();
    offers.file(
        1,
        Offer::Package(Package {
            price: 21,
            ..PACKAGE
        }),
    )?;
    assert_eq!(rt;
        catch_up(&mut offers, &bytes[0..SECOND + 1]),
        Err(numbered(Code::Clash, Kind::Package, 1, 0))
    );
    Ok(())
}

#[test]
fn nothing_to_say(rt: HostRuntime) -> Result<(), Fail> {
    let mut offers = offered()?;
    catch_up(&mut offers, &[])?;
    let mut bytes = [7u8; 3];
    assert_eq!(rt; write_sheet(&Offers::vacant(), &mut bytes), Ok(0));
    assert_eq!(rt; bytes, [7, 7, 7]);
    Ok(())
}

// The rest of a longer buffer stays, and so does all of a shorter one.
#[test]
fn buffers(rt: HostRuntime) -> Result<(), Fail> {
    let offers = offered()?;
    let mut longer = [7u8; END + 2];
    assert_eq!(rt; write_sheet(&offers, &mut longer), Ok(END));
    assert_eq!(rt; longer[END], 7);
    assert_eq!(rt; longer[END + 1], 7);
    let mut shorter = [7u8; END - 1];
    assert_eq!(rt;
        write_sheet(&offers, &mut shorter),
        Err(Refusal::code_only(Code::NoRoom))
    );
    assert_eq!(rt; shorter[0], 7);
    Ok(())
}

// Every number of every kind, some withdrawn: 3,648 bytes that read back.
#[test]
fn fullest_sheet(rt: HostRuntime) -> Result<(), Fail> {
    let mut offers = Offers::vacant();
    for number in 1..=64 {
        if number <= 40 {
            offers.file(number, Offer::Package(PACKAGE))?;
        }
        if number <= 32 {
            offers.file(number, Offer::Limit(LIMIT))?;
        }
        offers.file(number, Offer::Band(BAND))?;
        offers.file(number, Offer::Pair(PAIR))?;
        offers.file(number, Offer::Exclusion(EXCLUSION))?;
    }
    offers.withdraw(Kind::Package, 40)?;
    let mut bytes = [0u8; 3648];
    assert_eq!(rt; write_sheet(&offers, &mut bytes), Ok(3648));
    let mut other = Offers::vacant();
    catch_up(&mut other, &bytes)?;
    let entry = other.packages.entries[39];
    assert_eq!(rt; entry, Entry::Withdrawn(PACKAGE));
    let mut again = [0u8; 3648];
    assert_eq!(rt; write_sheet(&other, &mut again), Ok(3648));
    assert!(rt; bytes == again);
    Ok(())
}

// A package is withdrawn here and still open on the other round's older sheet: it stays withdrawn. With another price it clashes.
#[test]
fn an_older_sheet(rt: HostRuntime) -> Result<(), Fail> {
    let older = sheet()?;
    let mut offers = offered()?;
    offers.withdraw(Kind::Package, 2)?;
    catch_up(&mut offers, &older)?;
    let entry = offers.packages.entries[0];
    assert_eq!(rt; entry, Entry::Open(PACKAGE));
    let entry = offers.packages.entries[1];
    assert_eq!(rt; entry, Entry::Withdrawn(PACKAGE));
    let mut dearer = older;
    dearer[SECOND + 28] = 21;
    assert_eq!(rt;
        catch_up(&mut offers, &dearer),
        Err(numbered(Code::Clash, Kind::Package, 2, SECOND))
    );
    Ok(())
}
