//! Each refusal of filing and withdrawing, with all its values, and what a refused call leaves.
use offers::{Band, Code, Entry, Exclusion, Kind, Limit, Offer, Offers, Pair, Refusal, Register};
use std::test::*;

const PAIR: Pair = Pair {
    dependent: 1,
    needed: 2,
};

const OTHER_PAIR: Pair = Pair {
    dependent: 3,
    needed: 4,
};

#[test]
fn filing_and_withdrawing(rt: HostRuntime) -> Result<(), Fail> {
    let mut offers = Offers::vacant();
    let entry = offers.pairs.entries[6];
    assert_eq!(rt; entry, Entry::Vacant);
    offers.file(7, Offer::Pair(PAIR))?;
    let entry = offers.pairs.entries[6];
    assert_eq!(rt; entry, Entry::Open(PAIR));
    offers.withdraw(Kind::Pair, 7)?;
    let entry = offers.pairs.entries[6];
    assert_eq!(rt; entry, Entry::Withdrawn(PAIR));
    Ok(())
}

// A register may be lent by anyone; one that is short has only the numbers that it has entries for.
#[test]
fn a_short_register(rt: HostRuntime) -> Result<(), Fail> {
    let mut entries = [Entry::Vacant; 2];
    let mut register = Register(&mut entries);
    register.file(2, PAIR)?;
    assert_eq!(rt;
        register.file(3, PAIR),
        Err(Refusal {
            tag: 3,
            number: 3,
            ..Refusal::code_only(Code::NumberOutside)
        })
    );
    register.withdraw(2)?;
    assert_eq!(rt; entries, [Entry::Vacant, Entry::Withdrawn(PAIR)]);
    Ok(())
}

#[test]
fn number_outside(rt: HostRuntime) -> Result<(), Fail> {
    let mut offers = Offers::vacant();
    let limit = Offer::Limit(Limit {
        sort: 1,
        zone: 1,
        amount: 50,
    });
    let below = Refusal {
        tag: 5,
        ..Refusal::code_only(Code::NumberOutside)
    };
    let above = Refusal {
        number: 33,
        ..below
    };
    assert_eq!(rt; offers.file(0, limit), Err(below));
    assert_eq!(rt; offers.file(33, limit), Err(above));
    assert_eq!(rt; offers.withdraw(Kind::Limit, 0), Err(below));
    assert_eq!(rt; offers.withdraw(Kind::Limit, 33), Err(above));
    offers.file(1, limit)?;
    offers.file(32, limit)?;
    Ok(())
}

// The last number of each kind and the one after it.
#[test]
fn last_numbers(rt: HostRuntime) -> Result<(), Fail> {
    let mut offers = Offers::vacant();
    let kinds = [
        (Kind::Package, 1, 40, 41),
        (Kind::Band, 2, 64, 65),
        (Kind::Pair, 3, 64, 65),
        (Kind::Exclusion, 4, 64, 65),
        (Kind::Limit, 5, 32, 33),
    ];
    for (kind, tag, last, next) in kinds {
        assert_eq!(rt;
            offers.withdraw(kind, last),
            Err(Refusal {
                tag,
                number: last,
                ..Refusal::code_only(Code::NotFiled)
            })
        );
        assert_eq!(rt;
            offers.withdraw(kind, next),
            Err(Refusal {
                tag,
                number: next,
                ..Refusal::code_only(Code::NumberOutside)
            })
        );
    }
    Ok(())
}

#[test]
fn field_outside(rt: HostRuntime) -> Result<(), Fail> {
    let mut offers = Offers::vacant();
    let band = Band {
        market: 4,
        quantity: 0,
        price: 5,
        buyer: 1,
    };
    assert_eq!(rt;
        offers.file(64, Offer::Band(band)),
        Err(Refusal {
            tag: 2,
            number: 64,
            field: 3,
            ..Refusal::code_only(Code::FieldOutside)
        })
    );
    let entry = offers.bands.entries[63];
    assert_eq!(rt; entry, Entry::Vacant);
    Ok(())
}

#[test]
fn already_open(rt: HostRuntime) -> Result<(), Fail> {
    let mut offers = Offers::vacant();
    offers.file(7, Offer::Pair(PAIR))?;
    assert_eq!(rt;
        offers.file(7, Offer::Pair(OTHER_PAIR)),
        Err(Refusal {
            tag: 3,
            number: 7,
            ..Refusal::code_only(Code::AlreadyOpen)
        })
    );
    let entry = offers.pairs.entries[6];
    assert_eq!(rt; entry, Entry::Open(PAIR));
    Ok(())
}

#[test]
fn already_withdrawn(rt: HostRuntime) -> Result<(), Fail> {
    let mut offers = Offers::vacant();
    offers.file(7, Offer::Pair(PAIR))?;
    offers.withdraw(Kind::Pair, 7)?;
    let withdrawn = Refusal {
        tag: 3,
        number: 7,
        ..Refusal::code_only(Code::AlreadyWithdrawn)
    };
    assert_eq!(rt; offers.file(7, Offer::Pair(OTHER_PAIR)), Err(withdrawn));
    assert_eq!(rt; offers.withdraw(Kind::Pair, 7), Err(withdrawn));
    let entry = offers.pairs.entries[6];
    assert_eq!(rt; entry, Entry::Withdrawn(PAIR));
    Ok(())
}

#[test]
fn not_filed(rt: HostRuntime) -> Result<(), Fail> {
    let mut offers = Offers::vacant();
    assert_eq!(rt;
        offers.withdraw(Kind::Exclusion, 64),
        Err(Refusal {
            tag: 4,
            number: 64,
            ..Refusal::code_only(Code::NotFiled)
        })
    );
    let entry = offers.exclusions.entries[63];
    assert_eq!(rt; entry, Entry::Vacant);
    Ok(())
}

// The number is looked at first, then the offer's fields, then what stands there.
#[test]
fn order_of_checks(rt: HostRuntime) -> Result<(), Fail> {
    let mut offers = Offers::vacant();
    let member = Exclusion {
        group: 1,
        member: 3,
    };
    let stray = Exclusion {
        group: 17,
        member: 3,
    };
    offers.file(1, Offer::Exclusion(member))?;
    assert_eq!(rt;
        offers.file(65, Offer::Exclusion(stray)),
        Err(Refusal {
            tag: 4,
            number: 65,
            ..Refusal::code_only(Code::NumberOutside)
        })
    );
    assert_eq!(rt;
        offers.file(1, Offer::Exclusion(stray)),
        Err(Refusal {
            tag: 4,
            number: 1,
            field: 2,
            ..Refusal::code_only(Code::FieldOutside)
        })
    );
    let entry = offers.exclusions.entries[0];
    assert_eq!(rt; entry, Entry::Open(member));
    Ok(())
}
