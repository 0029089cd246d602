//! The rules that stand by themselves, by name.
ghost use Rattle.bounds.specs.Rules.{named};
ghost use Rattle.bounds.specs.Laws.Names.{named-sound};

use crate::all_in::AllIn;
use crate::blocks::{Block, BoundingRule};
use crate::ceiling::Ceiling;
use crate::limits::Limits;
use crate::one_by_one::OneByOne;
use crate::shares::Shares;
use crate::tangent::Tangent;
use clearing::Docket;

/// A rule that a name picks.
#[derive(Clone, Copy, PartialEq, Eq, Debug)]
pub enum Named {
    Ceiling,
    AllIn,
    OneByOne,
    Limits,
    Shares,
    Tangent,
}

impl BoundingRule for Named {
    ghost answers = { named };

    ghost sound = { named-sound };

    fn consult(&mut self, docket: &Docket, block: Block) -> Option<i64> {
        match self {
            Named::Ceiling => Ceiling.consult(docket, block),
            Named::AllIn => AllIn.consult(docket, block),
            Named::OneByOne => OneByOne.consult(docket, block),
            Named::Limits => Limits.consult(docket, block),
            Named::Shares => Shares.consult(docket, block),
            Named::Tangent => Tangent.consult(docket, block),
        }
    }
}

#[cfg(test)]
mod tests {
    use super::*;
    use crate::blocks::CEILING;
    use offers::{Band, Exclusion, Limit, Offer, Offers, Package, Pair, Refusal};
    use pricing::Filed;
    use std::process::Abort;
    use std::test::*;

    // Caps of the tangent and shares rules in a round of five packages, reckoned apart from this code from the rules in words.
    fn package(power: u32, energy: u32, certificates: u32, price: u64, date: u8) -> Offer {
        Offer::Package(Package {
            power,
            energy,
            certificates,
            nameplate: 0,
            price,
            power_zone: 1,
            interconnection_zone: 1,
            export_zone: 1,
            price_zone: 1,
            date,
            unqualified: 0,
            dollar: 0,
        })
    }

    fn band(market: u8, quantity: u32, price: u32) -> Offer {
        Offer::Band(Band {
            market,
            quantity,
            price,
            buyer: 1,
        })
    }

    // Package 2 needs 5, and 1 and 4 exclude each other; at most 40 per cent of the power sold may be of packages dated before, as 4 is.
    fn offered() -> Result<Offers, Refusal> {
        let mut offers = Offers::vacant();
        offers.file(1, package(20, 500, 100, 5_000, 0))?;
        offers.file(2, package(0, 200, 300, 5_000, 0))?;
        offers.file(3, package(20, 200, 100, 24_000, 0))?;
        offers.file(4, package(80, 0, 300, 8_000, 1))?;
        offers.file(5, package(50, 500, 0, 5_000, 0))?;
        offers.file(1, band(1, 100, 12))?;
        offers.file(2, band(1, 60, 400))?;
        offers.file(3, band(4, 30, 110))?;
        offers.file(4, band(4, 30, 40))?;
        offers.file(5, band(5, 30, 110))?;
        offers.file(6, band(5, 300, 110))?;
        let pair = Pair {
            dependent: 2,
            needed: 5,
        };
        offers.file(1, Offer::Pair(pair))?;
        for (number, member) in [(1, 4), (2, 1)] {
            offers.file(number, Offer::Exclusion(Exclusion { group: 1, member }))?;
        }
        let limit = Limit {
            sort: 3,
            zone: 1,
            amount: 40,
        };
        offers.file(1, Offer::Limit(limit))?;
        Ok(offers)
    }

    // What the two rules say of a block.
    fn check<R: Abort>(
        rt: &R,
        docket: &Docket,
        block: Block,
        tangent: i64,
        shares: Option<i64>,
    ) -> Result<(), Fail> {
        assert_eq!(rt; Named::Tangent.consult(docket, block), Some(tangent));
        assert_eq!(rt; Named::Shares.consult(docket, block), shares);
        Ok(())
    }

    #[test]
    fn caps(rt: HostRuntime) -> Result<(), Fail> {
        let mut docket = Docket::new(rt.alloc())?;
        docket.close(&offered()?, &mut Filed)?;
        check(
            &rt,
            &docket,
            Block { first: 0, free: 5 },
            58_800,
            Some(CEILING),
        )?;
        check(
            &rt,
            &docket,
            Block { first: 0, free: 3 },
            18_500,
            Some(CEILING),
        )?;
        check(&rt, &docket, Block { first: 8, free: 3 }, 51_100, None)?;
        check(&rt, &docket, Block { first: 24, free: 3 }, 52_230, None)?;
        check(&rt, &docket, Block { first: 8, free: 0 }, 49_240, None)
    }
}
