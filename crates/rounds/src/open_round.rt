//! An open round: it takes filings, withdrawals, sheets and a closing.
ghost use Rattle.std.specs.Prelude.{◌≡◌};
ghost use Rattle.clearing.specs.Lawful.{nothing_open};

use crate::closed_round::ClosedRound;
use clearing::Docket;
use offers::{Kind, Offer, Offers, Refusal};
use pricing::PriceRule;
use search::Position;
use sheets::{catch_up, write_sheet};
use std::alloc::{AllocError, Global};

/// It has the memory for a docket, and the docket is empty.
#[derive(Drop)]
pub struct OpenRound {
    pub(crate) offers: Offers,
    pub(crate) docket: Docket,
    ghost empty: { docket ≡ nothing_open },
}

impl OpenRound {
    ghost use Rattle.std.specs.Prelude.{IfOk};
    ghost use Rattle.rounds.specs.Model.{File, Withdraw, CatchUp, Close, WriteSheet, Done, Written, open_and_vacant};
    ghost use Rattle.rounds.specs.Views.{of_open, gave, gave_closing, Serves};

    /// A round begins open and vacant.
    pub fn new(heap: Global) -> Result<OpenRound, AllocError>
        ensures { IfOk result (λ r. of_open r ≡ open_and_vacant) }
    {
        Ok(OpenRound {
            offers: Offers::vacant(),
            docket: Docket::new(heap)?,
        })
    }

    /// Files an offer under a number of its kind. Refused with code 1, 2, 3 or 4; a refusal of this or of the two calls below leaves the
    /// round as it was.
    pub fn file(&mut self, number: u8, offer: Offer) -> Result<(), Refusal>
        ensures { Serves (of_open self.old) (File number offer) (gave (of_open self.new) (Done result)) }
    {
        self.offers.file(number, offer)
    }

    /// Withdraws a number of a kind. Refused with code 1, 4 or 5.
    pub fn withdraw(&mut self, kind: Kind, number: u8) -> Result<(), Refusal>
        ensures { Serves (of_open self.old) (Withdraw kind number) (gave (of_open self.new) (Done result)) }
    {
        self.offers.withdraw(kind, number)
    }

    /// Takes in a whole sheet, or nothing of it. Refused with code 1, 2 or 6 to 9, of the first field at fault.
    pub fn catch_up(&mut self, sheet: &[u8]) -> Result<(), Refusal>
        ensures { Serves (of_open self.old) (CatchUp sheet.now) (gave (of_open self.new) (Done result)) }
    {
        catch_up(&mut self.offers, sheet)
    }

    /// Writes the sheet of the offers into the buffer's first bytes, and gives its length. Refused with code 11 where the
    /// buffer is shorter than the sheet.
    pub fn write_sheet(&self, buffer: &mut [u8]) -> Result<usize, Refusal>
        ensures { Serves (of_open self.now) (WriteSheet buffer.old) (gave (of_open self.now) (Written result buffer.new)) }
    {
        write_sheet(&self.offers, buffer)
    }

    /// Closes the round with a price rule, or gives it back as it was with a refusal of code 10.
    pub fn close<P: PriceRule>(self, rule: &mut P) -> Result<ClosedRound, (OpenRound, Refusal)>
        ensures served { Serves (of_open self) (Close (P.PriceRule.meaning rule.old)) (gave_closing result) }
        ensures same_rule { P.PriceRule.meaning rule.new ≡ P.PriceRule.meaning rule.old }
    {
        let OpenRound { offers, mut docket } = self;
        match docket.close(&offers, rule) {
            Ok(()) => Ok(ClosedRound {
                offers,
                docket,
                at: Position::start(),
            }),
            Err(refusal) => Err((OpenRound { offers, docket }, refusal)),
        }
    }
}
