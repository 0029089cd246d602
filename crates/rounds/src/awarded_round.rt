//! An awarded round: its search has settled every choice, and the leader is the award.
ghost use Rattle.std.specs.Prelude.{◌≡◌};
ghost use Rattle.clearing.specs.Lawful.{choices};

use crate::open_round::OpenRound;
use clearing::{Docket, Tally, sales_row};
use fees::{FeeRates, charge_fees};
use offers::{BANDS, Code, Offers, Refusal};
use search::Position;
use sheets::write_sheet;

/// What a round awards: a choice of the open packages, and its surplus in pesos.
#[derive(Clone, Copy, PartialEq, Eq, Debug)]
pub struct Award {
    pub choice: u64,
    pub surplus: i64,
}

/// Every choice of its docket is settled.
#[derive(Drop)]
pub struct AwardedRound {
    pub(crate) offers: Offers,
    pub(crate) docket: Docket,
    pub(crate) at: Position,
    ghost finished: { at.settled ≡ choices docket },
}

impl AwardedRound {
    ghost use Rattle.std.specs.Prelude.{IfOk};
    ghost use Rattle.fees.specs.Charges.{FairFees};
    ghost use Rattle.rounds.specs.Model.{ReadAward, ReadFees, Reopen, WriteSheet, Awarded, Charged, Reopened, Written};
    ghost use Rattle.rounds.specs.Views.{of_open, of_awarded, gave, docket_in, Serves};

    /// The award, with what each band is sold, by offer number, in the row's first 64 places; a longer row keeps its rest, and a
    /// shorter one is refused and stays as it is.
    pub fn award(&self, row: &mut [u64]) -> Result<Award, Refusal>
        ensures { Serves (of_awarded self.now) (ReadAward row.old) (gave (of_awarded self.now) (Awarded result row.new)) }
    {
        if row.len() < BANDS {
            return Err(Refusal::code_only(Code::NoRoom));
        }
        let taken = Tally::new(&self.docket, self.at.leader);
        let sold = sales_row(&self.docket, &taken.supply);
        row[..BANDS].copy_from_slice(&sold);
        Ok(leader(self.at))
    }

    /// Writes the fee of each buyer on what the award sells it, by rising number, into the row's first 16 places, and gives their total;
    /// all in centavos. A longer row keeps its rest. Refused with code 13 where a rate is above 100, then with code 11 where the row is
    /// shorter; the row then stays as it is.
    pub fn fees(&self, rates: FeeRates, row: &mut [u64]) -> Result<u64, Refusal>
        ensures served { Serves (of_awarded self.now) (ReadFees rates row.old) (gave (of_awarded self.now) (Charged result row.new)) }
        // what the fees are, in words of the subject
        ensures fair { IfOk result (FairFees rates self.now.docket self.now.at.leader row.new) }
    {
        charge_fees(&self.docket, self.at.leader, rates, row)
    }

    /// What was open at the closing.
    pub fn docket(&self) -> &Docket
        ensures { result.now ≡ docket_in (of_awarded self.now).state }
    {
        &self.docket
    }

    /// Writes the sheet of the offers into the buffer's first bytes, and gives its length. Refused with code 11 where the
    /// buffer is shorter than the sheet.
    pub fn write_sheet(&self, buffer: &mut [u8]) -> Result<usize, Refusal>
        ensures { Serves (of_awarded self.now) (WriteSheet buffer.old) (gave (of_awarded self.now) (Written result buffer.new)) }
    {
        write_sheet(&self.offers, buffer)
    }

    /// Drops the docket and the award.
    pub fn reopen(self) -> OpenRound
        ensures { Serves (of_awarded self) Reopen (gave (of_open result) Reopened) }
    {
        let AwardedRound {
            offers,
            mut docket,
            at: _,
        } = self;
        docket.clear();
        OpenRound { offers, docket }
    }
}

// The leader as an award.
fn leader(at: Position) -> Award
    ensures { result ≡ record { choice = at.leader; surplus = at.surplus } }
{
    Award {
        choice: at.leader,
        surplus: at.surplus,
    }
}
