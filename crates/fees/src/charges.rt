//! What each buyer of a choice is sold, in pesos, and the fees on it.
ghost use Rattle.std.specs.Prelude.{◌≡◌, ◌≤◌, true, ◌++◌, map, length, drop, IfOk};
ghost use Rattle.std.specs.List.{sum};
ghost use Rattle.offers.specs.Tables.{BUYERS};
ghost use Rattle.clearing.specs.Ranges.{at_most};
ghost use Rattle.clearing.specs.Sales.{filled};
ghost use Rattle.clearing.specs.Tallies.{row};
ghost use Rattle.fees.specs.Charges.{MOST_VALUE, FairFees, bought, charging};
ghost use Rattle.fees.specs.Fees.{rates_in_range, fee};

use crate::rates::FeeRates;
use clearing::{Docket, sales_row, supply_of};
use offers::{BUYERS, Code, Refusal};

/// Writes what each buyer pays on what a choice with filled sales sells to it into the row's first 16 places, and gives the total; both
/// in centavos. A longer row keeps its rest. Refused with code 13 where a rate is above 100, then with code 11 where the row is shorter;
/// a refusal leaves the row as it was.
pub fn charge_fees(
    docket: &Docket,
    choice: u64,
    rates: FeeRates,
    row: &mut [u64],
) -> Result<u64, Refusal>
    ensures answer { result ≡ (charging rates docket.now choice row.old).answer }
    ensures row { row.new ≡ (charging rates docket.now choice row.old).row }
    // what fees are, in words of the subject: laws of the definition that this call only carries
    ensures fair { IfOk result (FairFees rates docket.now choice row.new) }
{
    if !rates.in_range() {
        return Err(Refusal::code_only(Code::RateOutside));
    }
    if row.len() < BUYERS {
        return Err(Refusal::code_only(Code::NoRoom));
    }
    let values = values(docket, &supply_of(docket, choice));
    Ok(write_fees(rates, &values, row))
}

// What each buyer is sold of a supply of each market, in pesos; buyer n at place n - 1.
fn values(docket: &Docket, supply: &[u64; 5]) -> [u64; BUYERS]
    ensures value { result ≡ row (bought docket.now.bands (map (filled supply.now) docket.now.bands)) 1 BUYERS }
    ensures bound { at_most MOST_VALUE result ≡ true }
{
    let sold = sales_row(docket, supply);
    let mut values = [0u64; BUYERS];
    for band in docket.bands.as_slice().iter() {
        let paid = sold[band.number as usize - 1] * band.terms.price as u64;
        values[band.terms.buyer as usize - 1] += paid;
    }
    values
}

// Writes the fee on each value into the row, and gives their total.
fn write_fees(rates: FeeRates, values: &[u64; BUYERS], row: &mut [u64]) -> u64
    requires rates { rates_in_range rates ≡ true }
    requires bound { at_most MOST_VALUE values.now ≡ true }
    requires room { BUYERS ≤ length row.old }
    ensures row { row.new ≡ map (fee rates) values.now ++ drop BUYERS row.old }
    ensures total { result ≡ sum (map (fee rates) values.now) }
{
    let mut total = 0;
    for (place, value) in values.iter().enumerate() {
        let fee = rates.fee(*value);
        row[place] = fee;
        total += fee;
    }
    total
}
