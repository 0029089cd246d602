//! What a supply sells: the bands are filled by falling price, equal prices by rising number.
ghost use Rattle.std.specs.Prelude.{◌≡◌, true, map, slice_index};
ghost use Rattle.offers.specs.Tables.{BANDS};
ghost use Rattle.clearing.specs.Ranges.{band_fits};
ghost use Rattle.clearing.specs.Tallies.{row};
ghost use Rattle.clearing.specs.Sales.{filled, sale_of, sales_of};

use crate::dockets::{Docket, OpenBand};
use offers::BANDS;

/// What is sold in each market, and what it brings in pesos. Market m stands at place m - 1, in an array as in `Tally`.
#[derive(Clone, Copy)]
pub struct Sales {
    pub sold: [u64; 5],
    pub income: u64,
}

/// What a band is sold: what is left once the bands ahead of it are served, up to its quantity.
pub(crate) fn sale(supply: &[u64; 5], band: &OpenBand) -> u64
    requires { band_fits band.now ≡ true }
    ensures { result ≡ filled supply.now band.now }
{
    let rest = supply[band.terms.market as usize - 1].saturating_sub(band.ahead);
    rest.min(band.terms.quantity as u64)
}

/// What the band at a place of the docket is sold, 0 past the last.
pub fn sale_at(docket: &Docket, supply: &[u64; 5], place: usize) -> u64
    ensures { result ≡ slice_index (map (filled supply.now) docket.now.bands) place }
{
    match docket.bands.as_slice().get(place) {
        Some(band) => sale(supply, band),
        None => 0,
    }
}

/// What a supply of each market sells to the docket's bands.
pub fn sell(docket: &Docket, supply: &[u64; 5]) -> Sales
    ensures { result ≡ sales_of docket.now.bands supply.now }
{
    let mut sales = Sales {
        sold: [0; 5],
        income: 0,
    };
    for band in docket.bands.as_slice().iter() {
        let sold = sale(supply, band);
        sales.sold[band.terms.market as usize - 1] += sold;
        sales.income += sold * band.terms.price as u64;
    }
    sales
}

/// What each band is sold by its offer number, number n at place n - 1; 0 for a number that is not open.
pub fn sales_row(docket: &Docket, supply: &[u64; 5]) -> [u64; BANDS]
    ensures { result ≡ row (sale_of docket.now.bands supply.now) 1 BANDS }
{
    let mut row = [0u64; BANDS];
    for band in docket.bands.as_slice().iter() {
        row[band.number as usize - 1] = sale(supply, band);
    }
    row
}
