//! Closing: the open records are copied into the docket, and each package is priced.
ghost use Rattle.offers.specs.Registers.{IsLedger};
ghost use Rattle.offers.specs.Tables.{PACKAGES, BANDS, package_layout, band_layout};
ghost use Rattle.std.specs.List.{list_all};
ghost use Rattle.std.specs.Prelude.{◌≡◌, ◌+◌, ◌≤◌, true, IfOk, IfErr, ◌<◌, length};
ghost use Rattle.offers.specs.Refusals.{Carries};
ghost use Rattle.clearing.specs.Bands.{ahead_of, ahead_by};
ghost use Rattle.clearing.specs.Closing.{PricesOpen, packages_at, no_price, open_from, open_records, open_bands};
ghost use Rattle.clearing.specs.Ranges.{fits, price_fits, package_fits, band_fits, MOST_ASKED};

use crate::bounded::BoundedVec;
use crate::dockets::{OpenBand, PricedPackage};
use offers::{BANDS, Band, Code, Entry, Ledger, PACKAGES, Package, Record, Refusal};
use pricing::PriceRule;

/// The price of each open package, at its place in the register; the lowest-numbered one with a fault refuses.
pub(crate) fn price_all<P: PriceRule>(
    ledger: &Ledger<Package, PACKAGES>,
    rule: &mut P,
) -> Result<[i64; PACKAGES], Refusal>
    ensures fit { IfOk result (λ ps. list_all price_fits ps ≡ true) }
    ensures answer { PricesOpen (P.PriceRule.meaning rule.old) ledger.now result }
    ensures same_rule { P.PriceRule.meaning rule.new ≡ P.PriceRule.meaning rule.old }
    ensures carries { IfErr result Carries }
{
    let mut prices = [0i64; PACKAGES];
    for (i, entry) in ledger.entries.iter().enumerate() {
        if let Entry::Open(package) = entry {
            match rule.price(package) {
                Ok(price) => prices[i] = price,
                Err(fault) => return Err(price_fault(i, fault.depth)),
            }
        }
    }
    Ok(prices)
}

// A refusal of the package at a place of the register.
fn price_fault(at: usize, depth: u8) -> Refusal
    requires { at < PACKAGES }
    ensures { result ≡ no_price (at + 1) (record { depth = depth }) }
{
    Refusal {
        tag: Package::TAG,
        number: at as u8 + 1,
        depth,
        ..Refusal::code_only(Code::PriceFault)
    }
}

/// Puts the open packages with their prices in the place of what was there.
pub(crate) fn copy_packages(
    ledger: &Ledger<Package, PACKAGES>,
    prices: &[i64; PACKAGES],
    into: &mut BoundedVec<PricedPackage, PACKAGES>,
)
    requires prices_fit { list_all price_fits prices.now ≡ true }
    ensures few { length into.new ≤ PACKAGES }
    ensures fit { list_all package_fits into.new ≡ true }
    ensures items { into.new ≡ packages_at prices.now ledger.now }
    ensures held { IsLedger package_layout PACKAGES ledger.now }
{
    into.clear();
    for (i, entry) in ledger.entries.iter().enumerate() {
        if let Entry::Open(package) = entry {
            into.push(PricedPackage {
                number: i as u8 + 1,
                price: prices[i],
                terms: *package,
            });
        }
    }
}

/// Puts the open bands in the place of what was there, each with what stands ahead of it.
pub(crate) fn copy_bands(ledger: &Ledger<Band, BANDS>, into: &mut BoundedVec<OpenBand, BANDS>)
    ensures few { length into.new ≤ BANDS }
    ensures fit { list_all band_fits into.new ≡ true }
    ensures items { into.new ≡ open_bands ledger.now }
    ensures held { IsLedger band_layout BANDS ledger.now }
{
    into.clear();
    for (i, entry) in ledger.entries.iter().enumerate() {
        if let Entry::Open(band) = entry {
            into.push(OpenBand {
                number: i as u8 + 1,
                ahead: ahead_of(ledger, i, band),
                terms: *band,
            });
        }
    }
}

// The quantity of the open bands that are served before the band at a place of the register.
fn ahead_of(ledger: &Ledger<Band, BANDS>, at: usize, band: &Band) -> u64
    ensures value { result ≡ ahead_of (open_from 1 ledger.now) (record { number = at + 1; terms = band.now }) }
    ensures bound { result ≤ MOST_ASKED }
{
    let mut ahead = 0u64;
    for (i, entry) in ledger.entries.iter().enumerate() {
        if let Entry::Open(other) = entry {
            if ahead_by(other, band, i < at) {
                ahead += other.quantity as u64;
            }
        }
    }
    ahead
}

// Whether `other` is served before `band`. A record does not have its number, so the caller says whether that of `other` is smaller.
fn ahead_by(other: &Band, band: &Band, smaller_number: bool) -> bool
    ensures { result ≡ ahead_by other.now band.now smaller_number }
{
    other.market == band.market
        && (other.price > band.price || other.price == band.price && smaller_number)
}

/// Puts the open records of a register in the place of what was there.
pub(crate) fn copy_open<R: Record, const N: usize>(
    ledger: &Ledger<R, N>,
    into: &mut BoundedVec<R, N>,
)
    ensures fit { list_all (fits R.Record.layout) into.new ≡ true }
    ensures items { into.new ≡ open_records ledger.now }
    ensures held { IsLedger R.Record.layout N ledger.now }
{
    into.clear();
    for entry in ledger.entries.iter() {
        if let Entry::Open(open) = entry {
            into.push(*open);
        }
    }
}
