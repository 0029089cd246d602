//! The docket: the records that were open at a closing, each package with its price.
ghost use Rattle.std.specs.Prelude.{◌≡◌};

use crate::bounded::BoundedVec;
use crate::choices::Taken;
use crate::closing::{copy_bands, copy_open, copy_packages, price_all};
use offers::{
    BANDS, Band, EXCLUSIONS, Exclusion, LIMITS, Limit, Offers, PACKAGES, PAIRS, Package, Pair,
    Refusal,
};
use pricing::PriceRule;
use std::alloc::{AllocError, Global};
use std::marker::Model;

/// An open package with its offer number and its price in pesos.
#[derive(Clone, Copy)]
pub struct PricedPackage {
    pub number: u8,
    pub price: i64,
    pub terms: Package,
}

/// An open band with its offer number, and what the bands that are served before it in its market would take.
#[derive(Clone, Copy)]
pub struct OpenBand {
    pub number: u8,
    pub ahead: u64,
    pub terms: Band,
}

/// What was open at a closing, each kind by rising offer number. Its memory is got once, with the round.
#[derive(Drop)]
pub struct Docket {
    pub packages: BoundedVec<PricedPackage, PACKAGES>,
    pub bands: BoundedVec<OpenBand, BANDS>,
    pub pairs: BoundedVec<Pair, PAIRS>,
    pub exclusions: BoundedVec<Exclusion, EXCLUSIONS>,
    pub limits: BoundedVec<Limit, LIMITS>,
}

impl Model for Docket {
    ghost use Rattle.clearing.specs.Lawful.{View};

    ghost Value = { View };

    ghost use Rattle.clearing.specs.Ranged.{Ranged, lists};

    ghost view = { lists };

    ghost invariant = { λ d. Ranged (lists d) };
}

impl Docket {
    ghost use Rattle.std.specs.Prelude.{IfOk, IfErr, Ok};
    ghost use Rattle.offers.specs.Refusals.{Carries};
    ghost use Rattle.clearing.specs.Choices.{taken, still_taken};
    ghost use Rattle.clearing.specs.Closing.{ByClosing, OfOpen, closing};
    ghost use Rattle.clearing.specs.Lawful.{nothing_open};
    ghost use Rattle.clearing.specs.Ranged.{Ranged};

    /// An empty docket, with memory for all that a round can have open.
    pub fn new(heap: Global) -> Result<Docket, AllocError>
        ensures { IfOk result (λ d. d ≡ nothing_open) }
    {
        Ok(Docket {
            packages: BoundedVec::new(heap)?,
            bands: BoundedVec::new(heap)?,
            pairs: BoundedVec::new(heap)?,
            exclusions: BoundedVec::new(heap)?,
            limits: BoundedVec::new(heap)?,
        })
    }

    /// An empty docket again, with its memory.
    pub fn clear(&mut self)
        ensures { self.new ≡ nothing_open }
    {
        self.packages.clear();
        self.bands.clear();
        self.pairs.clear();
        self.exclusions.clear();
        self.limits.clear();
    }

    /// Makes the docket of what is open, priced by a rule; a price fault leaves the docket as it was.
    pub fn close<P: PriceRule>(&mut self, offers: &Offers, rule: &mut P) -> Result<(), Refusal>
        ensures answer { result ≡ (closing self.old offers.now (P.PriceRule.meaning rule.old)).answer }
        ensures after { self.new ≡ (closing self.old offers.now (P.PriceRule.meaning rule.old)).after }
        ensures same_rule { P.PriceRule.meaning rule.new ≡ P.PriceRule.meaning rule.old }
        // what a docket of a closing is, in words of the subject: laws of the definition that this call only carries
        ensures by_closing { result ≡ Ok tt → ByClosing self.new }
        ensures of_open { result ≡ Ok tt → OfOpen offers.now (P.PriceRule.meaning rule.old) self.new }
        ensures carries { IfErr result Carries }
    {
        let prices = price_all(&offers.packages, rule)?;
        copy_packages(&offers.packages, &prices, &mut self.packages);
        copy_bands(&offers.bands, &mut self.bands);
        copy_open(&offers.pairs, &mut self.pairs);
        copy_open(&offers.exclusions, &mut self.exclusions);
        copy_open(&offers.limits, &mut self.limits);
        Ok(())
    }

    /// What a choice takes. Its binary digits stand for the docket's packages, the lowest for the first.
    pub fn taken(&self, choice: u64) -> Taken<'_>
        ensures taken { still_taken result ≡ taken self.now.packages choice }
        ensures ranged { Ranged self.now }
    {
        Taken {
            packages: self.packages.as_slice(),
            digits: choice,
        }
    }
}
