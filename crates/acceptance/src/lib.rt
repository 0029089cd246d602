//! What a round accepts, refuses, prices and awards, tested over all layers; and the worked rounds, proved.
#![tactic(auto)]

ghost use Rattle.std.specs.Prelude.{◌≡◌};
ghost use Rattle.pricing.specs.Prices.{stack_price};
ghost use Rattle.acceptance.specs.WorkedRounds.{WorkedRounds};

#[cfg(test)]
mod awards;
#[cfg(test)]
mod failing;
#[cfg(test)]
mod failures;
#[cfg(test)]
mod fees_charged;
#[cfg(test)]
mod filing;
#[cfg(test)]
mod fixtures;
#[cfg(test)]
mod lawfulness;
#[cfg(test)]
mod prices;
#[cfg(test)]
mod ranges;
#[cfg(test)]
mod runs;
#[cfg(test)]
mod sheet_fields;
#[cfg(test)]
mod texts;
#[cfg(test)]
mod variations;
#[cfg(test)]
mod worked_rounds;

use offers::Package;
use pricing::{Currency, Filed, Place, PriceRule};

/// The definitions come to what the worked rounds say. This is its proof.
pub fn all_rounds()
    ensures { WorkedRounds }
{}

/// Currency on place on filed means the price of the round's own stack, by the numbers that its rules hold. So the tenth
/// worked round is about these rules.
pub fn stack_means(stack: &Currency<Place<Filed>>)
    ensures { (p : Package) → ⟦<Currency<Place<Filed>> as PriceRule>⟧.meaning stack.now p
        ≡ stack_price stack.now.rates.preference stack.now.rates.expectation stack.now.below.numbers.numbers p }
{}
