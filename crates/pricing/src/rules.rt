//! What every price rule owes, and a fault where it has no price.
ghost use Rattle.std.specs.Prelude.{◌≡◌, ℕ};
ghost use Rattle.pricing.specs.Prices.{Meaning, BoundedRule, checked_price};

use offers::Package;

/// A price outside -20,000,000,000 to 20,000,000,000 pesos: the depth of the rule that came to it, the lowest being 1.
#[derive(Clone, Copy, PartialEq, Eq, Debug)]
pub struct Fault {
    pub depth: u8,
}

/// A price rule means one price or fault for each package record. It may keep what it worked out, but not change its meaning.
pub trait PriceRule {
    ghost meaning: { Self → Meaning };

    ghost level: { Self → ℕ };

    /// The price of a package in pesos.
    fn price(&mut self, terms: &Package) -> Result<i64, Fault>
        ensures answer { result ≡ meaning self.old terms.now }
        ensures same { meaning self.new ≡ meaning self.old }
        ensures same_level { level self.new ≡ level self.old };

    /// How far up the stack the rule stands, the lowest being 1; a byte that wraps.
    fn depth(&self) -> u8
        ensures { result ≡ level self.now };

    ghost bounded: { (s : Self) → BoundedRule (meaning s) };
}

/// A price that the rule at some depth came to, or its fault where that lies outside.
pub fn checked(depth: u8, price: i64) -> Result<i64, Fault>
    ensures { result ≡ checked_price depth price }
{
    if (-20_000_000_000..=20_000_000_000).contains(&price) {
        Ok(price)
    } else {
        Err(Fault { depth })
    }
}
