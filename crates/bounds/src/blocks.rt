//! A block of choices, and what every bounding rule owes.
ghost use Rattle.std.specs.Prelude.{◌≡◌, ◌^◌, ◌<◌, ◌≤◌};
ghost use Rattle.bounds.specs.Blocks.{Span};

use clearing::Docket;
use std::marker::Model;

/// The choices that differ from the first in its lowest digits only: as many as are free, 0 in it.
#[derive(Clone, Copy)]
pub struct Block {
    pub first: u64,
    pub free: u8,
}

impl Model for Block {
    ghost Value = { Span };

    ghost view = { λ b. record { first = b.first; free = b.free } };

    ghost invariant = { λ b. record { low : b.first < 2 ^ 40; few : b.free ≤ 40 } };

    ghost inverse = { λ b. record { first = b.first; free = b.free } };
}

impl Block {
    ghost use Rattle.bounds.specs.Blocks.{last_of};

    /// The choice of the block that takes all free packages.
    pub fn last(self) -> u64
        ensures { result ≡ last_of self }
    {
        self.first + ((1u64 << self.free) - 1)
    }
}

/// A cap above every surplus, in pesos: none is above 64,000,800,000,000,000.
pub const CEILING: i64 = 100_000_000_000_000_000;

/// A bounding rule means one answer for each docket and block of it: a cap in pesos, at least the surplus of every lawful
/// choice in the block, or `None`: there is no lawful choice in it. It may keep what it worked out, but not change its
/// meaning.
pub trait BoundingRule {
    ghost use Rattle.bounds.specs.Blocks.{Answers, SoundRule, InDocket};

    ghost answers: { Self → Answers };

    fn consult(&mut self, docket: &Docket, block: Block) -> Option<i64>
        ensures answer { InDocket docket.now block → result ≡ answers self.old docket.now block }
        ensures same { answers self.new ≡ answers self.old };

    ghost sound: { (s : Self) → SoundRule (answers s) };
}
