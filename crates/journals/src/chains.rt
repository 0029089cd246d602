//! Bounding rules joined, read from words.
ghost use Rattle.journals.specs.Readers.{unread, Reads};
ghost use Rattle.journals.specs.Chains.{joined_rules, chain_at};

use crate::names::bounding_rule;
use crate::parts::split_once;
use crate::words::Words;
use crate::wrongs::ReadError;
use bounds::{Chain, Named};
use std::alloc::Global;

/// The next word as rules joined by plus signs.
#[tactic(auto, unfolding(crate::specs::Chains::chain_at))]
pub fn chain(heap: Global, words: &mut Words) -> Result<Chain<Named>, ReadError>
    ensures { Reads (λ chain. (joined_rules chain, unread words.new)) result (chain_at (unread words.old)) }
{
    let (name, mut rest) = split_once(words.word()?, b'+');
    let first = bounding_rule(name)?;
    let mut others = Vec::new(heap);
    while let Some(names) = rest {
        let (name, more) = split_once(names, b'+');
        others.push(bounding_rule(name)?)?;
        rest = more;
    }
    Ok(Chain { first, others })
}
