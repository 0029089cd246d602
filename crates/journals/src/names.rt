//! The words that stand for calls, kinds of record, price rules and bounding rules.
ghost use Rattle.std.specs.Prelude.{◌≡◌};
ghost use Rattle.journals.specs.declared.wrongs.Wrong.TheVariants.{UnknownWord, UnknownKind, UnknownRule};
ghost use Rattle.journals.specs.Names.{case_named, verbs, kinds, stacks, bounding_rules};
ghost use Rattle.journals.specs.Readers.{unread, Gives, known, name_at};

use crate::words::Words;
use crate::wrongs::Wrong;
use bounds::Named;
use offers::Kind;

/// What a line begins with.
#[derive(Clone, Copy, PartialEq, Eq, Debug)]
pub enum Verb {
    File,
    Withdraw,
    CatchUp,
    Close,
    Search,
    Reopen,
    Award,
    Fees,
    Sheet,
}

/// The rule on top of a stack of price rules.
#[derive(Clone, Copy, PartialEq, Eq, Debug)]
pub enum Top {
    Filed,
    Place,
    Currency,
}

// The call that a word names.
fn verb_named(word: &[u8]) -> Option<Verb>
    ensures { result ≡ case_named verbs word.now }
{
    match word {
        b"file" => Some(Verb::File),
        b"withdraw" => Some(Verb::Withdraw),
        b"catch-up" => Some(Verb::CatchUp),
        b"close" => Some(Verb::Close),
        b"search" => Some(Verb::Search),
        b"reopen" => Some(Verb::Reopen),
        b"award" => Some(Verb::Award),
        b"fees" => Some(Verb::Fees),
        b"sheet" => Some(Verb::Sheet),
        _ => None,
    }
}

// The kind that a word names.
fn kind_named(word: &[u8]) -> Option<Kind>
    ensures { result ≡ case_named kinds word.now }
{
    match word {
        b"package" => Some(Kind::Package),
        b"band" => Some(Kind::Band),
        b"pair" => Some(Kind::Pair),
        b"exclusion" => Some(Kind::Exclusion),
        b"limit" => Some(Kind::Limit),
        _ => None,
    }
}

// The stack of price rules that a word names.
fn top_named(word: &[u8]) -> Option<Top>
    ensures { result ≡ case_named stacks word.now }
{
    match word {
        b"filed" => Some(Top::Filed),
        b"place" => Some(Top::Place),
        b"currency" => Some(Top::Currency),
        _ => None,
    }
}

// The bounding rule that a word names.
fn rule_named(word: &[u8]) -> Option<Named>
    ensures { result ≡ case_named bounding_rules word.now }
{
    match word {
        b"ceiling" => Some(Named::Ceiling),
        b"all-in" => Some(Named::AllIn),
        b"one-by-one" => Some(Named::OneByOne),
        b"limits" => Some(Named::Limits),
        b"shares" => Some(Named::Shares),
        b"tangent" => Some(Named::Tangent),
        _ => None,
    }
}

/// The call that a line's first word names.
pub fn call_verb(word: &[u8]) -> Result<Verb, Wrong>
    ensures { result ≡ known UnknownWord (case_named verbs word.now) }
{
    verb_named(word).ok_or(Wrong::UnknownWord)
}

/// The next word as a kind.
#[tactic(auto, unfolding(crate::specs::Readers::name_at))]
pub fn next_kind(words: &mut Words) -> Result<Kind, Wrong>
    ensures { Gives (λ kind. kind) result words.new (name_at UnknownKind kinds (unread words.old)) }
{
    kind_named(words.word()?).ok_or(Wrong::UnknownKind)
}

/// The next word as the rule on top of a stack of price rules.
#[tactic(auto, unfolding(crate::specs::Readers::name_at))]
pub fn next_top(words: &mut Words) -> Result<Top, Wrong>
    ensures { Gives (λ top. top) result words.new (name_at UnknownRule stacks (unread words.old)) }
{
    top_named(words.word()?).ok_or(Wrong::UnknownRule)
}

/// A word as a bounding rule.
pub fn bounding_rule(word: &[u8]) -> Result<Named, Wrong>
    ensures { result ≡ known UnknownRule (case_named bounding_rules word.now) }
{
    rule_named(word).ok_or(Wrong::UnknownRule)
}
