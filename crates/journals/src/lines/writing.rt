//! A line, written as its text.
ghost use Rattle.std.specs.Prelude.{◌≡◌, Some};
ghost use Rattle.offers.specs.Tables.{package_layout};
ghost use Rattle.journals.specs.Chains.{joined_rules};
ghost use Rattle.journals.specs.Lines.{said};
ghost use Rattle.journals.specs.Stacks.{plain_stack};
ghost use Rattle.journals.specs.Texts.{behind, kind_word, rule_word, kind_of, record_words, offer_words, zone_words, stack_words, rules_word, line_text};

use crate::answers::Behind;
use crate::lines::Line;
use crate::stacks::{Stack, Zones};
use bounds::{Chain, Named};
use offers::{Kind, Offer, Package};
use std::fmt;

// The word for a kind.
fn kind_word(kind: Kind) -> &'static str
    ensures { result.now ≡ kind_word kind }
{
    match kind {
        Kind::Package => "package",
        Kind::Band => "band",
        Kind::Pair => "pair",
        Kind::Exclusion => "exclusion",
        Kind::Limit => "limit",
    }
}

// The word for a bounding rule.
fn rule_word(rule: Named) -> &'static str
    ensures { result.now ≡ rule_word rule }
{
    match rule {
        Named::Ceiling => "ceiling",
        Named::AllIn => "all-in",
        Named::OneByOne => "one-by-one",
        Named::Limits => "limits",
        Named::Shares => "shares",
        Named::Tangent => "tangent",
    }
}

// The kind of a record.
fn kind_of(offer: &Offer) -> Kind
    ensures { result ≡ kind_of offer.now }
{
    match offer {
        Offer::Package(_) => Kind::Package,
        Offer::Band(_) => Kind::Band,
        Offer::Pair(_) => Kind::Pair,
        Offer::Exclusion(_) => Kind::Exclusion,
        Offer::Limit(_) => Kind::Limit,
    }
}

// The fields of a package, each behind a space.
#[derive(Clone, Copy)]
struct PackageWords<'a>(&'a Package);

impl fmt::Display for PackageWords<'_> {
    ghost output = { λ fields. Some (behind (record_words package_layout fields.0.now)) };

    fn fmt<W: fmt::Write>(&self, f: &mut fmt::Formatter<W>) -> fmt::Result {
        let p = self.0;
        write!(f, " {} {} {}", p.power, p.energy, p.certificates)?;
        write!(f, " {} {}", p.nameplate, p.price)?;
        write!(f, " {} {}", p.power_zone, p.interconnection_zone)?;
        write!(f, " {} {}", p.export_zone, p.price_zone)?;
        write!(f, " {} {} {}", p.date, p.unqualified, p.dollar)
    }
}

// The fields of a record, each behind a space.
#[derive(Clone, Copy)]
struct FieldWords<'a>(&'a Offer);

impl fmt::Display for FieldWords<'_> {
    ghost output = { λ fields. Some (behind (offer_words fields.0.now)) };

    fn fmt<W: fmt::Write>(&self, f: &mut fmt::Formatter<W>) -> fmt::Result {
        match self.0 {
            Offer::Package(package) => write!(f, "{}", PackageWords(package)),
            Offer::Band(b) => write!(f, " {} {} {} {}", b.market, b.quantity, b.price, b.buyer),
            Offer::Pair(p) => write!(f, " {} {}", p.dependent, p.needed),
            Offer::Exclusion(e) => write!(f, " {} {}", e.group, e.member),
            Offer::Limit(l) => write!(f, " {} {} {}", l.sort, l.zone, l.amount),
        }
    }
}

// A number for each price zone, each behind a space.
#[derive(Clone, Copy)]
struct ZoneWords(Zones);

impl fmt::Display for ZoneWords {
    ghost output = { λ zones. Some (behind (zone_words zones.0.numbers)) };

    fn fmt<W: fmt::Write>(&self, f: &mut fmt::Formatter<W>) -> fmt::Result {
        for number in &self.0.numbers {
            write!(f, " {number}")?;
        }
        Ok(())
    }
}

// A stack of price rules, behind a space.
#[derive(Clone, Copy)]
struct StackWords(Stack);

impl fmt::Display for StackWords {
    ghost output = { λ stack. Some (behind (stack_words (plain_stack stack.0))) };

    fn fmt<W: fmt::Write>(&self, f: &mut fmt::Formatter<W>) -> fmt::Result {
        match self.0 {
            Stack::Filed => write!(f, " filed"),
            Stack::Place(zones) => write!(f, " place{}", ZoneWords(zones)),
            Stack::Currency(weighing, zones) => {
                let (preference, expectation) = (weighing.preference, weighing.expectation);
                write!(
                    f,
                    " currency {preference} {expectation}{}",
                    ZoneWords(zones)
                )
            }
        }
    }
}

// Bounding rules joined by plus signs.
#[derive(Clone, Copy)]
struct Joined<'a>(&'a Chain<Named>);

impl fmt::Display for Joined<'_> {
    ghost output = { λ chain. Some (rules_word (joined_rules chain.0.now)) };

    fn fmt<W: fmt::Write>(&self, f: &mut fmt::Formatter<W>) -> fmt::Result {
        write!(f, "{}", rule_word(self.0.first))?;
        for other in &self.0.others {
            write!(f, "+{}", rule_word(*other))?;
        }
        Ok(())
    }
}

impl fmt::Display for Line {
    ghost output = { λ line. Some (line_text (said line)) };

    fn fmt<W: fmt::Write>(&self, f: &mut fmt::Formatter<W>) -> fmt::Result {
        match self {
            Line::File(number, offer) => {
                let kind = kind_word(kind_of(offer));
                write!(f, "file {kind} {number}{}", FieldWords(offer))
            }
            Line::Withdraw(kind, number) => {
                let kind = kind_word(*kind);
                write!(f, "withdraw {kind} {number}")
            }
            Line::CatchUp(bytes) => write!(f, "catch-up{}", Behind(bytes)),
            Line::Close(stack) => write!(f, "close{}", StackWords(*stack)),
            Line::Search(rules, steps) => write!(f, "search {} {steps}", Joined(rules)),
            Line::Reopen => write!(f, "reopen"),
            Line::Award(length) => write!(f, "award {length}"),
            Line::Fees(rates, length) => {
                let (first, second, third) = (rates.first, rates.second, rates.third);
                write!(f, "fees {first} {second} {third} {length}")
            }
            Line::Sheet(Some(length)) => write!(f, "sheet {length}"),
            Line::Sheet(None) => write!(f, "sheet"),
        }
    }
}
