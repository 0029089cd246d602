//! The requests that lines ask for.
ghost use Rattle.std.specs.Prelude.{◌≡◌, IfOk, map};
ghost use Rattle.rounds.specs.Requests.{call_of};
ghost use Rattle.journals.specs.Calls.{meaning_of, call_said, shown_of};
ghost use Rattle.journals.specs.Lines.{said};
ghost use Rattle.journals.specs.Stacks.{plain_stack};

use crate::lines::{Line, Shown};
use crate::stacks::{Stack, Weighing, Zones};
use bounds::{BoundingRule, Chain, Named};
use offers::{BANDS, EXCLUSIONS, LIMITS, PACKAGES, PAIRS};
use pricing::{Currency, Filed, Place, PriceRule, Rates, ZoneNumbers};
use rounds::{OneOf, Request};
use std::alloc::{AllocError, Global};

/// The stacks of price rules that a line can name: filed, place on filed, currency on place on filed.
pub type Pricing = OneOf<Filed, OneOf<Place<Filed>, Currency<Place<Filed>>>>;

// The bytes of a sheet of a round that holds an offer under every number: for each kind so many fields of so many bytes.
const FULLEST: usize = PACKAGES * 36 + BANDS * 15 + PAIRS * 7 + EXCLUSIONS * 7 + LIMITS * 11;

impl Zones {
    // The numbers as the place rule holds them.
    fn numbers(self) -> ZoneNumbers
        ensures { result.numbers ≡ self.numbers }
    {
        match ZoneNumbers::new(self.numbers) {
            Ok(numbers) => numbers,
            Err(_) => unreachable!(),
        }
    }
}

impl Weighing {
    // The numbers as the currency rule holds them.
    fn rates(self) -> Rates
        ensures preference { result.preference ≡ self.preference }
        ensures expectation { result.expectation ≡ self.expectation }
    {
        match Rates::new(self.preference, self.expectation) {
            Ok(rates) => rates,
            Err(_) => unreachable!(),
        }
    }
}

impl Stack {
    /// The rules of the stack.
    pub fn pricing(self) -> Pricing
        ensures { ⟦<Pricing as PriceRule>⟧.meaning result ≡ meaning_of (plain_stack self) }
    {
        match self {
            Stack::Filed => OneOf::First(Filed),
            Stack::Place(zones) => OneOf::Second(OneOf::First(Place {
                numbers: zones.numbers(),
                below: Filed,
            })),
            Stack::Currency(weighing, zones) => OneOf::Second(OneOf::Second(Currency {
                rates: weighing.rates(),
                below: Place {
                    numbers: zones.numbers(),
                    below: Filed,
                },
            })),
        }
    }
}

impl Line {
    /// The request that the line asks for, with rows and buffers full of zeros.
    pub fn request(self, heap: Global) -> Result<Request<Pricing, Chain<Named>>, AllocError>
        ensures { IfOk result (λ request.
            call_of ⟦<Pricing as PriceRule>⟧.meaning ⟦<Chain<Named> as BoundingRule>⟧.answers request ≡ call_said (said self)) }
    {
        Ok(match self {
            Line::File(number, offer) => Request::File(number, offer),
            Line::Withdraw(kind, number) => Request::Withdraw(kind, number),
            Line::CatchUp(sheet) => Request::CatchUp(sheet),
            Line::Close(stack) => Request::Close(stack.pricing()),
            Line::Search(rules, steps) => Request::Search(rules, steps),
            Line::Reopen => Request::Reopen,
            Line::Award(length) => Request::ReadAward(vec![in heap; 0; length as usize]?),
            Line::Fees(rates, length) => {
                let row = vec![in heap; 0; length as usize]?;
                Request::ReadFees(rates, row)
            }
            Line::Sheet(length) => {
                let length = length.map_or(FULLEST, |length| length as usize);
                Request::WriteSheet(vec![in heap; 0; length]?)
            }
        })
    }

    /// What of its buffer is shown.
    pub fn shown(&self) -> Shown
        ensures { result ≡ shown_of (said self.now) }
    {
        match self {
            Line::Sheet(None) => Shown::Filled,
            _ => Shown::Whole,
        }
    }
}

/// What a run of a journal takes: a request for each line, and what is shown of its buffer.
#[derive(Drop)]
pub struct Plan {
    pub requests: Vec<Request<Pricing, Chain<Named>>>,
    pub shown: Vec<Shown>,
}

/// The requests of lines, in order.
pub fn planned(heap: Global, lines: Vec<Line>) -> Result<Plan, AllocError>
    ensures requests { IfOk result (λ plan.
        map (call_of ⟦<Pricing as PriceRule>⟧.meaning ⟦<Chain<Named> as BoundingRule>⟧.answers) plan.requests.items
        ≡ map call_said (map said lines.items)) }
    ensures shown { IfOk result (λ plan. plan.shown.items ≡ map shown_of (map said lines.items)) }
{
    let mut requests = Vec::new(heap);
    let mut shown = Vec::new(heap);
    for line in lines {
        shown.push(line.shown())?;
        requests.push(line.request(heap)?)?;
    }
    Ok(Plan { requests, shown })
}
