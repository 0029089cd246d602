//! A search for the best lawful choice: where it stands, and how it goes on. The rule is consulted on the next block, which is then
//! skipped, halved, or its one choice tried.
ghost use Rattle.std.specs.Prelude.{◌≡◌, ◌+◌, ◌^◌, ◌<◌, ◌≤◌, length};
ghost use Rattle.clearing.specs.Lawful.{choices};
ghost use Rattle.std.specs.Int.Count.{count_trailing_zeros};
ghost use Rattle.clearing.specs.Judging.{worth_of};
ghost use Rattle.search.specs.Search.{Standing, work_left, start_position, after_settling, after_halving, after_trial, StepsTo, RunsFrom};

use bounds::{Block, BoundingRule};
use clearing::{Docket, worth};
use std::marker::Model;

/// Where a search stands: the choices below `settled` are settled, and the leader is the best of them.
#[derive(Clone, Copy)]
pub struct Position {
    pub settled: u64,
    /// the free digits of the block that is next
    pub free: u8,
    pub leader: u64,
    /// pesos, of the leader
    pub surplus: i64,
}

impl Model for Position {
    ghost Value = { Standing };

    ghost view = { λ p. record { settled = p.settled; free = p.free; leader = p.leader; surplus = p.surplus } };

    ghost invariant = { λ p. record { within : p.settled ≤ 2 ^ 41; few : p.free ≤ 40 } };

    ghost inverse = { λ p. record { settled = p.settled; free = p.free; leader = p.leader; surplus = p.surplus } };
}

impl Position {
    /// A search begins with choice 0, which takes nothing, settled and leading.
    pub fn start() -> Position
        ensures { result ≡ start_position }
    {
        Position {
            settled: 1,
            free: 0,
            leader: 0,
            surplus: 0,
        }
    }

    /// Makes the steps that it is given, or fewer if every choice is settled before. As many steps as there are packages settle
    /// at least one choice, and a leader that was the best of the settled choices is so again.
    pub fn run<B: BoundingRule>(self, docket: &Docket, rule: &mut B, steps: u32) -> Position
        ensures runs { RunsFrom (B.BoundingRule.answers rule.old) docket.now steps self result }
        ensures falls { 0 < steps → self.settled < 2 ^ length docket.now.packages → work_left result < work_left self }
        ensures same_rule { B.BoundingRule.answers rule.new ≡ B.BoundingRule.answers rule.old }
    {
        let all = choices(docket);
        let mut at = self;
        for _ in 0..steps {
            if at.settled >= all {
                break;
            }
            at = at.step(docket, rule);
        }
        at
    }

    // One step of a search that is not finished.
    fn step<B: BoundingRule>(self, docket: &Docket, rule: &mut B) -> Position
        requires below { self.settled < 2 ^ 40 }
        requires few { choices docket.now ≤ 2 ^ 40 }
        ensures falls { work_left result < work_left self }
        ensures value { StepsTo (B.BoundingRule.answers rule.old) docket.now self result }
        ensures same_rule { B.BoundingRule.answers rule.new ≡ B.BoundingRule.answers rule.old }
    {
        let block = Block {
            first: self.settled,
            free: self.free,
        };
        match rule.consult(docket, block) {
            None => self.skip(),
            Some(cap) if cap <= self.surplus => self.skip(),
            Some(_) if self.free > 0 => self.halve(),
            Some(_) => self.try_choice(docket),
        }
    }

    // So many choices more are settled.
    fn settle(mut self, more: u64) -> Position
        requires { self.settled + more ≤ 2 ^ 41 }
        ensures count { result.settled ≡ self.settled + more }
        ensures value { 0 < self.settled + more → self.settled + more ≤ 2 ^ 40 → result ≡ after_settling self more }
    {
        self.settled += more;
        self.free = zero_digits(self.settled);
        self
    }

    /// The block is settled.
    pub(crate) fn skip(self) -> Position
        requires { self.settled < 2 ^ 40 }
        ensures falls { work_left result < work_left self }
        ensures value { self.settled + 2 ^ self.free ≤ 2 ^ 40 → result ≡ after_settling self (2 ^ self.free) }
    {
        self.settle(1u64 << self.free)
    }

    /// The first half of the block is next.
    pub(crate) fn halve(mut self) -> Position
        requires { 0 < self.free }
        ensures falls { work_left result < work_left self }
        ensures value { result ≡ after_halving self }
    {
        self.free -= 1;
        self
    }

    // The next choice leads if it is lawful and worth more than the leader.
    fn lead(mut self, docket: &Docket) -> Position
        ensures { result ≡ after_trial self (worth_of docket.now self.settled) }
    {
        if let Some(surplus) = worth(docket, self.settled)
            && surplus > self.surplus
        {
            self.leader = self.settled;
            self.surplus = surplus;
        }
        self
    }

    /// The one choice of the block leads if it is lawful and worth more than the leader, and it is settled.
    pub(crate) fn try_choice(self, docket: &Docket) -> Position
        requires { self.settled < 2 ^ 40 }
        ensures falls { work_left result < work_left self }
        ensures value { result ≡ after_settling (after_trial self (worth_of docket.now self.settled)) 1 }
    {
        self.lead(docket).settle(1)
    }
}

/// The choices of a docket.
pub fn choices(docket: &Docket) -> u64
    ensures value { result ≡ 2 ^ length docket.now.packages }
    ensures count { result ≡ choices docket.now }
    ensures bound { result ≤ 2 ^ 40 }
{
    1u64 << docket.packages.as_slice().len()
}

// The count of zero digits that end a choice number.
fn zero_digits(number: u64) -> u8
    ensures few { result ≤ 40 }
    ensures value { 0 < number → number ≤ 2 ^ 40 → result ≡ count_trailing_zeros 64 number }
{
    number.trailing_zeros().min(40) as u8
}
