//! Requests to a round in whatever state.
ghost use Rattle.std.specs.Prelude.{◌≡◌};
ghost use Rattle.rounds.specs.Model.{step};
ghost use Rattle.rounds.specs.Requests.{of_round, call_of, gave_reply};
ghost use Rattle.rounds.specs.Views.{of_open, of_closed, of_awarded, Serves};

use crate::awarded_round::{Award, AwardedRound};
use crate::closed_round::{ClosedRound, Searched};
use crate::open_round::OpenRound;
use crate::replays::Stage;
use bounds::BoundingRule;
use fees::FeeRates;
use offers::{Kind, Offer, Offers, Refusal};
use pricing::PriceRule;

/// A round in any state.
#[derive(Drop)]
pub enum Round {
    Open(OpenRound),
    Closed(ClosedRound),
    Awarded(AwardedRound),
}

impl Round {
    ghost use Rattle.rounds.specs.Model.{stage_in};
    ghost use Rattle.rounds.specs.Replays.{of_stage};

    /// What the round holds.
    pub fn offers(&self) -> Offers
        ensures { result ≡ (of_round self.now).entries }
    {
        match self {
            Round::Open(round) => round.offers,
            Round::Closed(round) => round.offers,
            Round::Awarded(round) => round.offers,
        }
    }

    /// Where it stands.
    pub fn stage(&self) -> Stage
        ensures { of_stage result ≡ stage_in (of_round self.now).state }
    {
        match self {
            Round::Open(_) => Stage::Open,
            Round::Closed(round) => Stage::Closed(round.at),
            Round::Awarded(round) => Stage::Awarded(round.at),
        }
    }
}

/// What a caller asks, with the rules and buffers for it.
#[derive(Drop)]
pub enum Request<P, B> {
    File(u8, Offer),
    Withdraw(Kind, u8),
    CatchUp(Vec<u8>),
    Close(P),
    Search(B, u32),
    Reopen,
    ReadAward(Vec<u64>),
    ReadFees(FeeRates, Vec<u64>),
    WriteSheet(Vec<u8>),
}

/// What it is answered, with its row or buffer as the call left it; one that comes with a call that is not taken is not given back.
#[derive(Drop)]
pub enum Reply {
    Done(Result<(), Refusal>),
    Found(Result<(u64, i64), Refusal>),
    Reopened,
    Awarded(Result<Award, Refusal>, Vec<u64>),
    Charged(Result<u64, Refusal>, Vec<u64>),
    Written(Result<usize, Refusal>, Vec<u8>),
    NotTaken,
}

/// One request to a round in whatever state.
pub fn serve<P: PriceRule + Drop, B: BoundingRule + Drop>(
    round: Round,
    request: Request<P, B>,
) -> (Round, Reply)
    ensures { Serves (of_round round) (call_of P.PriceRule.meaning B.BoundingRule.answers request) (gave_reply result) }
{
    match round {
        Round::Open(open) => serve_open(open, request),
        Round::Closed(closed) => serve_closed(closed, request),
        Round::Awarded(awarded) => serve_awarded(awarded, request),
    }
}

// A request to an open round.
fn serve_open<P: PriceRule + Drop, B: BoundingRule + Drop>(
    mut round: OpenRound,
    request: Request<P, B>,
) -> (Round, Reply)
    ensures { gave_reply result ≡ step (of_open round) (call_of P.PriceRule.meaning B.BoundingRule.answers request) }
{
    match request {
        Request::File(number, offer) => {
            let answer = round.file(number, offer);
            (Round::Open(round), Reply::Done(answer))
        }
        Request::Withdraw(kind, number) => {
            let answer = round.withdraw(kind, number);
            (Round::Open(round), Reply::Done(answer))
        }
        Request::CatchUp(sheet) => {
            let answer = round.catch_up(&sheet);
            (Round::Open(round), Reply::Done(answer))
        }
        Request::Close(mut rule) => match round.close(&mut rule) {
            Ok(closed) => (Round::Closed(closed), Reply::Done(Ok(()))),
            Err((open, refusal)) => (Round::Open(open), Reply::Done(Err(refusal))),
        },
        Request::WriteSheet(mut buffer) => {
            let answer = round.write_sheet(&mut buffer);
            (Round::Open(round), Reply::Written(answer, buffer))
        }
        _ => (Round::Open(round), Reply::NotTaken),
    }
}

// A request to a closed round.
fn serve_closed<P: PriceRule + Drop, B: BoundingRule + Drop>(
    round: ClosedRound,
    request: Request<P, B>,
) -> (Round, Reply)
    ensures { gave_reply result ≡ step (of_closed round) (call_of P.PriceRule.meaning B.BoundingRule.answers request) }
{
    match request {
        Request::Search(mut rule, steps) => {
            let (next, answer) = round.search(&mut rule, steps);
            let next = match next {
                Searched::Closed(closed) => Round::Closed(closed),
                Searched::Awarded(awarded) => Round::Awarded(awarded),
            };
            (next, Reply::Found(answer))
        }
        Request::Reopen => (Round::Open(round.reopen()), Reply::Reopened),
        Request::WriteSheet(mut buffer) => {
            let answer = round.write_sheet(&mut buffer);
            (Round::Closed(round), Reply::Written(answer, buffer))
        }
        _ => (Round::Closed(round), Reply::NotTaken),
    }
}

// A request to an awarded round.
fn serve_awarded<P: PriceRule + Drop, B: BoundingRule + Drop>(
    round: AwardedRound,
    request: Request<P, B>,
) -> (Round, Reply)
    ensures { gave_reply result ≡ step (of_awarded round) (call_of P.PriceRule.meaning B.BoundingRule.answers request) }
{
    match request {
        Request::ReadAward(mut row) => {
            let answer = round.award(&mut row);
            (Round::Awarded(round), Reply::Awarded(answer, row))
        }
        Request::ReadFees(rates, mut row) => {
            let answer = round.fees(rates, &mut row);
            (Round::Awarded(round), Reply::Charged(answer, row))
        }
        Request::Reopen => (Round::Open(round.reopen()), Reply::Reopened),
        Request::WriteSheet(mut buffer) => {
            let answer = round.write_sheet(&mut buffer);
            (Round::Awarded(round), Reply::Written(answer, buffer))
        }
        _ => (Round::Awarded(round), Reply::NotTaken),
    }
}
