//! Whole runs of requests, from an open and vacant round.
ghost use Rattle.std.specs.Prelude.{map, IfOk};
ghost use Rattle.rounds.specs.Requests.{call_of};
ghost use Rattle.rounds.specs.Replays.{Replays};

use crate::open_round::OpenRound;
use crate::requests::{Reply, Request, Round, serve};
use bounds::BoundingRule;
use offers::Offers;
use pricing::PriceRule;
use search::Position;
use std::alloc::{AllocError, Global};

/// Where a round stands between two calls.
#[derive(Clone, Copy)]
pub enum Stage {
    Open,
    Closed(Position),
    Awarded(Position),
}

/// A moment of a run: what a request was answered, and the round right after it.
#[derive(Drop)]
pub struct Moment {
    pub reply: Reply,
    pub offers: Offers,
    pub stage: Stage,
}

/// A whole run: the round in the end, and every moment of it.
#[derive(Drop)]
pub struct Run {
    pub round: Round,
    pub moments: Vec<Moment>,
}

/// Who wants to know how far a run is; `()` wants to know nothing.
pub trait Watch {
    /// Requests made of all.
    fn made(&mut self, requests: usize, all: usize);
}

impl Watch for () {
    fn made(&mut self, _requests: usize, _all: usize) {}
}

/// Makes a whole run from an open and vacant round, and keeps every moment of it.
pub fn replay<P: PriceRule + Drop, B: BoundingRule + Drop, W: Watch>(
    heap: Global,
    requests: Vec<Request<P, B>>,
    watch: &mut W,
) -> Result<Run, AllocError>
    ensures { IfOk result (Replays (map (call_of P.PriceRule.meaning B.BoundingRule.answers) requests.items)) }
{
    let all = requests.len();
    let mut round = Round::Open(OpenRound::new(heap)?);
    let mut moments = Vec::new(heap);
    for request in requests {
        let (next, reply) = serve(round, request);
        round = next;
        moments.push(Moment {
            reply,
            offers: round.offers(),
            stage: round.stage(),
        })?;
        watch.made(moments.len(), all);
    }
    Ok(Run { round, moments })
}
