// A run of dealt turns, by value: how it begins, and how it moves on from candidate to candidate.
ghost use Rattle.std.specs.Prelude.{◌≡◌, ◌<◌, is_ok};
ghost use Rattle.dealer.specs.Runs.{stopped_by, started_at, begun, passed_by, moved_on};

use super::asks::Ask;
use admission::gate;
use arrival::Response;
use arrival::refusals::Refusal;
use arrival::rounds::after;
use operation::goes_on;
use std::ops::ControlFlow;

// A run that goes on: the candidate to be looked at and how many are left with it, the worker served last, the turns made, the last response.
// Kept: 0 < rest and made < turns stay clauses, no ghost fields: started_at and passed_by of dealer/Runs are of every shape and limit, where neither need hold.
#[derive(Clone, Copy)]
pub struct Going {
    pub ask: Ask,
    pub at: usize,
    pub rest: u64,
    pub last: u64,
    pub made: u64,
    pub response: Response,
}

// One that has ended: the worker served last, the turns made, the last response; the candidate at which it stood, and how many were left with it.
// Kept: at and rest behind the others: in front of them narrow runs count 1 to 9 per cent more instructions.
#[derive(Clone, Copy)]
pub struct Ended {
    pub last: u64,
    pub made: u64,
    pub response: Response,
    pub at: usize,
    pub rest: u64,
}

impl Ask {
    // Before the first turn: past refusals 1 to 4, or ended by one of them.
    #[tactic(auto, using(crate::proofs::DealLoop::flag_tight), unfolding(crate::specs::Runs::begun))]
    pub fn begin(self, n: usize, seen: Result<u64, u64>, store: &[u64]) -> ControlFlow<Ended, Going>
        ensures { result ≡ begun self store.now n (is_ok seen) }
    {
        let idle = Ended {
            at: 0,
            rest: 0,
            last: self.dealer,
            made: 0,
            response: Response::On,
        };
        if self.turns == 0 {
            return ControlFlow::Break(idle);
        }
        let flag = self.flag_of(n, seen.is_ok(), store);
        match gate(self.shape, store.len(), n, self.dealer, flag) {
            Ok(()) => ControlFlow::Continue(Going::started_at(self, self.dealer, 0)),
            Err(refusal) => ControlFlow::Break(Ended {
                response: Response::from(refusal),
                ..idle
            }),
        }
    }
}

impl Going {
    // Behind worker `last`, with all workers as candidates.
    pub fn started_at(ask: Ask, last: u64, made: u64) -> Self
        ensures { result ≡ started_at ask last made }
    {
        Going {
            ask,
            at: after(last, ask.shape.workers) as usize,
            rest: ask.shape.workers,
            last,
            made,
            response: Response::On,
        }
    }

    // Ended where it stands.
    pub fn stopped_by(self, response: Response) -> Ended
        ensures { result ≡ stopped_by response self }
    {
        Ended {
            at: self.at,
            rest: self.rest,
            last: self.last,
            made: self.made,
            response,
        }
    }

    // The candidate has no call in progress: on to the next, if one is left.
    #[tactic(auto, unfolding(crate::specs::Runs::passed_by))]
    pub fn passed_by(self) -> ControlFlow<Ended, Going>
        requires { 0 < self.rest }
        ensures { result ≡ passed_by self }
    {
        if self.rest == 1 {
            return ControlFlow::Break(self.stopped_by(Response::from(Refusal::AllIdle)));
        }
        ControlFlow::Continue(Going {
            at: after(self.at as u64, self.ask.shape.workers) as usize,
            rest: self.rest - 1,
            ..self
        })
    }

    // Its turn was made: on to the next round, unless the run ends with it.
    #[tactic(auto, unfolding(crate::specs::Runs::moved_on))]
    pub fn moved_on(self, leak: bool, response: Response) -> ControlFlow<Ended, Going>
        requires { self.made < self.ask.turns }
        ensures { result ≡ moved_on self leak response }
    {
        let next = Going::started_at(self.ask, self.at as u64, self.made + 1);
        if (next.made == self.ask.turns) | !goes_on(response) {
            return ControlFlow::Break(next.stopped_by(response));
        }
        if leak {
            return ControlFlow::Break(next.stopped_by(Response::from(Refusal::OutOfRange)));
        }
        ControlFlow::Continue(next)
    }
}
