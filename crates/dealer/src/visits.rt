// One candidate: its record is looked at, and its turn is made if it has a call in progress.
ghost use Rattle.std.specs.Prelude.{◌≡◌};
ghost use Rattle.dealer.specs.Runs.{Visitable, visits, visited};

use super::runs::{Ended, Going};
use arrival::refusals::Refusal;
use arrival::{Response, Worker};
use stages::step;
use std::ops::ControlFlow;
use words::replies::Reply;

impl Going {
    #[tactic(auto, unfolding(crate::specs::Runs::visited))]
    pub fn look_at(self, w: &mut Worker, store: &mut [u64]) -> ControlFlow<Ended, Going>
        requires { Visitable self store.old w.old }
        ensures { visits store.new w.new result ≡ visited self store.old w.old }
    {
        if w.stage == 0 {
            return self.passed_by();
        }
        if !self.ask.may_turn(*w) {
            return ControlFlow::Break(self.stopped_by(Response::from(Refusal::OutOfRange)));
        }
        let leak = self.ask.leaks_of(*w, store);
        let reply = Reply::of(*w, step(self.ask.shape, *w, store));
        *w = reply.worker;
        self.moved_on(leak, reply.response)
    }
}
