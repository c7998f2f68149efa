// What an action and a request are of, and what a request asks of the look at the lent memory.
ghost use Rattle.std.specs.Prelude.{◌≡◌};
ghost use Rattle.arrival.specs.Requests.{actor, action_of, turns_of, is_whole, looks_at_all};

use super::{Action, Request};

impl Action {
    // The worker that it is of.
    pub fn worker(self) -> u64
        ensures { result ≡ actor self }
    {
        match self {
            Action::Enqueue(i, _) | Action::Dequeue(i) | Action::Step(i) => i,
        }
    }
}

impl Request {
    // The start or turn that is asked for.
    pub fn action(self) -> Action
        ensures { result ≡ action_of self }
    {
        match self {
            Request::Whole(action) | Request::Narrow(action, _) => action,
        }
    }

    // How many turns may follow it.
    pub fn turns(self) -> u64
        ensures { result ≡ turns_of self }
    {
        match self {
            Request::Whole(_) => 0,
            Request::Narrow(_, turns) => turns,
        }
    }

    // Whether all lent memory is looked at.
    pub fn is_whole(self) -> bool
        ensures { result ≡ is_whole self }
    {
        matches!(self, Request::Whole(_))
    }

    // Whether every worker's record is.
    pub fn looks_at_all(self) -> bool
        ensures { result ≡ looks_at_all self }
    {
        matches!(
            self,
            Request::Whole(_) | Request::Narrow(Action::Enqueue(_, _), _)
        )
    }
}
