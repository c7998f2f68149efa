// What a start or a turn hands back.
ghost use Rattle.std.specs.Prelude.{◌≡◌};
ghost use Rattle.arrival.specs.Refusals.{number};
ghost use Rattle.words.specs.Done.{refuses, reply_of};

use arrival::refusals::Refusal;
use arrival::{Response, Worker};

// The worker's record, and the response.
#[derive(Drop)]
pub struct Reply {
    pub worker: Worker,
    pub response: Response,
}

// Refused by number k: the record stays.
pub fn refuse(w: Worker, k: u64) -> Reply
    ensures { result ≡ refuses w k }
{
    Reply {
        worker: w,
        response: Response::Refused(k),
    }
}

impl Reply {
    // Refused: the record stays.
    pub fn refused(w: Worker, refusal: Refusal) -> Reply
        ensures { result ≡ refuses w (number refusal) }
    {
        refuse(w, refusal.number())
    }

    // Of a start or turn of record w, or of its refusal.
    pub fn of(w: Worker, outcome: Result<Reply, Refusal>) -> Reply
        ensures { result ≡ reply_of w outcome }
    {
        match outcome {
            Ok(reply) => reply,
            Err(refusal) => Reply::refused(w, refusal),
        }
    }
}
