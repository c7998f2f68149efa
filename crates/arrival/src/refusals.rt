// Why an opening, a start or a turn is refused.
ghost use Rattle.std.specs.Prelude.{◌≡◌};
ghost use Rattle.arrival.specs.declared.Response.TheVariants.{Refused};
ghost use Rattle.arrival.specs.Refusals.{number};

use super::Response;

// The reasons by their numbers, the lowest first, which is the one that is answered. 6 is not given since Q-1; 7 and 8 are of turn files.
#[derive(Clone, Copy, PartialEq, Eq, Debug)]
pub enum Refusal {
    BadShape = 1,
    TooShort = 2,
    OutOfRange = 3,
    NoWorker = 4,
    BadArrival = 5,
    Busy = 9,
    Idle = 10,
    Exhausted = 11,
    NoNode = 12,
    AllIdle = 16,
}

impl Refusal {
    pub fn number(self) -> u64
        ensures { result ≡ number self }
    {
        self as u64
    }
}

impl From<Refusal> for Response {
    ghost from_gives = { λ refusal r. r ≡ Refused (number refusal) };

    fn from(refusal: Refusal) -> Response {
        Response::Refused(refusal.number())
    }
}
