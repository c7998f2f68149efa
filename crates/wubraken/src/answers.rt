// A response in numbers, as other languages read it.
ghost use Rattle.std.specs.Prelude.{◌≡◌};
ghost use Rattle.wubraken.specs.Answers.{responded, answer_of};

use arrival::Response;
use arrival::refusals::Refusal;

// What an answer says, by its number.
#[derive(Clone, Copy, PartialEq, Eq, Debug)]
pub enum Kind {
    Open = 0,
    Begun = 1,
    On = 2,
    Stored = 3,
    Took = 4,
    Empty = 5,
    Refused = 6,
}

// `kind` is a `Kind`'s number, `number` the refusal's. What a response does not carry is 0.
// Kept as a number: C reads `kind` (host/include/wubraken.h), and an `Answer` is laid out as there.
#[repr(C)]
#[derive(Clone, Copy, Default)]
pub struct Answer {
    pub kind: u64,
    pub number: u64,
    pub ticket: u64,
    pub time: u64,
    pub path: u64,
    pub order: u64,
    pub distance: u64,
    pub energy: u64,
}

impl From<Response> for Answer {
    ghost from_gives = { λ response answer. answer ≡ answer_of response };

    fn from(response: Response) -> Answer {
        let none = Answer::default();
        match response {
            Response::Opened => Answer {
                kind: Kind::Open as u64,
                ..none
            },
            Response::Begun(ticket) => Answer {
                kind: Kind::Begun as u64,
                ticket,
                ..none
            },
            Response::On => Answer {
                kind: Kind::On as u64,
                ..none
            },
            Response::Stored(ticket) => Answer {
                kind: Kind::Stored as u64,
                ticket,
                ..none
            },
            Response::Took {
                time,
                path,
                order,
                distance,
                energy,
            } => Answer {
                kind: Kind::Took as u64,
                time,
                path,
                order,
                distance,
                energy,
                ..none
            },
            Response::Empty => Answer {
                kind: Kind::Empty as u64,
                ..none
            },
            Response::Refused(number) => Answer {
                kind: Kind::Refused as u64,
                number,
                ..none
            },
        }
    }
}

impl From<Result<Response, Refusal>> for Answer {
    ghost from_gives = { λ outcome answer. answer ≡ answer_of (responded outcome) };

    fn from(outcome: Result<Response, Refusal>) -> Answer {
        match outcome {
            Ok(response) => Answer::from(response),
            Err(refusal) => Answer::from(Response::from(refusal)),
        }
    }
}
