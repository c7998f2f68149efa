// What dealing hands back.
ghost use Rattle.std.specs.Prelude.{◌≡◌};
ghost use Rattle.dealer.specs.Answered.{dealt_of};

use super::runs::Ended;
use wubraken::answers::Answer;

// The worker served last, how many turns were dealt, and the answer.
#[repr(C)]
#[derive(Clone, Copy)]
pub struct Dealt {
    pub dealer: u64,
    pub turns: u64,
    pub answer: Answer,
}

impl From<Ended> for Dealt {
    ghost from_gives = { λ ended dealt. dealt ≡ dealt_of ended };

    fn from(ended: Ended) -> Dealt {
        Dealt {
            dealer: ended.last,
            turns: ended.made,
            answer: Answer::from(ended.response),
        }
    }
}
