// The by-value turn: one worker's record and the lent store, a function for each stage.
// Kept: each stage requires Ready, and no type holds it: a turn may leave its record out of range (operation/src/leaks.rt).
#![tactic(auto)]

ghost use Rattle.std.specs.Prelude.{◌≡◌, ◌≤◌};
ghost use Rattle.words.specs.Done.{left, gives, reply_of};
ghost use Rattle.words.specs.Kept.{Kept};
ghost use Rattle.stages.specs.Gives.{goes_on, answers};
ghost use Rattle.stages.specs.LocalStep.{local_step};
ghost use Rattle.stages.specs.Ready.{Ready};

use arrival::refusals::Refusal;
use arrival::{Response, Shape, Worker};
use words::replies::Reply;
use words::store::Store;

pub mod dequeue;
pub mod enqueue;
pub mod search;

// The call goes on at stage k.
pub fn go_on(k: u64, w: Worker) -> Reply
    ensures { result ≡ goes_on k w }
{
    Reply {
        worker: Worker { stage: k, ..w },
        response: Response::On,
    }
}

// The call is answered.
pub fn answer(w: Worker, response: Response) -> Reply
    ensures { result ≡ answers w response }
{
    Reply {
        worker: Worker { stage: 0, ..w },
        response,
    }
}

// One turn, by the record's stage.
// Kept: no Store, which would ask more than `requires` does: past stage 13 a turn is refused on any lent memory.
#[tactic(auto, using(crate::specs::LocalStep::at_none))]
pub fn step(shape: Shape, w: Worker, store: &mut [u64]) -> Result<Reply, Refusal>
    requires { w.stage ≤ 13 → Ready shape store.old w }
    ensures { gives store.new (reply_of w result) ≡ local_step shape store.old w }
{
    if 13 < w.stage {
        return Err(Refusal::OutOfRange);
    }
    turn(
        w,
        &mut Store {
            shape,
            words: store,
        },
    )
}

// The same on a laid store, with one jump for all stages.
#[tactic(auto, using(crate::specs::LocalStep::at_idle, crate::specs::LocalStep::at_seven, crate::specs::LocalStep::at_none))]
pub fn turn(w: Worker, store: &mut Store<'_>) -> Result<Reply, Refusal>
    requires { Ready store.old.shape store.old.words.now w }
    ensures kept { Kept store.old store.new }
    ensures gives { left store.new (reply_of w result) ≡ local_step store.old.shape store.old.words.now w }
{
    // Kept: a match on numbers: stages have no names (docs/RULES.md, I to K), and closures in a table would hide which of them only read.
    match w.stage {
        0 => Err(Refusal::Idle),
        1 => Ok(search::step_1(w, &store.view())),
        2 => Ok(search::step_2(w, &store.view())),
        3 => Ok(search::step_3(w, store)),
        4 => Ok(enqueue::step_4(w, store)),
        5 => Ok(enqueue::step_5(w, store)),
        6 => Ok(enqueue::step_6(w, &store.view())),
        7 => enqueue::step_7(w, store),
        8 => Ok(dequeue::step_8(w, &store.view())),
        9 => Ok(dequeue::step_9(w, &store.view())),
        10 => Ok(dequeue::step_10(w, &store.view())),
        11 => Ok(dequeue::step_11(w, store)),
        12 => Ok(dequeue::step_12(w, store)),
        13 => Ok(dequeue::step_13(w, &store.view())),
        _ => Err(Refusal::OutOfRange),
    }
}
