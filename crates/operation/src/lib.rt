// What is done to one record, by value, after refusals 1 to 4, once or with turns behind it; and opening the store.
#![tactic(auto)]

ghost use Rattle.std.specs.Prelude.{◌≡◌, cond, ◌≤◌, eqb, length};
ghost use Rattle.arrival.specs.Refusals.{refusal_of};
ghost use Rattle.admission.specs.Gate.{open_gate};
ghost use Rattle.calendar.specs.rules.Opening.{open_store};
ghost use Rattle.calendar.specs.rules.NarrowCalls.{goes_on};
ghost use Rattle.words.specs.Done.{left, reply_of};
ghost use Rattle.words.specs.Kept.{Kept};
ghost use Rattle.operation.specs.LocalAct.{Admitted, local_act};
ghost use Rattle.operation.specs.LocalTurns.{local_turns};

use admission::open_gate;
use admission::ranges::links_in_range;
use arrival::refusals::Refusal;
use arrival::{Action, Response, Shape, Worker};
use stages::turn;
use starts::opening::open_store;
use starts::{start_dequeue, start_enqueue};
use words::replies::Reply;
use words::store::Store;

pub mod leaks;

// The action on its worker's record w; low: the least ticket in progress, which only a put asks for.
#[tactic(auto, using(crate::proofs::LocalAct::local_enqueue_lem, crate::proofs::LocalAct::local_dequeue_lem, crate::proofs::LocalAct::local_step_lem))]
pub fn perform(low: u64, action: Action, w: Worker, store: &mut Store<'_>) -> Result<Reply, Refusal>
    requires admitted { Admitted store.old.shape store.old.words.now w }
    requires low_bound { low ≤ 4294967296 }
    ensures kept { Kept store.old store.new }
    ensures gives { left store.new (reply_of w result) ≡ local_act store.old.shape low store.old.words.now action w }
{
    match action {
        Action::Enqueue(_, arrival) => start_enqueue(low, arrival, w, store),
        Action::Dequeue(_) => start_dequeue(w, store),
        Action::Step(_) => turn(w, store),
    }
}

// Whether a call goes on after this.
pub fn goes_on(response: Response) -> bool
    ensures { result ≡ goes_on response }
{
    matches!(response, Response::Begun(_) | Response::On)
}

// The action, and while the call goes on at most `turns` turns more. Of a record that a turn has left only the links can be out of range.
// Kept: one call of `perform` in a loop that counts, which compiles it in: a `for` behind a first call ran 2.4 times the instructions.
pub fn perform_turns(
    low: u64,
    mut action: Action,
    turns: u64,
    mut w: Worker,
    store: &mut Store<'_>,
) -> Reply
    requires admitted { Admitted store.old.shape store.old.words.now w }
    requires low_bound { low ≤ 4294967296 }
    ensures kept { Kept store.old store.new }
    ensures gives { left store.new result ≡ local_turns store.old.shape turns (local_act store.old.shape low store.old.words.now action w) }
{
    let step = Action::Step(action.worker());
    let mut left = turns;
    loop {
        let reply = Reply::of(w, perform(low, action, w, store));
        if (left == 0) | !goes_on(reply.response) {
            return reply;
        }
        w = reply.worker;
        if !links_in_range(store.shape, w) {
            return Reply::refused(w, Refusal::OutOfRange);
        }
        action = step;
        left -= 1;
    }
}

// Opens the store for a shape, unless the opening is refused.
#[tactic(auto, using(admission::proofs::GateLaws::open_passed, words::specs::Laid::laid))]
pub fn open_lent(shape: Shape, records: usize, store: &mut [u64]) -> Result<(), Refusal>
    ensures refused { refusal_of result ≡ open_gate shape (length store.old) records }
    ensures opened { store.new ≡ cond (eqb (open_gate shape (length store.old) records) 0) (open_store shape store.old) store.old }
{
    open_gate(shape, store.len(), records)?;
    open_store(&mut Store {
        shape,
        words: store,
    });
    Ok(())
}
