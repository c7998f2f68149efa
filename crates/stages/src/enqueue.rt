// Stages 4 to 7: a put after its search.
ghost use Rattle.std.specs.Prelude.{◌≡◌};
ghost use Rattle.calendar.specs.rules.EnqueueSteps.{step_4, step_5, step_6};
ghost use Rattle.words.specs.Done.{left, by, reply_of};
ghost use Rattle.words.specs.Kept.{Kept};
ghost use Rattle.stages.specs.Gives.{shown, shown_by};
ghost use Rattle.stages.specs.LocalStep.{local_step_7};
ghost use Rattle.stages.specs.Ready.{Ready};

use super::{answer, go_on};
use arrival::refusals::Refusal;
use arrival::{Response, Worker};
use words::field::Field;
use words::replies::Reply;
use words::store::{Store, View};
use words::word;
use words::word::Word;

#[tactic(auto, unfolding(calendar::specs::rules::EnqueueSteps::step_4))]
pub fn step_4(mut w: Worker, store: &mut Store<'_>) -> Reply
    requires { Ready store.old.shape store.old.words.now w }
    ensures kept { Kept store.old store.new }
    ensures gives { left store.new result ≡ by step_4 store.old w }
{
    let current = store.view().word(Word::Current);
    store.set_field(Field::Epoch, w.own, current % word::COUNTS);
    store.set_cell(store.shape.buckets + w.own, 2 * w.right);
    w.current = current;
    go_on(5, w)
}

#[tactic(auto, unfolding(calendar::specs::rules::EnqueueSteps::step_5))]
pub fn step_5(w: Worker, store: &mut Store<'_>) -> Reply
    requires { Ready store.old.shape store.old.words.now w }
    ensures kept { Kept store.old store.new }
    ensures gives { left store.new result ≡ by step_5 store.old w }
{
    if store.view().cell(w.left) == 2 * w.right {
        store.set_cell(w.left, 2 * w.own);
        go_on(6, w)
    } else {
        go_on(1, w)
    }
}

#[tactic(auto, unfolding(calendar::specs::rules::EnqueueSteps::step_6))]
pub fn step_6(mut w: Worker, view: &View<'_>) -> Reply
    requires { Ready view.now.shape view.now.words.now w }
    ensures { shown view.now result ≡ shown_by step_6 view.now w }
{
    let current = view.word(Word::Current);
    w.current = current;
    if current / word::COUNTS < w.bucket {
        answer(w, Response::Stored(w.ticket))
    } else {
        go_on(7, w)
    }
}

// The one stage with a refusal of its own: where the epoch is the last and the swap would succeed.
#[tactic(auto, unfolding(calendar::specs::rules::EnqueueSteps::step_7))]
pub fn step_7(w: Worker, store: &mut Store<'_>) -> Result<Reply, Refusal>
    requires { Ready store.old.shape store.old.words.now w }
    ensures kept { Kept store.old store.new }
    ensures gives { left store.new (reply_of w result) ≡ local_step_7 store.old.shape store.old.words.now w }
{
    let epoch = w.current % word::COUNTS;
    if store.view().word(Word::Current) != w.current {
        return Ok(go_on(6, w));
    }
    if epoch == word::MAX_COUNT {
        return Err(Refusal::Exhausted);
    }
    store.set_word(Word::Current, w.bucket * word::COUNTS + (epoch + 1));
    Ok(answer(w, Response::Stored(w.ticket)))
}
