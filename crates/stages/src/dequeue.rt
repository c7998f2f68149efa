// Stages 8 to 13: a take.
ghost use Rattle.std.specs.Prelude.{◌≡◌, ◌<◌};
ghost use Rattle.calendar.specs.rules.DequeueSteps.{walk, step_8, step_9, step_10, step_11, step_12, step_13};
ghost use Rattle.words.specs.Done.{left, by};
ghost use Rattle.words.specs.Kept.{Kept};
ghost use Rattle.stages.specs.Gives.{share, shown, shown_by};
ghost use Rattle.stages.specs.Ready.{Ready};

use super::{answer, go_on};
use arrival::{Response, Worker};
use words::field::Field;
use words::replies::Reply;
use words::store::{Store, View};
use words::word;
use words::word::Word;

#[tactic(auto, unfolding(calendar::specs::rules::DequeueSteps::step_8))]
pub fn step_8(mut w: Worker, view: &View<'_>) -> Reply
    requires { Ready view.now.shape view.now.words.now w }
    ensures { shown view.now result ≡ shown_by step_8 view.now w }
{
    w.current = view.word(Word::Current);
    w.bucket = w.current / word::COUNTS;
    go_on(9, w)
}

// Right has been set: at the end of the list on to the next bucket, or to 13 in the last.
#[tactic(auto, unfolding(calendar::specs::rules::DequeueSteps::walk))]
fn walk_right(w: Worker, view: &View<'_>) -> Reply
    requires { w.bucket < 65536 }
    ensures { result ≡ share (walk view.now.shape w) }
{
    if w.right != view.shape.nodes {
        return go_on(10, w);
    }
    if w.bucket + 1 < view.shape.buckets {
        go_on(12, w)
    } else {
        go_on(13, w)
    }
}

#[tactic(auto, using(crate::specs::Gives::walk_gives), unfolding(calendar::specs::rules::DequeueSteps::step_9))]
pub fn step_9(mut w: Worker, view: &View<'_>) -> Reply
    requires { Ready view.now.shape view.now.words.now w }
    ensures { shown view.now result ≡ shown_by step_9 view.now w }
{
    w.right = view.cell(w.bucket) / 2;
    walk_right(w, view)
}

#[tactic(auto, using(crate::specs::Gives::walk_gives), unfolding(calendar::specs::rules::DequeueSteps::step_10))]
pub fn step_10(mut w: Worker, view: &View<'_>) -> Reply
    requires ready { Ready view.now.shape view.now.words.now w }
    requires right_lt_nodes { w.right < view.now.shape.nodes }
    ensures { shown view.now result ≡ shown_by step_10 view.now w }
{
    let link = view.cell(view.shape.buckets + w.right);
    w.seen = link;
    if link % 2 == 1 {
        w.right = link / 2;
        return walk_right(w, view);
    }
    let newer = w.current % word::COUNTS < view.field(Field::Epoch, w.right);
    go_on(if newer { 8 } else { 11 }, w)
}

#[tactic(auto, unfolding(calendar::specs::rules::DequeueSteps::step_11))]
pub fn step_11(mut w: Worker, store: &mut Store<'_>) -> Reply
    requires ready { Ready store.old.shape store.old.words.now w }
    requires right_lt_nodes { w.right < store.old.shape.nodes }
    ensures kept { Kept store.old store.new }
    ensures gives { left store.new result ≡ by step_11 store.old w }
{
    let cell = store.shape.buckets + w.right;
    if store.view().cell(cell) == w.seen {
        store.set_cell(cell, 2 * (w.seen / 2) + 1);
        w.own = w.right;
        go_on(1, w)
    } else {
        go_on(10, w)
    }
}

#[tactic(auto, unfolding(calendar::specs::rules::DequeueSteps::step_12))]
pub fn step_12(mut w: Worker, store: &mut Store<'_>) -> Reply
    requires { Ready store.old.shape store.old.words.now w }
    ensures kept { Kept store.old store.new }
    ensures gives { left store.new result ≡ by step_12 store.old w }
{
    let epoch = w.current % word::COUNTS;
    if store.view().word(Word::Current) == w.bucket * word::COUNTS + epoch {
        let next = (w.bucket + 1) * word::COUNTS + epoch;
        store.set_word(Word::Current, next);
        w.bucket += 1;
        w.current = next;
        go_on(9, w)
    } else {
        go_on(8, w)
    }
}

#[tactic(auto, unfolding(calendar::specs::rules::DequeueSteps::step_13))]
pub fn step_13(w: Worker, view: &View<'_>) -> Reply
    requires { Ready view.now.shape view.now.words.now w }
    ensures { shown view.now result ≡ shown_by step_13 view.now w }
{
    let epoch = w.current % word::COUNTS;
    if view.word(Word::Current) == w.bucket * word::COUNTS + epoch {
        answer(w, Response::Empty)
    } else {
        go_on(8, w)
    }
}
