// Stages 1 to 3: the search for own node's key.
ghost use Rattle.std.specs.Prelude.{◌≡◌, [], ◌<◌};
ghost use Rattle.arrival.specs.Queue.{taken};
ghost use Rattle.calendar.specs.rules.SearchSteps.{found, settle, step_1, step_2, step_3};
ghost use Rattle.words.specs.Done.{left, by};
ghost use Rattle.words.specs.Kept.{Kept};
ghost use Rattle.stages.specs.Gives.{shown, shown_by};
ghost use Rattle.stages.specs.Ready.{Ready, Holds};

use super::{answer, go_on};
use arrival::spreading::energy;
use arrival::{Item, Response, Worker, is_lower};
use words::field::Field;
use words::replies::Reply;
use words::store::{Store, View};
use words::word::Word;

// What a take answers: the arrival in its own node, and its energy.
// Kept: no From: `Response::from(item)` would not say that an energy is computed, nor that it is a take's answer.
fn took(x: Item) -> Response
    ensures { result ≡ taken x }
{
    Response::Took {
        time: x.time,
        path: x.path,
        order: x.order,
        distance: x.distance,
        energy: energy(x.distance),
    }
}

// The search's end: a put goes to 4, a take answers.
#[tactic(auto, unfolding(calendar::specs::rules::SearchSteps::found))]
fn end_search(w: Worker, view: &View<'_>) -> Reply
    requires { Holds view.now.shape view.now.words.now w.own }
    ensures { shown view.now result ≡ shown_by (λ sh s w. found sh s [] w) view.now w }
{
    // Kept: the kind is a word of the record that C hands in, and may be any number: 0 is a put.
    if w.kind == 0 {
        return go_on(4, w);
    }
    let x = view.item(w.own);
    answer(w, took(x))
}

// Right has been set: at the end of the list the search ends in this turn.
#[tactic(auto, unfolding(calendar::specs::rules::SearchSteps::settle))]
fn settle_right(w: Worker, view: &View<'_>) -> Reply
    requires { Holds view.now.shape view.now.words.now w.own }
    ensures { shown view.now result ≡ shown_by (λ sh s w. settle sh s [] w) view.now w }
{
    if w.right != view.shape.nodes {
        return go_on(2, w);
    }
    end_search(w, view)
}

#[tactic(auto, unfolding(calendar::specs::rules::SearchSteps::step_1))]
pub fn step_1(mut w: Worker, view: &View<'_>) -> Reply
    requires { Ready view.now.shape view.now.words.now w }
    ensures { shown view.now result ≡ shown_by step_1 view.now w }
{
    w.left = w.bucket;
    w.right = view.cell(w.bucket) / 2;
    settle_right(w, view)
}

#[tactic(auto, using(arrival::proofs::Keys::lower_keys), unfolding(calendar::specs::rules::SearchSteps::step_2))]
pub fn step_2(mut w: Worker, view: &View<'_>) -> Reply
    requires ready { Ready view.now.shape view.now.words.now w }
    requires right_lt_nodes { w.right < view.now.shape.nodes }
    ensures { shown view.now result ≡ shown_by step_2 view.now w }
{
    let cell = view.shape.buckets + w.right;
    let link = view.cell(cell);
    w.seen = link;
    if link % 2 == 1 {
        return go_on(3, w);
    }
    let there = view.key(w.right);
    let own = view.key(w.own);
    if is_lower(there, own) {
        w.left = cell;
        w.right = link / 2;
        settle_right(w, view)
    } else {
        end_search(w, view)
    }
}

#[tactic(auto, using(crate::specs::Unlinking::unlinked_step), unfolding(calendar::specs::rules::SearchSteps::step_3))]
pub fn step_3(mut w: Worker, store: &mut Store<'_>) -> Reply
    requires ready { Ready store.old.shape store.old.words.now w }
    requires right_lt_nodes { w.right < store.old.shape.nodes }
    ensures kept { Kept store.old store.new }
    ensures gives { left store.new result ≡ by step_3 store.old w }
{
    if store.view().cell(w.left) == 2 * w.right {
        let next = w.seen / 2;
        let started = store.view().word(Word::Started);
        store.set_cell(w.left, 2 * next);
        store.set_field(Field::Standing, w.right, 2 + started);
        w.right = next;
        settle_right(w, &store.view())
    } else {
        go_on(1, w)
    }
}
