// The library for hosts, single calls: entry points over lent memory, whatever it holds, which wubraken_c exports. A start or turn copies one record out,
// calls a function by value, and stores the record back.
// Kept: six entries, each with shape, store and table by themselves: they are what C calls (host/include/wubraken.h).
#![tactic(auto)]

ghost use Rattle.std.specs.Prelude.{◌≡◌, cond};
ghost use Rattle.arrival.specs.declared.Action.TheVariants.{Enqueue, Dequeue, Step};
ghost use Rattle.calendar.specs.rules.Layout.{layout};
ghost use Rattle.calendar.specs.rules.Ranges.{shape_in_range};
ghost use Rattle.calendar.specs.rules.Operations.{act, open_pool};
ghost use Rattle.calendar.specs.rules.NarrowCalls.{narrow_call};
ghost use Rattle.wubraken.specs.Results.{lent, leaves, told};

use admission::ranges::shape_in_range;
use answers::Answer;
use arrival::{Action, Arrival, Request, Shape, Worker};
use lent::Lent;
use words::layout_words;

pub mod answers;
pub mod lent;
pub mod records;
pub mod requests;
pub mod table;

// Kept: 0 and no Option, since C reads it.
// How many words to lend for a shape; 0 where it is outside its limits.
pub fn wubraken_words(shape: Shape) -> usize
    ensures { result ≡ cond (shape_in_range shape) (layout shape) 0 }
{
    if !shape_in_range(shape) {
        return 0;
    }
    layout_words(shape)
}

// Opens a pool.
pub fn wubraken_open(shape: Shape, store: &mut [u64], table: &mut [Worker]) -> Answer
    ensures { leaves store.new table.new result ≡ told (open_pool shape (lent store.old table.old)) }
{
    Answer::from(Lent {
        shape,
        store,
        table,
    }
    .open())
}

// A put start of worker i.
pub fn wubraken_enqueue(
    shape: Shape,
    i: usize,
    arrival: Arrival,
    store: &mut [u64],
    table: &mut [Worker],
) -> Answer
    ensures { leaves store.new table.new result ≡ told (act shape (lent store.old table.old)
        (Enqueue i arrival)) }
{
    Answer::from(Lent {
        shape,
        store,
        table,
    }
    .act(Request::Whole(Action::Enqueue(i as u64, arrival))))
}

// A take start of worker i.
pub fn wubraken_dequeue(shape: Shape, i: usize, store: &mut [u64], table: &mut [Worker]) -> Answer
    ensures { leaves store.new table.new result ≡ told (act shape (lent store.old table.old) (Dequeue i)) }
{
    Answer::from(Lent {
        shape,
        store,
        table,
    }
    .act(Request::Whole(Action::Dequeue(i as u64))))
}

// A turn of worker i.
pub fn wubraken_step(shape: Shape, i: usize, store: &mut [u64], table: &mut [Worker]) -> Answer
    ensures { leaves store.new table.new result ≡ told (act shape (lent store.old table.old) (Step i)) }
{
    Answer::from(Lent {
        shape,
        store,
        table,
    }
    .act(Request::Whole(Action::Step(i as u64))))
}

// The three that look only at what they need, each with at most so many turns of worker i behind it.
pub fn wubraken_narrow_enqueue(
    shape: Shape,
    i: usize,
    arrival: Arrival,
    turns: u64,
    store: &mut [u64],
    table: &mut [Worker],
) -> Answer
    ensures { leaves store.new table.new result ≡ told (narrow_call shape (lent store.old table.old)
        (Enqueue i arrival) turns) }
{
    Answer::from(Lent {
        shape,
        store,
        table,
    }
    .act(Request::Narrow(Action::Enqueue(i as u64, arrival), turns)))
}

pub fn wubraken_narrow_dequeue(
    shape: Shape,
    i: usize,
    turns: u64,
    store: &mut [u64],
    table: &mut [Worker],
) -> Answer
    ensures { leaves store.new table.new result ≡ told (narrow_call shape (lent store.old table.old)
        (Dequeue i) turns) }
{
    Answer::from(Lent {
        shape,
        store,
        table,
    }
    .act(Request::Narrow(Action::Dequeue(i as u64), turns)))
}

pub fn wubraken_narrow_step(
    shape: Shape,
    i: usize,
    turns: u64,
    store: &mut [u64],
    table: &mut [Worker],
) -> Answer
    ensures { leaves store.new table.new result ≡ told (narrow_call shape (lent store.old table.old)
        (Step i) turns) }
{
    Answer::from(Lent {
        shape,
        store,
        table,
    }
    .act(Request::Narrow(Action::Step(i as u64), turns)))
}
