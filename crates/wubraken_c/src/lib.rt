// The library's single calls for C, `libwubraken.a`: each export calls the function of its name, under the same clauses.
// Kept: parameters one by one, and numbers for answers, since C calls these, by these names.
#![tactic(auto)]

ghost use Rattle.std.specs.Prelude.{◌≡◌, cond};
ghost use Rattle.arrival.specs.declared.Action.TheVariants.{Enqueue, Dequeue, Step};
ghost use Rattle.calendar.specs.rules.Layout.{layout};
ghost use Rattle.calendar.specs.rules.Ranges.{shape_in_range};
ghost use Rattle.calendar.specs.rules.Operations.{act, open_pool};
ghost use Rattle.calendar.specs.rules.NarrowCalls.{narrow_call};
ghost use Rattle.wubraken.specs.Results.{lent, leaves, told};

use arrival::{Arrival, Shape, Worker};
use wubraken::answers::Answer;

// How many words to lend for a shape; 0 where it is outside its limits.
#[unsafe(no_mangle)]
pub extern "C" fn wubraken_words(shape: Shape) -> usize
    ensures { result ≡ cond (shape_in_range shape) (layout shape) 0 }
{
    wubraken::wubraken_words(shape)
}

// Opens a pool.
#[unsafe(no_mangle)]
pub extern "C" fn wubraken_open(shape: Shape, store: &mut [u64], table: &mut [Worker]) -> Answer
    ensures { leaves store.new table.new result ≡ told (open_pool shape (lent store.old table.old)) }
{
    wubraken::wubraken_open(shape, store, table)
}

// A put start of worker i.
#[unsafe(no_mangle)]
pub extern "C" fn wubraken_enqueue(
    shape: Shape,
    i: usize,
    arrival: Arrival,
    store: &mut [u64],
    table: &mut [Worker],
) -> Answer
    ensures { leaves store.new table.new result ≡ told (act shape (lent store.old table.old)
        (Enqueue i arrival)) }
{
    wubraken::wubraken_enqueue(shape, i, arrival, store, table)
}

// A take start of worker i.
#[unsafe(no_mangle)]
pub extern "C" fn wubraken_dequeue(
    shape: Shape,
    i: usize,
    store: &mut [u64],
    table: &mut [Worker],
) -> Answer
    ensures { leaves store.new table.new result ≡ told (act shape (lent store.old table.old) (Dequeue i)) }
{
    wubraken::wubraken_dequeue(shape, i, store, table)
}

// A turn of worker i.
#[unsafe(no_mangle)]
pub extern "C" fn wubraken_step(
    shape: Shape,
    i: usize,
    store: &mut [u64],
    table: &mut [Worker],
) -> Answer
    ensures { leaves store.new table.new result ≡ told (act shape (lent store.old table.old) (Step i)) }
{
    wubraken::wubraken_step(shape, i, store, table)
}

// The three that look only at what they need, each with at most so many turns of worker i behind it.
#[unsafe(no_mangle)]
pub extern "C" fn wubraken_narrow_enqueue(
    shape: Shape,
    i: usize,
    arrival: Arrival,
    turns: u64,
    store: &mut [u64],
    table: &mut [Worker],
) -> Answer
    ensures { leaves store.new table.new result ≡ told (narrow_call shape (lent store.old table.old)
        (Enqueue i arrival) turns) }
{
    wubraken::wubraken_narrow_enqueue(shape, i, arrival, turns, store, table)
}

#[unsafe(no_mangle)]
pub extern "C" fn wubraken_narrow_dequeue(
    shape: Shape,
    i: usize,
    turns: u64,
    store: &mut [u64],
    table: &mut [Worker],
) -> Answer
    ensures { leaves store.new table.new result ≡ told (narrow_call shape (lent store.old table.old)
        (Dequeue i) turns) }
{
    wubraken::wubraken_narrow_dequeue(shape, i, turns, store, table)
}

#[unsafe(no_mangle)]
pub extern "C" fn wubraken_narrow_step(
    shape: Shape,
    i: usize,
    turns: u64,
    store: &mut [u64],
    table: &mut [Worker],
) -> Answer
    ensures { leaves store.new table.new result ≡ told (narrow_call shape (lent store.old table.old)
        (Step i) turns) }
{
    wubraken::wubraken_narrow_step(shape, i, turns, store, table)
}
