// Refusals 1 to 4 and the ranges that 3 tests. Of 3 there is a flag: computed by a look at every field, or carried from record to record.
#![tactic(auto)]

ghost use Rattle.std.specs.Prelude.{◌≡◌, true};
ghost use Rattle.arrival.specs.Refusals.{refusal_of};
ghost use Rattle.calendar.specs.rules.Ranges.{shape_in_range};
ghost use Rattle.calendar.specs.rules.Refusals.{short};
ghost use Rattle.admission.specs.Gate.{gate_of, open_gate, sound_of, Tight};
ghost use Rattle.admission.specs.NarrowGate.{near_of};

use arrival::Shape;
use arrival::refusals::Refusal;
use ranges::{shape_in_range, store_in_range, words_in_range};
use words::layout_words;
use words::store::View;

pub mod ranges;

// Whether so many words or records are too few.
fn is_short(shape: Shape, words: usize, records: usize) -> bool
    requires { shape_in_range shape ≡ true }
    ensures { result ≡ short shape words records }
{
    (words < layout_words(shape)) | (records < shape.workers as usize)
}

// Refusals 1 to 4.
#[tactic(auto, using(crate::proofs::GateLaws::gate_parts))]
fn first_refusal(
    shape: Shape,
    words: usize,
    records: usize,
    i: u64,
    sound: bool,
) -> Result<(), Refusal>
    ensures { refusal_of result ≡ gate_of shape words records i sound }
{
    open_gate(shape, words, records)?;
    if !sound {
        return Err(Refusal::OutOfRange);
    }
    if shape.workers <= i {
        return Err(Refusal::NoWorker);
    }
    Ok(())
}

// The same, at one look where the flag is up: it is down where 1 or 2 applies.
#[tactic(auto, using(crate::proofs::GateLaws::passes))]
pub fn gate(shape: Shape, words: usize, records: usize, i: u64, sound: bool) -> Result<(), Refusal>
    requires { Tight shape words records sound }
    ensures { refusal_of result ≡ gate_of shape words records i sound }
{
    if sound & (i < shape.workers) {
        return Ok(());
    }
    first_refusal(shape, words, records, i, sound)
}

// An opening's refusals.
#[tactic(auto, unfolding(crate::specs::Gate::open_gate))]
pub fn open_gate(shape: Shape, words: usize, records: usize) -> Result<(), Refusal>
    ensures { refusal_of result ≡ open_gate shape words records }
{
    if !shape_in_range(shape) {
        return Err(Refusal::BadShape);
    }
    if is_short(shape, words, records) {
        return Err(Refusal::TooShort);
    }
    Ok(())
}

// The flag by a look at every word; ok: the workers' records are in range.
#[tactic(auto, using(crate::proofs::GateLaws::open_passed, words::specs::Laid::laid), unfolding(crate::specs::Gate::sound_of))]
pub fn is_sound(shape: Shape, records: usize, ok: bool, store: &[u64]) -> bool
    ensures { result ≡ sound_of shape store.now records ok }
{
    if open_gate(shape, store.len(), records).is_err() {
        return false;
    }
    let view = View {
        shape,
        words: store,
    };
    store_in_range(&view) & ok
}

// The flag of a narrow call, by a look at the three first words; ok: the records that it looks at are in range.
#[tactic(auto, using(crate::proofs::NarrowGate::near_bad))]
pub fn is_near(shape: Shape, records: usize, ok: bool, store: &[u64]) -> bool
    ensures { result ≡ near_of shape store.now records ok }
{
    shape_in_range(shape) && is_near_within(shape, records, ok, store)
}

// The same for a shape within its limits.
#[tactic(auto, using(crate::proofs::NarrowGate::near_short, crate::proofs::NarrowGate::near_long, crate::proofs::NarrowGate::laid_long))]
pub fn is_near_within(shape: Shape, records: usize, ok: bool, store: &[u64]) -> bool
    requires { shape_in_range shape ≡ true }
    ensures { result ≡ near_of shape store.now records ok }
{
    if is_short(shape, store.len(), records) {
        return false;
    }
    let view = View {
        shape,
        words: store,
    };
    words_in_range(&view) & ok
}
