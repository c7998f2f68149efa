// The sum of a row, and what is left of it from a slot on.
ghost use Rattle.std.specs.Prelude.{◌≡◌};
ghost use Rattle.decay.specs.Totals.{totals, total_of};

use crate::refusal::DecayRefusal;
use echogram::row::{slots_outside, sum_of};

// 2^32 - 1: no sum above it is measured.
const MOST: u64 = 4294967295;

#[derive(Clone, Copy)]
pub struct Total {
    pub sum: u64,
    pub rest: u64,
}

// Adds up the part before the slot and that from it on: one pass. Of a row whose number of slots is outside its limits both are 0.
pub fn totals(row: &[u32], slot: usize) -> Total
    ensures { result ≡ totals row.now slot }
{
    if slots_outside(row.len()) {
        return Total { sum: 0, rest: 0 };
    }
    let at = slot.min(row.len());
    let rest = sum_of(&row[at..]);
    let sum = sum_of(&row[..at]) + rest;
    Total { sum, rest }
}

// What refuses the row, or its totals.
pub fn total_of(row: &[u32], slot: usize) -> Result<Total, DecayRefusal>
    ensures { result ≡ total_of row.now slot }
{
    if slots_outside(row.len()) {
        return Err(DecayRefusal::BadRow);
    }
    let total = totals(row, slot);
    if MOST < total.sum {
        return Err(DecayRefusal::SumTooLarge);
    }
    if total.sum == 0 {
        return Err(DecayRefusal::SilentRow);
    }
    Ok(total)
}
