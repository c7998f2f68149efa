// How an echogram decays: early decay, T20 and levels of a row that is only read, exported by decay_c.
#![tactic(auto)]

ghost use Rattle.std.specs.Prelude.{◌≡◌};
ghost use Rattle.decay.specs.Decay.{early_decay, t20, level, decay_refusal, measured, curve_refusal, curve};
ghost use Rattle.decay.specs.Outcomes.{measured_of};

use curve::write_curve;
use echogram::refusal::{Numbered, outcome_number};
use measures::{early_decay, level, t20};
use refusal::DecayRefusal;

mod crossings;
mod curve;
mod logs;
mod measures;
pub mod refusal;
mod total;

// The number of the refusal, or 0; and what was measured, or 0.
// Kept: C gets it in place of a Result; `From` makes it, and nothing else does.
#[repr(C)]
#[derive(Clone, Copy)]
pub struct Measured {
    pub number: u64,
    pub value: u64,
}

impl From<Result<u64, DecayRefusal>> for Measured {
    ghost from_gives = { λ outcome handed. handed ≡ measured_of outcome };

    fn from(outcome: Result<u64, DecayRefusal>) -> Measured {
        match outcome {
            Ok(value) => Measured { number: 0, value },
            Err(refusal) => Measured {
                number: refusal.number(),
                value: 0,
            },
        }
    }
}

// Early decay, in slots.
pub fn wubraken_early_decay(row: &[u32]) -> Measured
    ensures { result ≡ measured (decay_refusal row.now) (early_decay row.now) }
{
    Measured::from(early_decay(row))
}

// T20, in slots.
pub fn wubraken_t20(row: &[u32]) -> Measured
    ensures { result ≡ measured (decay_refusal row.now) (t20 row.now) }
{
    Measured::from(t20(row))
}

// The level of a slot, in tenths of a decibel below the start, or 65,535 for none. Any slot: past the last nothing is left.
pub fn wubraken_level(slot: u64, row: &[u32]) -> Measured
    ensures { result ≡ measured (decay_refusal row.now) (level row.now slot) }
{
    Measured::from(level(row, slot))
}

// The levels of all slots, one place each. The answer is 0, or the number of the refusal.
pub fn wubraken_decay_curve(row: &[u32], levels: &mut [u16]) -> u64
    ensures { (result ≡ curve_refusal row.now levels.old)
        × (levels.new ≡ curve row.now levels.old) }
{
    outcome_number(write_curve(row, levels))
}
