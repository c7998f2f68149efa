// Early decay, T20 and the level of a slot.
ghost use Rattle.std.specs.Prelude.{◌≡◌};
ghost use Rattle.decay.specs.Decay.{early_decay, t20, level, decay_refusal, measured};
ghost use Rattle.decay.specs.Outcomes.{measured_of};

use crate::crossings::{Point, fall_to};
use crate::logs::level_of;
use crate::refusal::DecayRefusal;
use crate::total::total_of;

pub fn early_decay(row: &[u32]) -> Result<u64, DecayRefusal>
    ensures { measured_of result ≡ measured (decay_refusal row.now) (early_decay row.now) }
{
    let total = total_of(row, 0)?;
    let start = Point {
        slot: 0,
        rest: total.sum,
    };
    let fallen = fall_to(row, start, total.sum * total.sum / 100);
    Ok(6 * fallen.slot as u64)
}

pub fn t20(row: &[u32]) -> Result<u64, DecayRefusal>
    ensures { measured_of result ≡ measured (decay_refusal row.now) (t20 row.now) }
{
    let total = total_of(row, 0)?;
    let square = total.sum * total.sum;
    let start = Point {
        slot: 0,
        rest: total.sum,
    };
    let early = fall_to(row, start, square / 10);
    let late = fall_to(row, early, square / 100000);
    Ok(3 * (late.slot - early.slot) as u64)
}

pub fn level(row: &[u32], slot: u64) -> Result<u64, DecayRefusal>
    ensures { measured_of result ≡ measured (decay_refusal row.now) (level row.now slot) }
{
    let total = total_of(row, slot as usize)?;
    let ratio = 1024 * total.rest / total.sum;
    Ok(level_of(ratio as usize) as u64)
}
