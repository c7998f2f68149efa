// One recording.
ghost use Rattle.std.specs.Prelude.{◌≡◌};
ghost use Rattle.echogram.specs.Row.{record_answer, recorded};
ghost use Rattle.echogram.specs.Series.{recording};
ghost use Rattle.echogram.specs.Refusals.{answer_of};

use crate::refusal::RowRefusal;
use crate::row::{OpenRow, is_outside};

// Adds an energy to the slot of its time. It divides, since for one time that is no dearer than a grid.
pub fn record(slot_length: u64, time: u32, energy: u32, row: &mut [u32]) -> Result<(), RowRefusal>
    ensures { (answer_of result ≡ record_answer row.old (recording slot_length time energy))
        × (row.new ≡ recorded row.old (recording slot_length time energy)) }
{
    if is_outside(slot_length, row.len()) {
        return Err(RowRefusal::BadRow);
    }
    let slot = (time / slot_length as u32) as usize;
    if row.len() <= slot {
        return Err(RowRefusal::PastRow);
    }
    OpenRow::of(row).add(slot, energy)
}
