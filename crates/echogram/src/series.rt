// A series: what refuses it, and the loop over its recordings.
ghost use Rattle.std.specs.Prelude.{◌≡◌, false, length};
ghost use Rattle.laws.specs.Lists.{words_from};
ghost use Rattle.echogram.specs.Row.{outside, record_answer, recorded, row_after, answer_at};
ghost use Rattle.echogram.specs.Series.{recording, in_series, SeriesEnd, series};
ghost use Rattle.echogram.specs.Grid.{grid_of};
ghost use Rattle.echogram.specs.Refusals.{answer_of};

use crate::grid::Grid;
use crate::refusal::{Numbered, RowRefusal};
use crate::row::{OpenRow, is_outside};

// A series, with an answer for each recording.
pub fn record_series(
    slot_length: u64,
    times: &[u32],
    energies: &[u32],
    answers: &mut [u8],
    row: &mut [u32],
) -> Result<(), RowRefusal>
    ensures { ◌≡◌ {A = SeriesEnd}
        (record { answer = answer_of result; answers = answers.new; row = row.new })
        (series slot_length times.now energies.now answers.old row.old) }
{
    let n = times.len();
    if (energies.len() != n) | (answers.len() != n) {
        return Err(RowRefusal::UnevenSeries);
    }
    if is_outside(slot_length, row.len()) {
        return Err(RowRefusal::BadRow);
    }
    record_each(slot_length, times, energies, answers, row);
    Ok(())
}

// One recording, by the grid of the row.
fn record_on(grid: Grid, time: u32, energy: u32, row: &mut OpenRow) -> Result<(), RowRefusal>
    requires { (outside grid.samples (length row.old.slots.now) ≡ false)
        × (grid ≡ grid_of grid.samples (length row.old.slots.now)) }
    ensures same_reference { row.new.slots.ghost_name ≡ row.old.slots.ghost_name }
    ensures answer { answer_of result ≡ record_answer row.old.slots.now (recording grid.samples time energy) }
    ensures row { row.new.slots.now ≡ recorded row.old.slots.now (recording grid.samples time energy) }
{
    let slot = grid.slot(time as u64)?;
    row.add(slot, energy)
}

// The recordings one by one.
// Kept: C lends times, energies and answers as slices of their own, and answers are numbers (`series`); a `match` in place of `outcome_number`, since with
// that the loop had 18.8 instructions for a recording, and with this it has 16.8.
fn record_each(
    slot_length: u64,
    times: &[u32],
    energies: &[u32],
    answers: &mut [u8],
    row: &mut [u32],
)
    requires row_value { outside slot_length (length row.old) ≡ false }
    requires energies_len { (length energies.now ≡ length times.now) × (length answers.old ≡ length times.now) }
    ensures { (row.new
        ≡ row_after row.old (in_series slot_length times.now energies.now) (length times.now))
        × (answers.new
        ≡ words_from (answer_at row.old (in_series slot_length times.now energies.now)) 0 (length times.now)) }
{
    let grid = Grid::of(slot_length, row.len());
    let mut open = OpenRow::of(row);
    for (i, time) in times.iter().enumerate() {
        match record_on(grid, *time, energies[i], &mut open) {
            Ok(()) => answers[i] = 0,
            Err(refusal) => answers[i] = refusal.number() as u8,
        }
    }
}
