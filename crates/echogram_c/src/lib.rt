// The echogram for C, `libechogram.a`: each export calls the function of its name, under the same clauses.
// Kept: parameters one by one, and numbers for answers, since C calls these, by these names.
#![tactic(auto)]

ghost use Rattle.std.specs.Prelude.{◌≡◌};
ghost use Rattle.echogram.specs.Row.{record_answer, recorded, clear_answer, cleared};
ghost use Rattle.echogram.specs.Series.{recording, SeriesEnd, series};

// Clears a row: every slot is 0. The answer is 0, or the number of the refusal.
#[unsafe(no_mangle)]
pub extern "C" fn wubraken_clear_row(slot_length: u64, row: &mut [u32]) -> u64
    ensures { (result ≡ clear_answer slot_length row.old) × (row.new ≡ cleared slot_length row.old) }
{
    echogram::wubraken_clear_row(slot_length, row)
}

// Records a taken arrival: its energy is added to the slot of its time. The answer is 0, or the number of the refusal.
#[unsafe(no_mangle)]
pub extern "C" fn wubraken_record(slot_length: u64, time: u32, energy: u32, row: &mut [u32]) -> u64
    ensures { (result ≡ record_answer row.old (recording slot_length time energy))
        × (row.new ≡ recorded row.old (recording slot_length time energy)) }
{
    echogram::wubraken_record(slot_length, time, energy, row)
}

// Records a series, with an answer for each recording. It adds the row up once. The answer is 0, or the number of what refuses the whole series.
#[unsafe(no_mangle)]
pub extern "C" fn wubraken_record_series(
    slot_length: u64,
    times: &[u32],
    energies: &[u32],
    answers: &mut [u8],
    row: &mut [u32],
) -> u64
    ensures { ◌≡◌ {A = SeriesEnd} (record { answer = result; answers = answers.new; row = row.new })
        (series slot_length times.now energies.now answers.old row.old) }
{
    echogram::wubraken_record_series(slot_length, times, energies, answers, row)
}
