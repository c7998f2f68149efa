// The levels of all slots, from the end.
ghost use Rattle.std.specs.Prelude.{◌≡◌, ◌++◌, ◌*◌, ◌≤◌, length, drop};
ghost use Rattle.laws.specs.Lists.{words_from};
ghost use Rattle.echogram.specs.Row.{sum_of};
ghost use Rattle.decay.specs.Decay.{level, curve_refusal, curve};
ghost use Rattle.decay.specs.Curves.{flat_at};
ghost use Rattle.decay.specs.Refusals.{answer_of};

use crate::logs::level_of;
use crate::refusal::DecayRefusal;
use crate::total::total_of;

// A flat part of the curve: its level, and the least 1,024-fold rest that has a higher ratio.
#[derive(Clone, Copy)]
pub struct Flat {
    pub next: u64,
    pub level: u16,
}

// That of a 1,024-fold rest.
fn flat_at(scaled: u64, sum: u64) -> Flat
    requires { (1 ≤ sum) × (sum ≤ 4294967295) × (scaled ≤ 1024 * sum) }
    ensures { result ≡ flat_at scaled sum }
{
    let ratio = scaled / sum;
    Flat {
        next: (ratio + 1) * sum,
        level: level_of(ratio as usize),
    }
}

// A division for each new ratio, and none for a slot that keeps that of the slot behind it.
fn write_levels(row: &[u32], sum: u64, levels: &mut [u16])
    requires { (sum ≡ sum_of row.now) × (1 ≤ sum) × (sum ≤ 4294967295) × (length row.now ≤ length levels.old) }
    ensures { levels.new
        ≡ words_from (level row.now) 0 (length row.now) ++ drop (length row.now) levels.old }
{
    let mut scaled: u64 = 0;
    let mut flat = flat_at(0, sum);
    for k in (0..row.len()).rev() {
        scaled += 1024 * row[k] as u64;
        if flat.next <= scaled {
            flat = flat_at(scaled, sum);
        }
        levels[k] = flat.level;
    }
}

// The levels of all slots, one place each; behind the sum, one pass from the end.
pub fn write_curve(row: &[u32], levels: &mut [u16]) -> Result<(), DecayRefusal>
    ensures { (answer_of result ≡ curve_refusal row.now levels.old) × (levels.new ≡ curve row.now levels.old) }
{
    let total = total_of(row, 0)?;
    if levels.len() < row.len() {
        return Err(DecayRefusal::ShortBuffer);
    }
    write_levels(row, total.sum, levels);
    Ok(())
}
