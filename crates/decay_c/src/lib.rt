// The decay for C, `libdecay.a`: each export calls the function of its name, under the same clauses.
// Kept: parameters one by one, and numbers for answers, since C calls these, by these names.
#![tactic(auto)]

ghost use Rattle.std.specs.Prelude.{◌≡◌};
ghost use Rattle.decay.specs.Decay.{early_decay, t20, level, decay_refusal, measured, curve_refusal, curve};

use decay::Measured;

// Early decay, in slots.
#[unsafe(no_mangle)]
pub extern "C" fn wubraken_early_decay(row: &[u32]) -> Measured
    ensures { result ≡ measured (decay_refusal row.now) (early_decay row.now) }
{
    decay::wubraken_early_decay(row)
}

// T20, in slots.
#[unsafe(no_mangle)]
pub extern "C" fn wubraken_t20(row: &[u32]) -> Measured
    ensures { result ≡ measured (decay_refusal row.now) (t20 row.now) }
{
    decay::wubraken_t20(row)
}

// The level of a slot, in tenths of a decibel below the start, or 65,535 for none. Any slot: past the last nothing is left.
#[unsafe(no_mangle)]
pub extern "C" fn wubraken_level(slot: u64, row: &[u32]) -> Measured
    ensures { result ≡ measured (decay_refusal row.now) (level row.now slot) }
{
    decay::wubraken_level(slot, row)
}

// The levels of all slots, one place each; behind the sum, one pass from the end. The answer is 0, or the number of the refusal.
#[unsafe(no_mangle)]
pub extern "C" fn wubraken_decay_curve(row: &[u32], levels: &mut [u16]) -> u64
    ensures { (result ≡ curve_refusal row.now levels.old)
        × (levels.new ≡ curve row.now levels.old) }
{
    decay::wubraken_decay_curve(row, levels)
}
