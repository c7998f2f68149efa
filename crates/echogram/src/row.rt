// A row: whether it is within its limits, its sum, clearing, and energies added to its slots.
ghost use Rattle.std.specs.Prelude.{◌≡◌, ◌≤◌, ◌<◌, length};
ghost use Rattle.echogram.specs.Row.{slots_outside, outside, sum_of, clear_answer, cleared};
ghost use Rattle.echogram.specs.AtSlot.{headroom_of, add_answer, added_to};
ghost use Rattle.echogram.specs.Refusals.{answer_of};

use crate::refusal::RowRefusal;

// Whether a number of slots is outside its limits.
pub fn slots_outside(slots: usize) -> bool
    ensures { result ≡ slots_outside slots }
{
    (slots < 1) | (16384 < slots)
}

// Whether a slot length, or a number of slots, is outside its limits.
pub fn is_outside(slot_length: u64, slots: usize) -> bool
    ensures { result ≡ outside slot_length slots }
{
    slots_outside(slots) | (slot_length < 1) | (4800 < slot_length)
}

// The slots added up.
pub fn sum_of(row: &[u32]) -> u64
    requires { length row.now ≤ 16384 }
    ensures { result ≡ sum_of row.now }
{
    row.iter().map(|slot| u64::from(*slot)).sum()
}

// What energies must stay below to fit: 2^32 less the sum, or 0 where the sum is above.
#[tactic(auto, unfolding(crate::specs::AtSlot::headroom_of))]
pub fn headroom_of(row: &[u32]) -> u64
    requires { length row.now ≤ 16384 }
    ensures { result ≡ headroom_of row.now }
{
    let sum = sum_of(row);
    if sum < 4294967296 {
        4294967296 - sum
    } else {
        0
    }
}

// Leaves a row of zeros.
pub fn clear(slot_length: u64, row: &mut [u32]) -> Result<(), RowRefusal>
    ensures { (answer_of result ≡ clear_answer slot_length row.old) × (row.new ≡ cleared slot_length row.old) }
{
    if is_outside(slot_length, row.len()) {
        return Err(RowRefusal::BadRow);
    }
    row.fill(0);
    Ok(())
}

// A row that energies are added to, with the headroom that its sum leaves: so it is added up once.
#[derive(Drop)]
pub struct OpenRow<'a> {
    pub slots: &'a mut [u32],
    pub headroom: u64,
    pub ghost known: { headroom ≡ headroom_of slots.now },
}

impl<'a> OpenRow<'a> {
    pub fn of(slots: &'a mut [u32]) -> OpenRow<'a>
        requires { length slots.old ≤ 16384 }
        ensures same_reference { result.slots.ghost_name ≡ slots.entry.ghost_name }
        ensures row { result.slots.now ≡ slots.old }
    {
        let headroom = headroom_of(slots);
        OpenRow { slots, headroom }
    }

    // Adds an energy to a slot. As long as the sum has 32 bits, so has every slot.
    pub fn add(&mut self, slot: usize, energy: u32) -> Result<(), RowRefusal>
        requires { slot < length self.old.slots.now }
        ensures same_reference { self.new.slots.ghost_name ≡ self.old.slots.ghost_name }
        ensures answer { answer_of result ≡ add_answer self.old.slots.now slot energy }
        ensures row { self.new.slots.now ≡ added_to self.old.slots.now slot energy }
    {
        if self.headroom <= energy as u64 {
            return Err(RowRefusal::SumTooLarge);
        }
        self.slots[slot] += energy;
        self.headroom -= energy as u64;
        Ok(())
    }
}
