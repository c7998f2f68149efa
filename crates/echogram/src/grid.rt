// Where the slots of a row lie in time. A series divides many times by one slot length, and a multiplication takes a fraction of a division's time.
ghost use Rattle.std.specs.Prelude.{◌≡◌, ◌/◌, ◌≤◌, ◌<◌, IfOk, IfErr};
ghost use Rattle.echogram.specs.Grid.{grid_of, Drawn};

use crate::refusal::RowRefusal;

// 2^40: what a product is divided by.
const SCALE: u64 = 1099511627776;

// The samples of a slot, the first time past the row, and what a time is multiplied by: 2^40 / samples, rounded down, and 1.
// Kept: no ghost field says `Drawn`, since `grid_of`, of which theorems speak, makes a grid of any numbers.
#[derive(Clone, Copy)]
pub struct Grid {
    pub samples: u64,
    pub end: u64,
    pub factor: u64,
}

impl Grid {
    pub fn of(slot_length: u64, slots: usize) -> Grid
        requires { (1 ≤ slot_length) × (slot_length ≤ 4800) × (slots ≤ 16384) }
        ensures { result ≡ grid_of slot_length slots }
    {
        Grid {
            samples: slot_length,
            end: slots as u64 * slot_length,
            factor: SCALE / slot_length + 1,
        }
    }

    // The slot of a time in the row.
    pub fn slot_in(self, time: u64) -> usize
        requires { Drawn self × (time < self.end) }
        ensures { result ≡ time / self.samples }
    {
        (time * self.factor / SCALE) as usize
    }

    // The slot of any time.
    pub fn slot(self, time: u64) -> Result<usize, RowRefusal>
        requires { Drawn self }
        ensures inside { IfOk result (λ slot. (time < self.end) × (slot ≡ time / self.samples)) }
        ensures past { IfErr result (λ refusal. (self.end ≤ time) × (refusal ≡ RowRefusal.PastRow)) }
    {
        if self.end <= time {
            return Err(RowRefusal::PastRow);
        }
        Ok(self.slot_in(time))
    }
}
