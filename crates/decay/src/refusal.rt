// What refuses a row that is measured, or the buffer of its curve.
ghost use Rattle.decay.specs.Refusals.{decay_number};

use echogram::refusal::Numbered;

// Each has the number that it is answered by.
#[derive(Clone, Copy, Debug, PartialEq, Eq)]
pub enum DecayRefusal {
    BadRow = 13,
    SumTooLarge = 15,
    SilentRow = 17,
    ShortBuffer = 19,
}

impl Numbered for DecayRefusal {
    ghost number_of = { decay_number };

    fn number(self) -> u64 {
        self as u64
    }
}
