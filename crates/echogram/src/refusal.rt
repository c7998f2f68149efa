// What refuses a clearing, a recording or a series, and the numbers that refusals are answered by.
ghost use Rattle.std.specs.Prelude.{◌≡◌, ℕ};
ghost use Rattle.echogram.specs.Refusals.{row_number};
ghost use Rattle.echogram.specs.Outcomes.{outcome_number};

// What is answered by a number.
pub trait Numbered {
    ghost number_of: { Self → ℕ };

    fn number(self) -> u64
        ensures { result ≡ number_of self };
}

// 0, or the number of the refusal.
// Kept: C is answered by a number. Here an outcome becomes one; but in a series the loop makes it (series.rt), and what is measured has a form of its own.
pub fn outcome_number<E: Numbered>(outcome: Result<(), E>) -> u64
    ensures { result ≡ outcome_number E.number_of outcome }
{
    outcome.map_or_else(E::number, |()| 0)
}

// Each has the number that it is answered by.
#[derive(Clone, Copy, Debug, PartialEq, Eq)]
pub enum RowRefusal {
    UnevenSeries = 2,
    BadRow = 13,
    PastRow = 14,
    SumTooLarge = 15,
}

impl Numbered for RowRefusal {
    ghost number_of = { row_number };

    fn number(self) -> u64 {
        self as u64
    }
}
