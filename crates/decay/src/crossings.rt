// The first slot at which little enough is left.
ghost use Rattle.std.specs.Prelude.{◌≡◌};
ghost use Rattle.decay.specs.Decay.{first};
ghost use Rattle.decay.specs.CrossingSearch.{square_at_most, point_at, Before};

// A slot, or the row's end, and what is left from there on.
#[derive(Clone, Copy)]
pub struct Point {
    pub slot: usize,
    pub rest: u64,
}

// From a point on, the first one whose rest squared is at most the limit. None before it is.
pub fn fall_to(row: &[u32], from: Point, limit: u64) -> Point
    requires { Before row.now from limit }
    ensures { result ≡ point_at row.now (first row.now (square_at_most row.now limit)) }
{
    let mut rest = from.rest;
    for slot in from.slot..row.len() {
        if rest * rest <= limit {
            return Point { slot, rest };
        }
        rest -= row[slot] as u64;
    }
    Point {
        slot: row.len(),
        rest,
    }
}
