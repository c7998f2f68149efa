// Numbers that are tried in turn, going round.
ghost use Rattle.std.specs.Prelude.{◌≡◌, ◌+◌, cond, ltb};

// The number after n of so many, from 0 on: after the last comes 0.
pub fn after(n: u64, count: u64) -> u64
    ensures { result ≡ cond (ltb (n + 1) count) (n + 1) 0 }
{
    let next = n.wrapping_add(1);
    if next < count { next } else { 0 }
}
