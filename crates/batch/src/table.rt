// The workers' records, held by value.
ghost use Rattle.std.specs.Prelude.{◌≡◌, ◌++◌, ◌≤◌, drop, replicate};
ghost use Rattle.calendar.specs.rules.Ranges.{blank};
ghost use Rattle.batch.specs.Held as holding;

use arrival::Worker;

// The first n records become idle, all fields 0.
#[tactic(auto, unfolding(calendar::specs::rules::Ranges::blank))]
pub fn clear(table: &mut [Worker; 64], n: usize)
    requires { n ≤ 64 }
    ensures { table.new ≡ replicate n blank ++ drop n table.old }
{
    table[..n].fill(Worker::default());
}

// The greater of two numbers of records.
pub fn greater(a: usize, b: usize) -> usize
    ensures { result ≡ holding.greater a b }
{
    if a < b { b } else { a }
}
