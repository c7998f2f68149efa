// Lent records as an array, and back: what works on records by value takes them so.
ghost use Rattle.std.specs.Prelude.{◌≡◌, ◌++◌, ◌≤◌, length, take, drop, replicate};
ghost use Rattle.calendar.specs.rules.Ranges.{blank};

use arrival::Worker;

// An array of the table's first n records, and idle ones behind them.
#[tactic(auto, unfolding(calendar::specs::rules::Ranges::blank))]
pub fn copy_out(table: &[Worker], n: usize) -> [Worker; 64]
    requires { (n ≤ 64) × (n ≤ length table.now) }
    ensures { result ≡ take n table.now ++ drop n (replicate 64 blank) }
{
    let mut records = [Worker::default(); 64];
    records[..n].copy_from_slice(&table[..n]);
    records
}

// The array's first n records over those of the table.
pub fn copy_back(table: &mut [Worker], records: &[Worker; 64], n: usize)
    requires { (n ≤ 64) × (n ≤ length table.old) }
    ensures { table.new ≡ take n records.now ++ drop n table.old }
{
    table[..n].copy_from_slice(&records[..n]);
}
