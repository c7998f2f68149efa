// The lent table's records: one look over the workers', and clearing them.
ghost use Rattle.std.specs.Prelude.{◌≡◌, ◌++◌, ◌≤◌, true, length, drop, replicate};
ghost use Rattle.calendar.specs.rules.Ranges.{shape_in_range, blank};
ghost use Rattle.wubraken.specs.Survey.{seen, surveyed, looked_at, survey};

use admission::ranges::{record_in_range, shape_in_range};
use arrival::{Request, Shape, Worker};
use starts::free::lower_ticket;
use words::word;

// How many of n records are the workers'.
pub fn records_surveyed(shape: Shape, n: usize) -> usize
    ensures { result ≡ surveyed shape n }
{
    if !shape_in_range(shape) {
        return 0;
    }
    n.min(shape.workers as usize)
}

// How many of them the request looks at: all, or none.
pub fn records_looked_at(shape: Shape, request: Request, n: usize) -> usize
    ensures { result ≡ looked_at shape request n }
{
    if !request.looks_at_all() {
        return 0;
    }
    records_surveyed(shape, n)
}

// One record more, after what was found before it: the least ticket in progress, as an error where a record was out of range, of those before the first.
#[tactic(auto, unfolding(crate::specs::Survey::seen))]
pub fn look(shape: Shape, found: Result<u64, u64>, w: Worker) -> Result<u64, u64>
    requires { shape_in_range shape ≡ true }
    ensures { result ≡ seen shape found w }
{
    let low = found?;
    if !record_in_range(shape, w) {
        return Err(low);
    }
    Ok(lower_ticket(low, w))
}

// The look over the workers' records, to the first that is out of range.
pub fn survey_table(shape: Shape, request: Request, table: &[Worker]) -> Result<u64, u64>
    ensures { result ≡ survey shape request table.now }
{
    let n = records_looked_at(shape, request, table.len());
    let mut low = word::COUNTS;
    for w in &table[..n] {
        low = look(shape, Ok(low), *w)?;
    }
    Ok(low)
}

// The first n records become idle, all fields 0.
#[tactic(auto, unfolding(calendar::specs::rules::Ranges::blank))]
pub fn clear_table(table: &mut [Worker], n: usize)
    requires { n ≤ length table.old }
    ensures { table.new ≡ replicate n blank ++ drop n table.old }
{
    table[..n].fill(Worker::default());
}
