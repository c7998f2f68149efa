// A batch of a turn file on records that are held by value.
ghost use Rattle.std.specs.Prelude.{◌≡◌, true, ◌≤◌, ◌<◌, take};
ghost use Rattle.calendar.specs.rules.Ranges.{shape_in_range};
ghost use Rattle.batch.specs.RecordsCounted.{counted_of};
ghost use Rattle.wubraken_batch.specs.LentBatch.{held_in_range, held_on, account, batch_on};

use admission::is_sound;
use admission::ranges::record_in_range;
use arrival::{Shape, Worker};
use batch::{HeldPool, Progress, Stop, run_batch};
use wubraken::table::records_surveyed;

// The shape after a batch, the bytes read and written, and why it was left: 0 all bytes are worked through, 1 the next line may not fit, 7 or 8 what
// follows is refused by that number.
// Kept: `stop` is a number, which C reads; `From` makes it, and nothing else does.
#[repr(C)]
#[derive(Clone, Copy)]
pub struct BatchEnd {
    pub shape: Shape,
    pub read: usize,
    pub written: usize,
    pub stop: u64,
}

impl From<Progress> for BatchEnd {
    ghost use Rattle.std.specs.Prelude.{◌≡◌};
    ghost use Rattle.wubraken_batch.specs.LentBatch.{end_of};

    ghost from_gives = { λ p end. end ≡ end_of p };

    fn from(p: Progress) -> BatchEnd {
        let stop = match p.stop {
            Stop::Drained => 0,
            Stop::Full => 1,
            Stop::Halted(why) => u64::from(why),
        };
        BatchEnd {
            shape: p.pool.shape,
            read: p.at,
            written: p.to,
            stop,
        }
    }
}

// What a batch leaves of the records, how many of them it held, and its account.
// Kept: 64 records with their number beside, here and in copies.rt: memory is fixed, there is no heap.
#[derive(Clone, Copy)]
pub struct HeldBatch {
    pub table: [Worker; 64],
    pub held: usize,
    pub ending: BatchEnd,
}

// How many of n lent records count: no shape has more than 64 workers.
pub fn records_counted(n: usize) -> usize
    ensures { result ≡ counted_of n }
{
    n.min(64)
}

// Whether the first n records are in range.
fn held_in_range(shape: Shape, n: usize, table: &[Worker; 64]) -> bool
    requires { (n ≤ 64) × (0 < n → shape_in_range shape ≡ true) }
    ensures { result ≡ held_in_range shape n table.now }
{
    table[..n].iter().all(|w| record_in_range(shape, *w))
}

// Works through a batch from its first byte on, with n records lent, of which the table has those of the shape's workers.
pub fn run_held(
    shape: Shape,
    n: usize,
    table: [Worker; 64],
    input: &[u8],
    out: &mut [u8],
    store: &mut [u64],
) -> HeldBatch
    requires { n ≤ 64 }
    ensures { (account store.new (take n result.table) out.new result.ending
        ≡ batch_on shape store.old (take n table) input.now out.old)
        × (result.held ≡ held_on shape store.old (take n table) input.now out.old) }
{
    let held = records_surveyed(shape, n);
    let ok = held_in_range(shape, held, &table);
    let pool = HeldPool {
        shape,
        sound: is_sound(shape, n, ok, store),
        records: n,
        held,
        table,
    };
    let p = run_batch(pool, input, 0, out, 0, store);
    let left = p.pool.table;
    HeldBatch {
        table: left,
        held: p.pool.held,
        ending: BatchEnd::from(p),
    }
}
