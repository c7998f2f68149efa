// The library for hosts, batches: a piece of a turn file at once, over lent memory, whatever it holds. Its export, wubraken_batch_c, is an
// archive of its own, so that the turn has one caller and is compiled into the loop.
#![tactic(auto)]

ghost use Rattle.std.specs.Prelude.{◌≡◌};
ghost use Rattle.wubraken_batch.specs.LentBatch.{account, batch_on};

use arrival::{Shape, Worker};
use batches::{BatchEnd, records_counted, run_held};
use copies::{copy_back, copy_out};
use wubraken::table::records_surveyed;

pub mod batches;
pub mod copies;

// Works through a batch of turn-file bytes and writes the lines. The lent memory is looked at once, not for every record.
pub fn wubraken_run_batch(
    shape: Shape,
    input: &[u8],
    out: &mut [u8],
    store: &mut [u64],
    table: &mut [Worker],
) -> BatchEnd
    ensures { account store.new table.new out.new result
        ≡ batch_on shape store.old table.old input.now out.old }
{
    let n = records_counted(table.len());
    let k = records_surveyed(shape, n);
    let held = copy_out(table, k);
    let r = run_held(shape, n, held, input, out, store);
    copy_back(table, &r.table, r.held);
    r.ending
}
