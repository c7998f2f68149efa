// The library's batches for C, `libwubraken_batch.a`: each export calls the function of its name, under the same clauses.
// Kept: parameters one by one, and numbers for answers, since C calls these, by these names.
#![tactic(auto)]

ghost use Rattle.std.specs.Prelude.{◌≡◌};
ghost use Rattle.wubraken_batch.specs.LentBatch.{account, batch_on};

use arrival::{Shape, Worker};
use wubraken_batch::batches::BatchEnd;

// Works through a batch of turn-file bytes and writes the lines. The lent memory is looked at once, not for every record.
#[unsafe(no_mangle)]
pub extern "C" fn wubraken_run_batch(
    shape: Shape,
    input: &[u8],
    out: &mut [u8],
    store: &mut [u64],
    table: &mut [Worker],
) -> BatchEnd
    ensures { account store.new table.new out.new result
        ≡ batch_on shape store.old table.old input.now out.old }
{
    wubraken_batch::wubraken_run_batch(shape, input, out, store, table)
}
