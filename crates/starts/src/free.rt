// The first free node, by the least ticket of a call in progress.
ghost use Rattle.std.specs.Prelude.{◌≡◌, ◌<◌, ◌≤◌, unwrap_or, IfSome};
ghost use Rattle.calendar.specs.rules.Layout.{last_node};
ghost use Rattle.starts.specs.LeastTicket.{lower, free_below};
ghost use Rattle.starts.specs.FreeSearch.{first_free_below};

use arrival::Worker;
use arrival::rounds::after;
use words::field::Field;
use words::store::View;
use words::word;
use words::word::Word;

// The least ticket in progress, with one record more.
// Kept: 2^32 stands for none in progress, as in `least_ticket` and `free_is` (LeastTicket): of an Option, batches would test each ticket first.
pub fn lower_ticket(low: u64, w: Worker) -> u64
    ensures { result ≡ lower low w }
{
    if w.stage == 0 { low } else { low.min(w.ticket) }
}

// Whether a standing is free: never used, or unlinked before the call with the least ticket started; or none is in progress.
fn is_free(low: u64, standing: u64) -> bool
    requires { low ≤ 4294967296 }
    ensures { result ≡ free_below low standing }
{
    (standing == 0) | (2 <= standing) & ((standing < 2 + low) | (low == word::COUNTS))
}

// The first free node after the one handed out last, going round.
pub fn first_free(low: u64, view: &View<'_>) -> Option<u64>
    requires low_bound { (low ≤ 4294967296) × (last_node view.now.shape view.now.words.now < view.now.shape.nodes) }
    ensures first { unwrap_or result view.now.shape.nodes ≡ first_free_below view.now.shape view.now.words.now low }
    ensures inside { IfSome result (λ n. n < view.now.shape.nodes) }
{
    let mut n = view.word(Word::LastNode);
    for _ in 0..view.shape.nodes {
        n = after(n, view.shape.nodes);
        if is_free(low, view.field(Field::Standing, n)) {
            return Some(n);
        }
    }
    None
}
