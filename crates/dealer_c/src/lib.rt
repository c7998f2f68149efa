// The dealer for C, `libdealer.a`: each export calls the function of its name, under the same clauses.
// Kept: parameters one by one, and numbers for answers, since C calls these, by these names.
#![tactic(auto)]

ghost use Rattle.std.specs.Prelude.{◌≡◌, true, false};
ghost use Rattle.wubraken.specs.Results.{lent};
ghost use Rattle.dealer.specs.Dealing.{new_dealer, dealt, dealt_run};
ghost use Rattle.dealer.specs.Answered.{hands, handed};

use arrival::{Shape, Worker};
use dealer::answers::Dealt;

// What a new dealer remembers: the shape's last worker.
#[unsafe(no_mangle)]
pub extern "C" fn wubraken_new_dealer(shape: Shape) -> u64
    ensures { result ≡ new_dealer shape }
{
    dealer::wubraken_new_dealer(shape)
}

// One dealt turn, by a look at the whole of the lent memory.
#[unsafe(no_mangle)]
pub extern "C" fn wubraken_deal(
    shape: Shape,
    dealer: u64,
    store: &mut [u64],
    table: &mut [Worker],
) -> Dealt
    ensures { hands store.new table.new result ≡ handed (dealt true shape (lent store.old table.old)
        dealer) }
{
    dealer::wubraken_deal(shape, dealer, store, table)
}

// At most so many dealt turns, until a call is answered or a turn is refused. The lent memory is looked at once, and not for every turn.
#[unsafe(no_mangle)]
pub extern "C" fn wubraken_deal_run(
    shape: Shape,
    dealer: u64,
    turns: u64,
    store: &mut [u64],
    table: &mut [Worker],
) -> Dealt
    ensures { hands store.new table.new result ≡ handed (dealt_run true shape turns (lent store.old
        table.old) dealer) }
{
    dealer::wubraken_deal_run(shape, dealer, turns, store, table)
}

// The same by narrow turns, each of which looks only at what it needs.
#[unsafe(no_mangle)]
pub extern "C" fn wubraken_narrow_deal(
    shape: Shape,
    dealer: u64,
    turns: u64,
    store: &mut [u64],
    table: &mut [Worker],
) -> Dealt
    ensures { hands store.new table.new result ≡ handed (dealt_run false shape turns (lent store.old
        table.old) dealer) }
{
    dealer::wubraken_narrow_deal(shape, dealer, turns, store, table)
}
