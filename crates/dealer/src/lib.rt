// The dealer of turns, for hosts: over lent memory, whatever it holds, exported by dealer_c.
#![tactic(auto)]

ghost use Rattle.std.specs.Prelude.{◌≡◌, true, false};
ghost use Rattle.wubraken.specs.Results.{lent};
ghost use Rattle.dealer.specs.Dealing.{new_dealer, dealt, dealt_run};
ghost use Rattle.dealer.specs.Answered.{hands, handed};

use answers::Dealt;
use arrival::{Shape, Worker};
use asks::{Ask, Look};
use turns::deal_lent;

pub mod answers;
pub mod asks;
pub mod runs;
pub mod turns;
pub mod visits;

// Kept: a function for each name that C calls, and a number for a dealer, which C keeps.
// What a new dealer remembers: the shape's last worker.
pub fn wubraken_new_dealer(shape: Shape) -> u64
    ensures { result ≡ new_dealer shape }
{
    shape.workers.saturating_sub(1)
}

// One dealt turn, by a look at the whole of the lent memory.
pub fn wubraken_deal(shape: Shape, dealer: u64, store: &mut [u64], table: &mut [Worker]) -> Dealt
    ensures { hands store.new table.new result ≡ handed (dealt true shape (lent store.old table.old)
        dealer) }
{
    let ask = Ask {
        shape,
        look: Look::Whole,
        dealer,
        turns: 1,
    };
    Dealt::from(deal_lent(ask, store, table))
}

// At most so many dealt turns, until a call is answered or a turn is refused. The lent memory is looked at once, and not for every turn.
pub fn wubraken_deal_run(
    shape: Shape,
    dealer: u64,
    turns: u64,
    store: &mut [u64],
    table: &mut [Worker],
) -> Dealt
    ensures { hands store.new table.new result ≡ handed (dealt_run true shape turns (lent store.old
        table.old) dealer) }
{
    let ask = Ask {
        shape,
        look: Look::Whole,
        dealer,
        turns,
    };
    Dealt::from(deal_lent(ask, store, table))
}

// The same by narrow turns, each of which looks only at what it needs.
pub fn wubraken_narrow_deal(
    shape: Shape,
    dealer: u64,
    turns: u64,
    store: &mut [u64],
    table: &mut [Worker],
) -> Dealt
    ensures { hands store.new table.new result ≡ handed (dealt_run false shape turns (lent store.old
        table.old) dealer) }
{
    let ask = Ask {
        shape,
        look: Look::Narrow,
        dealer,
        turns,
    };
    Dealt::from(deal_lent(ask, store, table))
}
