// Turns dealt one after the other, over a lent table of records.
ghost use Rattle.std.specs.Prelude.{◌≡◌};
ghost use Rattle.wubraken.specs.Results.{lent};
ghost use Rattle.dealer.specs.Dealing.{dealt_run};
ghost use Rattle.dealer.specs.Looks.{is_whole};
ghost use Rattle.dealer.specs.Answered.{leaves_deal};
ghost use Rattle.dealer.specs.Tour.{Sound, wanted};

use super::asks::Ask;
use super::runs::{Ended, Going};
use arrival::Worker;
use std::ops::ControlFlow;
use wubraken::table::survey_table;

// Kept: store and table one by one, here and below: a `Lent` has a shape, and so has the Ask that a run goes by.
// From candidate to candidate, as long as the run goes on.
pub fn deal_turns(
    start: ControlFlow<Ended, Going>,
    store: &mut [u64],
    table: &mut [Worker],
) -> Ended
    requires { Sound start store.old table.old }
    ensures { leaves_deal store.new table.new result ≡ wanted start store.old table.old }
{
    let mut run = start;
    loop {
        match run {
            ControlFlow::Break(ended) => return ended,
            ControlFlow::Continue(going) => run = going.look_at(&mut table[going.at], store),
        }
    }
}

// At most so many dealt turns as are asked for, over whatever is lent.
pub fn deal_lent(ask: Ask, store: &mut [u64], table: &mut [Worker]) -> Ended
    ensures { leaves_deal store.new table.new result
        ≡ dealt_run (is_whole ask.look) ask.shape ask.turns (lent store.old table.old) ask.dealer }
{
    let seen = survey_table(ask.shape, ask.request(), table);
    let start = ask.begin(table.len(), seen, store);
    deal_turns(start, store, table)
}
