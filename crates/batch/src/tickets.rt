// The tickets of the calls in progress beside the workers' records, so that the least one is found without looking at those.
ghost use Rattle.std.specs.Prelude.{◌≡◌, ◌≤◌};
ghost use Rattle.batch.specs.Tickets.{tickets_of, least_of, low_for};

use arrival::{Action, Worker};
use starts::free::lower_ticket;
use words::word;

// The ticket of each record's call; 2^32 where none is in progress.
pub fn tickets_of(table: &[Worker; 64]) -> [u64; 64]
    ensures { result ≡ tickets_of table.now }
{
    let mut tickets = [word::COUNTS; 64];
    for i in 0..64 {
        tickets[i] = lower_ticket(word::COUNTS, table[i]);
    }
    tickets
}

// The least of the first n.
fn least_of(tickets: &[u64; 64], n: usize) -> u64
    requires { n ≤ 64 }
    ensures { (result ≡ least_of tickets.now n) × (result ≤ 4294967296) }
{
    tickets[..n]
        .iter()
        .fold(word::COUNTS, |low, ticket| low.min(*ticket))
}

// Kept: 0 where no ticket is asked for, and no Option: `low_for` (batch/Tickets) has it, and `perform` does not read it then.
// The same where the action asks for it.
pub fn low_for(action: Action, tickets: &[u64; 64], n: usize) -> u64
    requires { n ≤ 64 }
    ensures { (result ≡ low_for action tickets.now n) × (result ≤ 4294967296) }
{
    match action {
        Action::Enqueue(_, _) => least_of(tickets, n),
        Action::Dequeue(_) | Action::Step(_) => 0,
    }
}
