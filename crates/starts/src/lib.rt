// The by-value starts: one worker's record and the lent store, after refusals 1 to 4.
#![tactic(auto)]

ghost use Rattle.std.specs.Prelude.{◌≡◌, ◌<◌, ◌≤◌, eqb};
ghost use Rattle.laws.specs.FirstOf.{first_of};
ghost use Rattle.arrival.specs.Refusals.{refusal_of};
ghost use Rattle.calendar.specs.rules.Layout.{word, write, write_all, started, last_node};
ghost use Rattle.calendar.specs.rules.Refusals.{bad_arrival, dequeue_own};
ghost use Rattle.calendar.specs.rules.Starts.{next_ticket, item_of, fill, enqueue_start, dequeue_start};
ghost use Rattle.words.specs.Done.{done, left, reply_of};
ghost use Rattle.words.specs.Kept.{Kept};
ghost use Rattle.starts.specs.LocalStart.{early_refusal, local_enqueue, local_dequeue};

use admission::ranges::{distance_in_range, order_in_range, path_in_range};
use arrival::refusals::Refusal;
use arrival::{Arrival, Item, Response, Worker, bucket_of};
use free::first_free;
use words::field::Field;
use words::replies::Reply;
use words::store::Store;
use words::word;
use words::word::Word;

pub mod free;
pub mod opening;

// An arrival with the ticket of its call.
fn item_of(arrival: Arrival, ticket: u64) -> Item
    ensures { result ≡ item_of arrival ticket }
{
    Item {
        time: u64::from(arrival.time),
        path: u64::from(arrival.path),
        order: u64::from(arrival.order),
        distance: u64::from(arrival.distance),
        ticket,
    }
}

// One more call is started: its ticket.
fn next_ticket(store: &mut Store<'_>) -> u64
    requires { started store.old.shape store.old.words.now < 4294967296 }
    ensures kept { Kept store.old store.new }
    ensures next { result ≡ next_ticket store.old.shape store.old.words.now }
    ensures counted { store.new.words.now ≡ write store.old.shape store.old.words.now (word 1) result }
{
    let ticket = store.view().word(Word::Started) + 1;
    store.set_word(Word::Started, ticket);
    ticket
}

// Node n gets the arrival and its ticket, and is in use.
fn fill_node(n: u64, x: Item, store: &mut Store<'_>)
    requires { n < store.old.shape.nodes }
    ensures kept { Kept store.old store.new }
    ensures filled { store.new.words.now ≡ write_all store.old.shape store.old.words.now (fill n x) }
{
    store.set_field(Field::Time, n, x.time);
    store.set_field(Field::Ticket, n, x.ticket);
    store.set_field(Field::Path, n, x.path);
    store.set_field(Field::Order, n, x.order);
    store.set_field(Field::Distance, n, x.distance);
    store.set_field(Field::Standing, n, 1);
}

// A put start on node n.
#[tactic(auto, unfolding(calendar::specs::rules::Starts::enqueue_start))]
pub fn begin_enqueue(n: u64, arrival: Arrival, w: Worker, store: &mut Store<'_>) -> Reply
    requires { (started store.old.shape store.old.words.now < 4294967296) × (n < store.old.shape.nodes) × (1 ≤ store.old.shape.width) }
    ensures kept { Kept store.old store.new }
    ensures begun { left store.new result ≡ done store.old.shape store.old.words.now
        (enqueue_start store.old.shape store.old.words.now n arrival w) }
{
    let ticket = next_ticket(store);
    let x = item_of(arrival, ticket);
    store.set_word(Word::LastNode, n);
    fill_node(n, x, store);
    Reply {
        worker: Worker {
            stage: 1,
            kind: 0,
            own: n,
            bucket: bucket_of(store.shape, x.time),
            ticket,
            ..w
        },
        response: Response::Begun(ticket),
    }
}

// A take start.
#[tactic(auto, unfolding(calendar::specs::rules::Starts::dequeue_start))]
pub fn begin_dequeue(w: Worker, store: &mut Store<'_>) -> Reply
    requires { started store.old.shape store.old.words.now < 4294967296 }
    ensures kept { Kept store.old store.new }
    ensures begun { left store.new result ≡ done store.old.shape store.old.words.now (dequeue_start store.old.shape store.old.words.now w) }
{
    let ticket = next_ticket(store);
    Reply {
        worker: Worker {
            stage: 8,
            kind: 1,
            ticket,
            ..w
        },
        response: Response::Begun(ticket),
    }
}

// What refusal 5 tests.
fn is_bad(arrival: Arrival) -> bool
    ensures { result ≡ bad_arrival arrival }
{
    !(path_in_range(u64::from(arrival.path))
        & order_in_range(u64::from(arrival.order))
        & distance_in_range(u64::from(arrival.distance)))
}

// The refusals of every start, by its worker's stage and word 1: 9 or 11.
fn start_refusal(w: Worker, started: u64) -> Result<(), Refusal>
    ensures { refusal_of result ≡ first_of (dequeue_own w (eqb started 4294967295)) }
{
    if w.stage != 0 {
        return Err(Refusal::Busy);
    }
    if started == word::MAX_COUNT {
        return Err(Refusal::Exhausted);
    }
    Ok(())
}

// Those of a put before a node is looked for: 5, and then those of every start.
fn enqueue_refusal(arrival: Arrival, w: Worker, started: u64) -> Result<(), Refusal>
    ensures early { refusal_of result ≡ early_refusal arrival w started }
{
    if is_bad(arrival) {
        return Err(Refusal::BadArrival);
    }
    start_refusal(w, started)
}

// A put start with its refusals; low: the least ticket in progress.
pub fn start_enqueue(
    low: u64,
    arrival: Arrival,
    w: Worker,
    store: &mut Store<'_>,
) -> Result<Reply, Refusal>
    requires { (started store.old.shape store.old.words.now < 4294967296) × (last_node store.old.shape store.old.words.now < store.old.shape.nodes)
        × (low ≤ 4294967296) × (1 ≤ store.old.shape.width) }
    ensures kept { Kept store.old store.new }
    ensures gives { left store.new (reply_of w result) ≡ local_enqueue store.old.shape low store.old.words.now arrival w }
{
    enqueue_refusal(arrival, w, store.view().word(Word::Started))?;
    let n = first_free(low, &store.view()).ok_or(Refusal::NoNode)?;
    Ok(begin_enqueue(n, arrival, w, store))
}

// A take start with its refusals.
pub fn start_dequeue(w: Worker, store: &mut Store<'_>) -> Result<Reply, Refusal>
    requires { started store.old.shape store.old.words.now < 4294967296 }
    ensures kept { Kept store.old store.new }
    ensures gives { left store.new (reply_of w result) ≡ local_dequeue store.old.shape store.old.words.now w }
{
    start_refusal(w, store.view().word(Word::Started))?;
    Ok(begin_dequeue(w, store))
}
