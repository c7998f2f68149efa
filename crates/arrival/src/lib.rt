// The types that specifications and code share, the order of keys and the bucket of a time.
#![tactic(auto)]

ghost use Rattle.std.specs.Prelude.{◌≡◌, ◌≤◌};
ghost use Rattle.arrival.specs.Keys.{lower_key, bucket_of};

pub mod refusals;
pub mod requests;
pub mod rounds;
pub mod spreading;

// The shape of a pool: how many workers, nodes and buckets, and a bucket's width in samples.
#[repr(C)]
#[derive(Clone, Copy, Default)]
pub struct Shape {
    pub workers: u64,
    pub nodes: u64,
    pub buckets: u64,
    pub width: u64,
}

// What a tracer hands in: the time in samples, the path's number, the reflection order, the distance in metres.
#[repr(C)]
#[derive(Clone, Copy)]
pub struct Arrival {
    pub time: u32,
    pub path: u32,
    pub order: u32,
    pub distance: u32,
}

// A worker's record. `left` is a cell (heads first, then node links), `right` a node or the end, `seen` the link word
// seen, `current` the current word seen, `ticket` the call's place among all calls. The default has no call in progress, as opening leaves it.
// Kept as numbers: stage and kind lie in memory that C lends and that may hold any number, which refusal 3 tests.
#[repr(C)]
#[derive(Clone, Copy, Default)]
pub struct Worker {
    pub stage: u64,
    pub kind: u64,
    pub own: u64,
    pub bucket: u64,
    pub left: u64,
    pub right: u64,
    pub seen: u64,
    pub current: u64,
    pub ticket: u64,
}

// An arrival with its ticket, as a queue holds it.
#[derive(Clone, Copy)]
pub struct Item {
    pub time: u64,
    pub path: u64,
    pub order: u64,
    pub distance: u64,
    pub ticket: u64,
}

// What an item's place in the order is read from: by time, then reflection order, then ticket, as the fields stand.
#[derive(Clone, Copy, PartialEq, Eq, PartialOrd, Ord)]
pub struct Key {
    pub time: u64,
    pub order: u64,
    pub ticket: u64,
}

// What is done to an open pool: a put start, a take start or a turn, each of one worker.
#[derive(Clone, Copy)]
pub enum Action {
    Enqueue(u64, Arrival),
    Dequeue(u64),
    Step(u64),
}

// What a host asks of it: an action by a look at the whole of the lent memory; or a narrow one, with at most so many turns behind it.
#[derive(Clone, Copy)]
pub enum Request {
    Whole(Action),
    Narrow(Action, u64),
}

// What the pool answers. `Begun` and `Stored` carry the ticket, `Refused` the refusal's number.
// Kept as a number: the rules number the refusals (calendar/rules/Refusals), and theorems on `Refused n` speak of every n (facts_hold).
#[derive(Clone, Copy)]
pub enum Response {
    Opened,
    Begun(u64),
    On,
    Stored(u64),
    Took {
        time: u64,
        path: u64,
        order: u64,
        distance: u64,
        energy: u64,
    },
    Empty,
    Refused(u64),
}

// Whether key a is lower than key b.
pub fn is_lower(a: Key, b: Key) -> bool
    ensures { result ≡ lower_key a b }
{
    a < b
}

// The bucket of a time.
#[tactic(auto, unfolding(crate::specs::Keys::bucket_of))]
pub fn bucket_of(shape: Shape, time: u64) -> u64
    requires { (1 ≤ shape.buckets) × (1 ≤ shape.width) }
    ensures { result ≡ bucket_of shape time }
{
    (time / shape.width).min(shape.buckets - 1)
}
