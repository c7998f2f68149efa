// The ranges as tests: of the shape, of an arrival's fields, of the lent store, of one worker's record.
ghost use Rattle.std.specs.Prelude.{◌≡◌, Bool, ℕ, ◌+◌, ◌<◌, ◌≤◌};
ghost use Rattle.laws.specs.Counting.{every};
ghost use Rattle.calendar.specs.rules.Ranges.{shape_in_range, path_in_range, order_in_range, distance_in_range};
ghost use Rattle.calendar.specs.rules.Ranges.{head_in_range, node_in_range, words_in_range, store_in_range};
ghost use Rattle.calendar.specs.rules.Ranges.{call_in_range, place_in_range, words_held_in_range, record_in_range};
ghost use Rattle.calendar.specs.facts.RecordsKept.{links_in_range};

use arrival::{Shape, Worker};
use words::field::Field;
use words::store::View;
use words::word::{COUNTS, STANDINGS, Word};

// What refusal 1 tests.
pub fn shape_in_range(shape: Shape) -> bool
    ensures { result ≡ shape_in_range shape }
{
    matches!(shape.workers, 1..=64)
        & matches!(shape.nodes, 1..=4096)
        & matches!(shape.buckets, 1..=256)
        & matches!(shape.width, 1..=65535)
}

const MAX_PATH: u64 = 65535;

pub fn path_in_range(path: u64) -> bool
    ensures { result ≡ path_in_range path }
{
    path <= MAX_PATH
}

const MAX_ORDER: u64 = 63;

pub fn order_in_range(order: u64) -> bool
    ensures { result ≡ order_in_range order }
{
    order <= MAX_ORDER
}

const MAX_DISTANCE: u64 = 1024;

pub fn distance_in_range(distance: u64) -> bool
    ensures { result ≡ distance_in_range distance }
{
    (1 <= distance) & (distance <= MAX_DISTANCE)
}

// The head of bucket b: unmarked, its successor a node or the end.
pub fn head_in_range(view: &View<'_>, b: u64) -> bool
    requires { b < view.now.shape.buckets }
    ensures { result ≡ head_in_range view.now.shape view.now.words.now b }
{
    let head = view.cell(b);
    (head % 2 == 0) & (head / 2 <= view.shape.nodes)
}

// The eight words of node n, tested together: no exit at the first that is out of range.
pub fn node_in_range(view: &View<'_>, n: u64) -> bool
    requires { n < view.now.shape.nodes }
    ensures { result ≡ node_in_range view.now.shape view.now.words.now n }
{
    let link = view.cell(view.shape.buckets + n);
    let distance = view.field(Field::Distance, n);
    let standing = view.field(Field::Standing, n);
    (link / 2 <= view.shape.nodes)
        & (view.field(Field::Time, n) < COUNTS)
        & (view.field(Field::Ticket, n) < COUNTS)
        & path_in_range(view.field(Field::Path, n))
        & order_in_range(view.field(Field::Order, n))
        & ((1 <= distance) | (standing == 0))
        & (distance <= MAX_DISTANCE)
        & (view.field(Field::Epoch, n) < COUNTS)
        & (standing < STANDINGS)
}

// The three first words.
pub fn words_in_range(view: &View<'_>) -> bool
    ensures { result ≡ words_in_range view.now.shape view.now.words.now }
{
    let current = view.word(Word::Current);
    let started = view.word(Word::Started);
    let last = view.word(Word::LastNode);
    (current / COUNTS < view.shape.buckets) & (started < COUNTS) & (last < view.shape.nodes)
}

// Whether a test holds of each number below n. All are made: a loop without an exit is the faster one.
fn holds_below<F: Fn(u64) -> bool>(n: u64, holds: F) -> bool
    requires { (k : ℕ) → k < n → F.pre holds k }
    ensures { (f : ℕ → Bool) → ((k : ℕ) (r : Bool) → k < n → F.post holds k r → r ≡ f k) → result ≡ every n f }
{
    let mut ok = true;
    for k in 0..n {
        ok &= holds(k);
    }
    ok
}

// The store's share of refusal 3: three words, the heads, the nodes, in one pass each.
pub fn store_in_range(view: &View<'_>) -> bool
    ensures { result ≡ store_in_range view.now.shape view.now.words.now }
{
    words_in_range(view)
        & holds_below(view.shape.buckets, |b| head_in_range(view, b))
        & holds_below(view.shape.nodes, |n| node_in_range(view, n))
}

// Which call a record is of: its stage, its kind, its node. Stages 4 to 7 are a put's, 8 to 13 a take's.
// Kept: the kind by one comparison: by two ranges of stages a record took 3.0 ns, and so it takes 2.4 (docs/PERFORMANCE.md).
fn call_in_range(shape: Shape, w: Worker) -> bool
    ensures { result ≡ call_in_range shape w }
{
    let k = w.stage;
    (k <= 13) & (w.kind <= 1) & ((k < 4) | (w.kind == k / 8)) & (w.own < shape.nodes)
}

// Where its call stands: not at the last bucket at 12, and right is no end at 2, 3, 10 and 11.
// Kept: stages compared and no `matches!`, with which a record took 63 instructions: so it takes 59.
fn place_in_range(shape: Shape, w: Worker) -> bool
    requires some_bucket { 1 ≤ shape.buckets }
    requires nodes_bound { shape.buckets + shape.nodes < 65536 }
    ensures { result ≡ place_in_range shape w }
{
    let k = w.stage;
    (w.bucket < shape.buckets)
        & !((k == 12) & (w.bucket == shape.buckets - 1))
        & (w.left < shape.buckets + shape.nodes)
        & (w.right <= shape.nodes)
        & !(((2 <= k) & (k <= 3) | (10 <= k) & (k <= 11)) & (w.right == shape.nodes))
}

// The words that it holds from the store, and its ticket.
fn words_held_in_range(shape: Shape, w: Worker) -> bool
    ensures { result ≡ words_held_in_range shape w }
{
    (w.seen / 2 <= shape.nodes) & (w.current / COUNTS < shape.buckets) & (w.ticket < COUNTS)
}

// A record's share of refusal 3, in three parts: records out of range are rare, and an exit hardly ever taken costs less than tests joined by `&`.
pub fn record_in_range(shape: Shape, w: Worker) -> bool
    requires some_bucket { 1 ≤ shape.buckets }
    requires nodes_bound { shape.buckets + shape.nodes < 65536 }
    ensures { result ≡ record_in_range shape w }
{
    call_in_range(shape, w) && place_in_range(shape, w) && words_held_in_range(shape, w)
}

// What a turn may have read from elsewhere into its record.
pub fn links_in_range(shape: Shape, w: Worker) -> bool
    ensures { result ≡ links_in_range shape w }
{
    (w.right <= shape.nodes) & (w.seen / 2 <= shape.nodes)
}
