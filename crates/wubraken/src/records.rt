// A request on one record: refusals 1 to 4, by a look at every field or a narrow one, then `operation::perform_turns`; and what an opening clears.
ghost use Rattle.std.specs.Prelude.{◌≡◌, ◌≤◌, true, is_ok};
ghost use Rattle.arrival.specs.Refusals.{refusal_of};
ghost use Rattle.arrival.specs.Requests.{actor, action_of, turns_of, is_whole};
ghost use Rattle.calendar.specs.rules.Ranges.{shape_in_range};
ghost use Rattle.operation.specs.LocalAct.{Admitted, local_act};
ghost use Rattle.operation.specs.LocalTurns.{local_turns};
ghost use Rattle.words.specs.Done.{gives, reply_of};
ghost use Rattle.wubraken.specs.LentGate.{flag_of, gate_on};
ghost use Rattle.wubraken.specs.Results.{near_by, act_on, records_opened};
ghost use Rattle.wubraken.specs.Survey.{Surveyed, low_of};

use admission::ranges::record_in_range;
use admission::{gate, is_near, is_sound};
use arrival::refusals::Refusal;
use arrival::{Request, Shape, Worker};
use operation::perform_turns;
use words::replies::Reply;
use words::store::Store;

// The flag that the gate goes by, of n records: by a look at all words, or at the three first; near: the records that the request looks at are in range.
#[inline(always)]
fn flag_of(shape: Shape, request: Request, n: usize, near: bool, store: &[u64]) -> bool
    ensures { result ≡ flag_of (is_whole request) shape store.now n near }
{
    if request.is_whole() {
        is_sound(shape, n, near, store)
    } else {
        is_near(shape, n, near, store)
    }
}

// Refusals 1 to 4. Compiled in at both calls: as calls of functions, with their arguments in memory, they cost a narrow turn a tenth of its instructions.
#[inline(always)]
fn gate_on(
    shape: Shape,
    request: Request,
    n: usize,
    near: bool,
    store: &[u64],
) -> Result<(), Refusal>
    ensures { refusal_of result ≡ gate_on (is_whole request) shape store.now (actor (action_of request)) n near }
{
    let flag = flag_of(shape, request, n, near, store);
    gate(shape, store.len(), n, request.action().worker(), flag)
}

// What refuses it where its worker has no record, by what the look over the records has found.
#[inline(always)]
pub fn turn_away(
    shape: Shape,
    request: Request,
    n: usize,
    seen: Result<u64, u64>,
    store: &[u64],
) -> Result<(), Refusal>
    ensures { refusal_of result ≡ gate_on (is_whole request) shape store.now (actor (action_of request)) n (is_ok seen) }
{
    gate_on(shape, request, n, seen.is_ok(), store)
}

// Whether the records that the request looks at are in range: all workers', by what the look over them has found, or its own worker's, w.
fn are_near(shape: Shape, request: Request, seen: Result<u64, u64>, w: Worker) -> bool
    requires { shape_in_range shape ≡ true }
    ensures { result ≡ near_by shape request seen w }
{
    if request.looks_at_all() {
        seen.is_ok()
    } else {
        record_in_range(shape, w)
    }
}

// The least ticket that the look has found.
fn low_of(seen: Result<u64, u64>) -> u64
    ensures { result ≡ low_of seen }
{
    match seen {
        Ok(low) | Err(low) => low,
    }
}

// The start or turn that is asked for, of record w, and the turns that may follow it.
fn perform_on(shape: Shape, low: u64, request: Request, w: Worker, words: &mut [u64]) -> Reply
    requires admitted { Admitted shape words.old w }
    requires low_bound { low ≤ 4294967296 }
    ensures { gives words.new result ≡ local_turns shape (turns_of request) (local_act shape low words.old (action_of request) w) }
{
    let mut store = Store { shape, words };
    perform_turns(low, request.action(), request.turns(), w, &mut store)
}

// A request on its worker's record w.
pub fn act_on_record(
    shape: Shape,
    request: Request,
    n: usize,
    seen: Result<u64, u64>,
    w: Worker,
    store: &mut [u64],
) -> Result<Reply, Refusal>
    requires { Surveyed shape request seen w }
    ensures { gives store.new (reply_of w result) ≡ act_on shape request n seen store.old w }
{
    let near = are_near(shape, request, seen, w);
    gate_on(shape, request, n, near, store)?;
    Ok(perform_on(shape, low_of(seen), request, w, store))
}

// How many records an opening clears; k: the number that refuses it, or 0.
pub fn records_opened(shape: Shape, k: u64) -> usize
    ensures { result ≡ records_opened shape k }
{
    if k != 0 {
        return 0;
    }
    shape.workers as usize
}
