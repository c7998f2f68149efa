// `turns`: a turn file on standard input, its lines on standard output.
#![tactic(auto)]

ghost use Rattle.std.specs.Prelude.{◌≡◌, ◌-◌, ◌≤◌, ◌<◌, length, take};
ghost use Rattle.turn_file.specs.Buffer.{written, after};
ghost use Rattle.batch.specs.TurnFile.{zeros};
ghost use Rattle.batch.specs.CodeView.{Sound};
ghost use Rattle.laws.specs.Storing.{moved};
ghost use Rattle.turns.specs.TurnsRun.{lent, follows, last_line, round_of, at_first};
ghost use Rattle.turns.specs.BetweenRounds.{in_hand, holding, leaves, Placed};
ghost use Rattle.turns.specs.RunFollows.{Outcome};

use arrival::{Shape, Worker};
use batch::{HeldPool, Stop, run_batch};
use std::io;
use std::io::{ErrorKind, Read, Write};
use turn_file::{Unreadable, write_refusal};

// What follows a batch: the rest of its bytes, more bytes behind that rest, or the run's end, without a last line or with the line of a refusal.
#[derive(Clone, Copy)]
enum Next {
    More,
    Read,
    End,
    Last(Unreadable),
}

// Where a round leaves the run: of its bytes those from `at` on are not yet worked through, the lines stand before `to`.
#[derive(Drop)]
struct Round {
    pool: HeldPool,
    at: usize,
    to: usize,
    next: Next,
}

// Why the rounds ended, where the output stayed open: one said so, or all were used up.
#[derive(Drop)]
enum Ended {
    Finished,
    Spent,
}

// How many words are lent.
const WORDS: usize = 4355;

// The words that are lent.
fn lent_words() -> [u64; WORDS]
    ensures { result ≡ lent.store }
{
    [0; WORDS]
}

// The shape before the first opening.
fn no_shape() -> Shape
    ensures { result ≡ zeros }
{
    Shape::default()
}

// The records that are lent: all workers are idle.
#[tactic(auto, unfolding(crate::specs::TurnsRun::lent, calendar::specs::rules::Ranges::blank))]
fn idle_records() -> [Worker; 64]
    ensures { result ≡ lent.table }
{
    [Worker::default(); 64]
}

// Before the first opening: a shape of zeros and idle workers.
fn fresh_pool(store: &[u64]) -> HeldPool
    ensures { Sound result store.now × (result.shape ≡ zeros) × (result.records ≡ 64) × (result.table ≡ lent.table) }
{
    HeldPool {
        shape: no_shape(),
        sound: false,
        records: 64,
        held: 0,
        table: idle_records(),
    }
}

// What follows a batch that stopped so; `ended` tells whether the input has ended.
fn follow(stop: Stop, ended: bool) -> Next
    ensures { result ≡ follows ended stop }
{
    match stop {
        Stop::Full => Next::More,
        Stop::Drained if ended => Next::End,
        Stop::Drained => Next::Read,
        Stop::Halted(Unreadable::CutRecord) if !ended => Next::Read,
        Stop::Halted(why) => Next::Last(why),
    }
}

// Writes the last line, where there is one: the place behind it.
// Kept: a place beside the buffer, here and in `Round`, since `written` and `after` are of any place, past the end too.
fn close(next: Next, out: &mut [u8], to: usize) -> usize
    ensures { (result ≡ after out.old to (last_line next)) × (out.new ≡ written out.old to (last_line next)) }
{
    match next {
        Next::Last(why) => write_refusal(why.into(), out, to),
        Next::More | Next::Read | Next::End => to,
    }
}

// Moves the bytes from `at` to `have` to the front: how many they are.
// Kept: `input` with its places beside it; a struct of them would be lent whole, while a round is handed a part of `input` and `run` promises of any buffer.
#[tactic(auto, unfolding(laws::specs::Storing::moved))]
fn keep_rest(input: &mut [u8], at: usize, have: usize) -> usize
    requires { (at ≤ have) × (have ≤ length input.old) }
    ensures { (result ≡ have - at) × (length input.new ≡ length input.old)
        × (input.new ≡ moved at (have - at) input.old) }
{
    input.copy_within(at..have, 0);
    have - at
}

// Reads behind the first `have` bytes, for which there is room: how many there are then. A read that fails is as one that hands over nothing.
fn read_more<R: Read>(from: &mut R, input: &mut [u8], have: usize) -> usize
    requires { have < length input.old }
    ensures { (have ≤ result) × (result ≤ length input.old) × (length input.new ≡ length input.old)
        × (take have input.new ≡ take have input.old) }
{
    let free = &mut input[have..];
    have + from.read(free).unwrap_or(0)
}

// Writes all of the bytes, or stops at the first write that takes nothing or fails.
// Kept: a loop of its own, since `write_all` would write again after a signal, and rule O8 (docs/RULES.md) ends the program there.
fn write_out<W: Write>(to: &mut W, bytes: &[u8]) -> io::Result<()> {
    let mut rest = bytes;
    while !rest.is_empty() {
        match to.write(rest)? {
            0 => return Err(ErrorKind::WriteZero.into()),
            n => rest = &rest[n..],
        }
    }
    Ok(())
}

// One round over the bytes in hand: a batch, the last line behind it, and what follows.
fn one_round(pool: HeldPool, ended: bool, bytes: &[u8], out: &mut [u8], store: &mut [u64]) -> Round
    requires { Sound pool store.old }
    ensures { (leaves result bytes.now out.new store.new ≡ round_of (holding pool store.old ended bytes.now out.old))
        × Sound result.pool store.new × Placed result bytes.now out.new × (length out.new ≡ length out.old) }
{
    let p = run_batch(pool, bytes, 0, out, 0, store);
    let stop = p.stop;
    let next = follow(stop, ended);
    let to = close(next, out, p.to);
    let pool = p.pool;
    Round {
        pool,
        at: p.at,
        to,
        next,
    }
}

// Round after round, until one says that the run ends, the output is closed, or all rounds are used up.
fn run<R: Read, W: Write>(
    from: &mut R,
    to: &mut W,
    store: &mut [u64],
    input: &mut [u8],
    out: &mut [u8],
) -> io::Result<Ended>
    requires { (store.old ≡ lent.store) × (12 ≤ length input.old) × (89 ≤ length out.old) }
    ensures { Outcome (at_first lent out.old) store.new result }
{
    let mut pool = fresh_pool(store);
    let mut ended = false;
    let mut at: usize = 0;
    let mut have: usize = 0;
    for _round in 0..u64::MAX {
        let r = one_round(pool, ended, &input[at..have], out, store);
        let n = r.to;
        write_out(to, &out[..n])?;
        let after = r.pool;
        pool = after;
        at += r.at;
        match r.next {
            Next::More => {}
            Next::Read => {
                let kept = keep_rest(input, at, have);
                at = 0;
                have = read_more(from, input, kept);
                ended = have == kept;
            }
            Next::End | Next::Last(_) => {
                return Ok(Ended::Finished);
            }
        }
    }
    Ok(Ended::Spent)
}

fn main(rt: HostRuntime) {
    let mut store = lent_words();
    let mut input = [0u8; 65536];
    let mut out = [0u8; 65536];
    // However it ends, the status is 0 (rule O6).
    let _ended = run(
        &mut rt.stdin(),
        &mut rt.stdout(),
        &mut store,
        &mut input,
        &mut out,
    );
}
