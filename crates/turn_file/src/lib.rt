// The turn file: records in, lines out.
// Assumes nothing of its input: any bytes, any position and any buffer are answered.
#![tactic(auto)]

mod fields;
mod lines;

ghost use Rattle.std.specs.Prelude.{◌≡◌, ◌+◌, ◌≤◌, ◌<◌, length, take, MatchResult};
ghost use Rattle.turn_file.specs.declared.Unreadable.TheVariants.{CutRecord};
ghost use Rattle.turn_file.specs.Reading.{number_of, record_at};
ghost use Rattle.arrival.specs.declared.Response.TheVariants.{Opened, Refused};
ghost use Rattle.turn_file.specs.Lines.{line_of};
ghost use Rattle.turn_file.specs.Buffer.{written, after};

use arrival::{Action, Response, Shape};

// A record: an opening with this shape, or an action of a worker.
#[derive(Clone, Copy)]
pub enum Record {
    Open(Shape),
    Act(Action),
}

// Why no record can be read: its two letters are no mark, or the bytes end inside it. Each is numbered as the refusal that it is.
#[derive(Clone, Copy, Debug, PartialEq, Eq)]
pub enum Unreadable {
    UnknownMark = 7,
    CutRecord = 8,
}

impl From<Unreadable> for u64 {
    ghost from_gives = { λ why number. number ≡ number_of why };

    fn from(why: Unreadable) -> u64 {
        why as u64
    }
}

// The first bytes of what is left, as many as a record has.
fn front<const N: usize>(left: &[u8]) -> Result<&[u8; N], Unreadable>
    ensures { MatchResult result (λ front. (N ≤ length left.now) × (front.now ≡ take N left.now)) (λ why. (why ≡ CutRecord) × (length left.now < N)) }
{
    left.first_chunk().ok_or(Unreadable::CutRecord)
}

// The record at a position, wherever that is, and the position after it; none at the end.
// Kept: positions beside the bytes, here and below, since `record_at`, `written` and `after` speak of any, past the end too.
pub fn read_record(bytes: &[u8], at: usize) -> Result<Option<(Record, usize)>, Unreadable>
    ensures { result ≡ record_at bytes.now at }
{
    if bytes.len() <= at {
        return Ok(None);
    }
    let left = &bytes[at..];
    let (record, size) = match front(left)? {
        b"OP" => (Record::Open(fields::shape_of(front(left)?)), 9),
        b"PU" => (Record::Act(fields::enqueue_of(front(left)?)), 12),
        b"TA" => (
            Record::Act(Action::Dequeue(fields::worker_of(front(left)?))),
            3,
        ),
        b"TU" => (
            Record::Act(Action::Step(fields::worker_of(front(left)?))),
            3,
        ),
        _ => return Err(Unreadable::UnknownMark),
    };
    Ok(Some((record, at + size)))
}

// Writes a response's line at a position of a lent buffer: the position after it. Where it does not fit, nothing is
// written and the position is the same.
#[tactic(auto, using(crate::proofs::LineLaws::line_most), unfolding(crate::specs::Lines::line_of))]
pub fn write_line(response: Response, out: &mut [u8], at: usize) -> usize
    ensures { (result ≡ after out.old at (line_of response))
        × (out.new ≡ written out.old at (line_of response))
        × (length (line_of response) ≤ 89) }
{
    match response {
        Response::Opened => lines::word_line(b"open\n", out, at),
        Response::Begun(ticket) => lines::number_line(b"begun ", ticket, out, at),
        Response::On => lines::word_line(b"on\n", out, at),
        Response::Stored(ticket) => lines::number_line(b"stored ", ticket, out, at),
        Response::Took {
            time,
            path,
            order,
            distance: _,
            energy,
        } => lines::took_line(time, path, order, energy, out, at),
        Response::Empty => lines::word_line(b"empty\n", out, at),
        Response::Refused(number) => lines::number_line(b"no ", number, out, at),
    }
}

// The same for a refusal, and for an opening.
// Kept: where a batch and `turns` write these by `write_line` too, `turns` runs 29 per cent more instructions, inlined by force 3 to 4 (docs/PERFORMANCE.md).
pub fn write_refusal(number: u64, out: &mut [u8], at: usize) -> usize
    ensures { (result ≡ after out.old at (line_of (Refused number)))
        × (out.new ≡ written out.old at (line_of (Refused number)))
        × (length (line_of (Refused number)) ≤ 89) }
{
    lines::number_line(b"no ", number, out, at)
}

#[tactic(auto, using(crate::proofs::LineLaws::line_most), unfolding(crate::specs::Lines::line_of))]
pub fn write_opened(out: &mut [u8], at: usize) -> usize
    ensures { (result ≡ after out.old at (line_of Opened))
        × (out.new ≡ written out.old at (line_of Opened))
        × (length (line_of Opened) ≤ 89) }
{
    lines::word_line(b"open\n", out, at)
}
