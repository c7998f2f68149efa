// A batch of a turn file against a pool: whole records in, lines out.
#![tactic(auto)]

ghost use Rattle.std.specs.Prelude.{◌≡◌, ◌+◌, ◌<◌, leb, true};
ghost use Rattle.batch.specs.Batch.{worked_all};
ghost use Rattle.batch.specs.Held.{held_all};
ghost use Rattle.batch.specs.CodeView.{begins, ends, Sound};
ghost use Rattle.batch.specs.RoundArms.{Line};
ghost use Rattle.batch.specs.ActHeld.{place_of};
ghost use Rattle.admission.specs.Gate.{open_response};
ghost use Rattle.arrival.specs.Refusals.{refusal_of};
ghost use Rattle.arrival.specs.declared.Response.TheVariants.{On};

use arrival::refusals::Refusal;
use arrival::{Action, Response, Shape, Worker};
use known::Known;
use starts::free::lower_ticket;
use tickets::tickets_of;
use turn_file::{Record, Unreadable, read_record, write_line, write_opened, write_refusal};
use words::word;

mod known;
pub mod table;
pub mod tickets;

// Why a batch was left: every byte is worked through, the next line may not fit, or what follows cannot be read.
#[derive(Clone, Copy, PartialEq, Eq, Debug)]
pub enum Stop {
    Drained,
    Full,
    Halted(Unreadable),
}

// A pool between two batches: the shape so far, whether store and table are in range, the workers' records.
// `records` are lent, of which the first `held` stand in the array; what stands behind those says nothing of the lent ones.
// Kept: 64 records with their number beside, since memory is fixed; `sound` is no Option, since shape and records stand either way.
#[derive(Clone, Copy)]
pub struct HeldPool {
    pub shape: Shape,
    pub sound: bool,
    pub records: usize,
    pub held: usize,
    pub table: [Worker; 64],
}

// How far a batch was worked through: the next byte, the place of the next line, and why it was left.
#[derive(Clone, Copy)]
pub struct Progress {
    pub pool: HeldPool,
    pub at: usize,
    pub to: usize,
    pub stop: Stop,
}

// Whether the longest line fits from `to` on.
fn has_room(room: usize, to: usize) -> bool
    ensures { result ≡ leb (to + 89) room }
{
    if room < 89 {
        return false;
    }
    to <= room - 89
}

// Where the record of an action's worker stands; the last place, for a number past the array.
fn place_of(action: Action) -> usize
    ensures { (result ≡ place_of action) × (result < 64) }
{
    action.worker().min(63) as usize
}

// Whether a call that is answered so goes on with the ticket that it had; a turn stores none then.
fn keeps_ticket(response: Response) -> bool
    ensures { result ≡ true → response ≡ On }
{
    matches!(response, Response::On)
}

// The line of an opening, refused or not.
fn write_opening(opened: Result<(), Refusal>, out: &mut [u8], to: usize) -> usize
    ensures { Line out.old to (open_response (refusal_of opened)) out.new result }
{
    match opened {
        Ok(()) => write_opened(out, to),
        Err(refusal) => write_refusal(refusal.number(), out, to),
    }
}

// Kept: positions beside the bytes, since `begins` and `worked_all` speak of any, past the end too.
// Kept: line, ticket, record in this order: with the record stored before the ticket `turns` ran 2 to 3 per cent more instructions (docs/PERFORMANCE.md).
// Works through the records from `at` on and writes their lines from `to` on, while the longest line fits.
pub fn run_batch(
    pool: HeldPool,
    input: &[u8],
    mut at: usize,
    out: &mut [u8],
    mut to: usize,
    store: &mut [u64],
) -> Progress
    requires { Sound pool store.old }
    ensures { (ends store.new out.new result ≡ worked_all input.now (begins pool store.old at out.old to))
        × Sound result.pool store.new × (result.pool.records ≡ pool.records)
        × (result.pool.held ≡ held_all input.now pool.held (begins pool store.old at out.old to)) }
{
    let mut table = pool.table;
    let mut tickets = tickets_of(&table);
    let mut known = Known {
        shape: pool.shape,
        sound: pool.sound,
        records: pool.records,
        held: pool.held,
    };
    let stop = loop {
        if !has_room(out.len(), to) {
            break Stop::Full;
        }
        match read_record(input, at) {
            Ok(Some((found, next))) => {
                match found {
                    Record::Open(shape) => {
                        let opened = known.open(shape, &mut table, &mut tickets, store);
                        to = write_opening(opened, out, to);
                    }
                    Record::Act(action) => {
                        let i = place_of(action);
                        let w = table[i];
                        match known.act(action, w, &tickets, store) {
                            Ok(reply) => {
                                to = write_line(reply.response, out, to);
                                if !keeps_ticket(reply.response) {
                                    tickets[i] = lower_ticket(word::COUNTS, reply.worker);
                                }
                                table[i] = reply.worker;
                            }
                            Err(refusal) => {
                                to = write_refusal(refusal.number(), out, to);
                            }
                        }
                    }
                }
                at = next;
            }
            Ok(None) => break Stop::Drained,
            Err(why) => break Stop::Halted(why),
        }
    };
    let pool = HeldPool {
        shape: known.shape,
        sound: known.sound,
        records: known.records,
        held: known.held,
        table,
    };
    Progress { pool, at, to, stop }
}
