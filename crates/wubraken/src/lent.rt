// What a host lends for a pool, whatever it holds: opening it, and what is requested of it.
ghost use Rattle.std.specs.Prelude.{◌≡◌, is_ok, length};
ghost use Rattle.arrival.specs.Refusals.{refusal_of};
ghost use Rattle.arrival.specs.Requests.{actor, action_of, is_whole};
ghost use Rattle.calendar.specs.rules.HostHistory.{requested};
ghost use Rattle.calendar.specs.rules.Operations.{open_pool};
ghost use Rattle.wubraken.specs.LentGate.{gate_on};
ghost use Rattle.wubraken.specs.Results.{SameLent, memory_of, gave_by};
ghost use Rattle.wubraken.specs.Survey.{survey};

use super::records::{act_on_record, records_opened, turn_away};
pub use super::requests::index_of;
use super::table::{clear_table, records_surveyed, survey_table};
use arrival::refusals::Refusal;
use arrival::{Request, Response, Shape, Worker};
use operation::open_lent;

// The shape, the store's words and the workers' records.
#[derive(Drop)]
pub struct Lent<'a> {
    pub shape: Shape,
    pub store: &'a mut [u64],
    pub table: &'a mut [Worker],
}

impl Lent<'_> {
    // Opens a pool: every worker's record is idle.
    pub fn open(&mut self) -> Result<Response, Refusal>
        ensures kept { SameLent self.old self.new }
        ensures opened { gave_by self.new result ≡ open_pool self.old.shape (memory_of self.old) }
    {
        open_lent(self.shape, self.table.len(), self.store)?;
        clear_table(self.table, records_opened(self.shape, 0));
        Ok(Response::Opened)
    }

    // What a host requests: its worker's record is copied out, worked on by value, and stored back.
    pub fn act(&mut self, request: Request) -> Result<Response, Refusal>
        ensures kept { SameLent self.old self.new }
        ensures acted { gave_by self.new result ≡ requested self.old.shape (memory_of self.old) request }
    {
        let shape = self.shape;
        let n = self.table.len();
        let seen = self.survey(request);
        let i = index_of(request);
        if records_surveyed(shape, n) <= i {
            self.away(request, seen)?;
            return Err(Refusal::NoWorker);
        }
        let w = self.table[i];
        let reply = act_on_record(shape, request, n, seen, w, self.store)?;
        self.table[i] = reply.worker;
        Ok(reply.response)
    }

    // One look over the records, if the request asks for it.
    fn survey(&self, request: Request) -> Result<u64, u64>
        ensures { result ≡ survey self.now.shape request self.now.table.now }
    {
        survey_table(self.shape, request, self.table)
    }

    // What refuses a request whose worker has no record.
    #[inline(always)]
    fn away(&self, request: Request, seen: Result<u64, u64>) -> Result<(), Refusal>
        ensures { refusal_of result ≡ gate_on (is_whole request) self.now.shape self.now.store.now (actor (action_of request))
            (length self.now.table.now) (is_ok seen) }
    {
        turn_away(self.shape, request, self.table.len(), seen, self.store)
    }
}
