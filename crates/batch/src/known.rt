// What a batch knows of the lent memory, and what an opening, a start and a turn do to it.
ghost use Rattle.std.specs.Prelude.{◌≡◌, List, ℕ, cond, eqb, length};
ghost use Rattle.arrival.specs.Refusals.{refusal_of};
ghost use Rattle.arrival.specs.declared.Worker.{Worker};
ghost use Rattle.calendar.specs.rules.Ranges.{worker};
ghost use Rattle.calendar.specs.rules.Opening.{open_store};
ghost use Rattle.calendar.specs.rules.Operations.{actor};
ghost use Rattle.words.specs.Done.{gives, reply_of};
ghost use Rattle.turn_file.specs.declared.Record.TheVariants.{Open, Act};
ghost use Rattle.operation.specs.LocalAct.{Admitted};
ghost use Rattle.admission.specs.Gate.{Tight, gate_of, open_gate, open_response};
ghost use Rattle.batch.specs.CodeView.{Sound};
ghost use Rattle.batch.specs.Tickets.{tickets_of};
ghost use Rattle.batch.specs.ActHeld.{held_act, place_of};
ghost use Rattle.batch.specs.OneRecord.{Does, holding, with_record, past_action, past_opening};

use super::table::{clear, greater};
use super::tickets::{low_for, tickets_of};
use admission::gate;
use arrival::refusals::Refusal;
use arrival::{Action, Shape, Worker};
use operation::leaks::action_leaks;
use operation::{open_lent, perform};
use words::replies::Reply;
use words::store::Store;

// The shape so far, whether store and table are in range, how many records are lent, and how many of them are held.
// Kept: apart from the records: in one struct with their array a batch ran 161.0 million instructions, apart 152.8 (docs/DECISIONS.md, C17).
#[derive(Clone, Copy)]
pub struct Known {
    pub shape: Shape,
    pub sound: bool,
    pub records: usize,
    pub held: usize,
}

impl Known {
    // An opening, with the tickets beside the records.
    pub fn open(
        &mut self,
        shape: Shape,
        table: &mut [Worker; 64],
        tickets: &mut [u64; 64],
        store: &mut [u64],
    ) -> Result<(), Refusal>
        requires { Sound (holding self.old table.old) store.old }
        ensures refused { refusal_of result ≡ open_gate shape (length store.old) self.old.records }
        ensures opened { store.new ≡ cond (eqb (open_gate shape (length store.old) self.old.records) 0) (open_store shape store.old) store.old }
        ensures known { holding self.new table.new ≡ past_opening (open_gate shape (length store.old) self.old.records) shape (holding self.old table.old) }
        ensures beside { tickets.new ≡ cond (eqb (open_gate shape (length store.old) self.old.records) 0) (tickets_of table.new) tickets.old }
        ensures does { Does (Open shape) (holding self.old table.old) store.old (open_response (refusal_of result)) (holding self.new table.new) store.new }
    {
        open_lent(shape, self.records, store)?;
        let workers = shape.workers as usize;
        clear(table, workers);
        *tickets = tickets_of(table);
        self.held = greater(self.held, workers);
        self.shape = shape;
        self.sound = true;
        Ok(())
    }

    // A start or turn of its worker's record w, which is handed back and not put back; `does` is of any records that w and the tickets are of.
    pub fn act(
        &mut self,
        action: Action,
        w: Worker,
        tickets: &[u64; 64],
        store: &mut [u64],
    ) -> Result<Reply, Refusal>
        requires tight { Tight self.old.shape (length store.old) self.old.records self.old.sound }
        requires admitted { gate_of self.old.shape (length store.old) self.old.records (actor action) self.old.sound ≡ 0
            → Admitted self.old.shape store.old w }
        ensures gives { gives store.new (reply_of w result)
            ≡ held_act (gate_of self.old.shape (length store.old) self.old.records (actor action) self.old.sound) self.old.shape action w
            tickets.now store.old }
        ensures known { self.new
            ≡ past_action (gate_of self.old.shape (length store.old) self.old.records (actor action) self.old.sound) self.old action w store.old }
        ensures does { (t : List Worker) → Sound (holding self.old t) store.old → w ≡ worker t (place_of action) → tickets.now ≡ tickets_of t
            → Does (Act action) (holding self.old t) store.old (reply_of w result).response
            (with_record (holding self.new t) (place_of action) (reply_of w result).worker) store.new }
    {
        gate(
            self.shape,
            store.len(),
            self.records,
            action.worker(),
            self.sound,
        )?;
        let mut laid = Store {
            shape: self.shape,
            words: store,
        };
        self.sound = !action_leaks(action, w, &laid.view());
        let low = low_for(action, tickets, self.shape.workers as usize);
        perform(low, action, w, &mut laid)
    }
}
