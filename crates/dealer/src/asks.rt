// What is asked of the dealer: at most so many turns, behind the worker served last, each by one kind of look.
ghost use Rattle.std.specs.Prelude.{◌≡◌, true, ◌||◌};
ghost use Rattle.calendar.specs.rules.Ranges.{shape_in_range, record_in_range};
ghost use Rattle.stages.specs.Ready.{Ready};
ghost use Rattle.dealer.specs.Dealing.{turn_of};
ghost use Rattle.dealer.specs.Dealable.{leaks_of};
ghost use Rattle.dealer.specs.Looks.{is_whole, flag_of};

use admission::ranges::record_in_range;
use admission::{is_near, is_sound};
use arrival::{Action, Request, Shape, Worker};
use operation::leaks::turn_leaks;
use words::store::View;

// The look before a turn: at the whole of the lent memory, or narrow, at no more than the turn needs.
#[derive(Clone, Copy, PartialEq, Eq, Debug)]
pub enum Look {
    Whole,
    Narrow,
}

#[derive(Clone, Copy)]
pub struct Ask {
    pub shape: Shape,
    pub look: Look,
    pub dealer: u64,
    pub turns: u64,
}

impl Ask {
    // What the look over the records goes by: a turn, by a look at all of them or at none.
    pub fn request(self) -> Request
        ensures { result ≡ turn_of (is_whole self.look) 0 }
    {
        match self.look {
            Look::Whole => Request::Whole(Action::Step(0)),
            Look::Narrow => Request::Narrow(Action::Step(0), 0),
        }
    }

    // Kept: beside the flag of crates/wubraken: before the first narrow turn no record is looked at, so it has `true` there (`flag_of`, dealer/Looks).
    // The flag for refusal 3 before the first turn: by a look at everything, or at the three first words.
    #[tactic(auto, unfolding(crate::specs::Looks::flag_of))]
    pub fn flag_of(self, n: usize, ok: bool, store: &[u64]) -> bool
        ensures { result ≡ flag_of (is_whole self.look) self.shape store.now n ok }
    {
        match self.look {
            Look::Whole => is_sound(self.shape, n, ok, store),
            Look::Narrow => is_near(self.shape, n, true, store),
        }
    }

    // Whether the record of the worker to be served lets it have its turn: a narrow turn looks at it.
    pub fn may_turn(self, w: Worker) -> bool
        requires { shape_in_range self.shape ≡ true }
        ensures { result ≡ (is_whole self.look || record_in_range self.shape w) }
    {
        self.look == Look::Whole || record_in_range(self.shape, w)
    }

    // Whether the next turn, by a look at everything, finds something out of range.
    pub fn leaks_of(self, w: Worker, store: &[u64]) -> bool
        requires { Ready self.shape store.now w }
        ensures { result ≡ leaks_of (is_whole self.look) self.shape store.now w }
    {
        let view = View {
            shape: self.shape,
            words: store,
        };
        self.look == Look::Whole && turn_leaks(w, &view)
    }
}
