// Whether a start or turn leads out of the ranges, so that the next is refused by 3.
ghost use Rattle.std.specs.Prelude.{◌≡◌};
ghost use Rattle.calendar.specs.facts.RangesKept.{leaks};
ghost use Rattle.stages.specs.Ready.{Ready};
ghost use Rattle.operation.specs.Leaks.{action_leaks};

use arrival::{Action, Worker};
use words::field::Field;
use words::store::View;

// Whether a worker's turn leaves the ranges: stage 3 unlinks a node of distance 0.
pub fn turn_leaks(w: Worker, view: &View<'_>) -> bool
    requires { Ready view.now.shape view.now.words.now w }
    ensures { result ≡ leaks view.now.shape view.now.words.now w }
{
    w.stage == 3 && (view.cell(w.left) == 2 * w.right) & (view.field(Field::Distance, w.right) == 0)
}

// The same of any action: a start keeps them.
pub fn action_leaks(action: Action, w: Worker, view: &View<'_>) -> bool
    requires { Ready view.now.shape view.now.words.now w }
    ensures { result ≡ action_leaks view.now.shape view.now.words.now action w }
{
    matches!(action, Action::Step(_)) && turn_leaks(w, view)
}
