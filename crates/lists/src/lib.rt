// The lists of the calendar and the reuse of nodes, over every history: invariants and theorems, specs/ and proofs/. No code but a function with nothing
// to run, whose contract says what a call may rely on.
#![tactic(auto)]

ghost use Rattle.std.specs.Prelude.{◌≡◌, ◌<◌, ℕ, List};
ghost use Rattle.arrival.specs.declared.Shape.{Shape};
ghost use Rattle.arrival.specs.declared.Action.{Action};
ghost use Rattle.arrival.specs.declared.Response.TheVariants.{Opened};
ghost use Rattle.calendar.specs.rules.Layout.{item_at, epoch_at};
ghost use Rattle.calendar.specs.rules.Operations.{Memory, open_pool, run};
ghost use Rattle.lists.specs.Fixed.{Throughout, StandsOn, OnlyStandsOn};

// After an opening, and while a call stands on a node, the arrival in it stays; so does its epoch, where the call does not prepare the node.
pub fn nodes_stay()
    ensures arrival { (sh : Shape) (j x : ℕ) → j < sh.workers → x < sh.nodes → (m : Memory) → (open_pool sh m).response ≡ Opened
        → (g h : List Action) → let n = run sh (open_pool sh m).memory g in
        Throughout sh (StandsOn sh x) j n h → item_at sh (run sh n h).store x ≡ item_at sh n.store x }
    ensures epoch { (sh : Shape) (j x : ℕ) → j < sh.workers → x < sh.nodes → (m : Memory) → (open_pool sh m).response ≡ Opened
        → (g h : List Action) → let n = run sh (open_pool sh m).memory g in
        Throughout sh (OnlyStandsOn sh x) j n h → epoch_at sh (run sh n h).store x ≡ epoch_at sh n.store x }
{}
