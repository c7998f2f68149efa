// The rules (docs/RULES.md) as definitions over lent words and records, specs/rules, and theorems about them, proofs/facts, with their vocabulary in
// specs/facts. No code but a function with nothing to run, whose contract says some of what is proved; its proof has the check go through all of it.
#![tactic(auto)]

ghost use Rattle.std.specs.Prelude.{◌≡◌, ◌≢◌, ◌+◌, ◌≤◌, ◌<◌, ℕ, List, suc};
ghost use Rattle.arrival.specs.declared.Shape.{Shape};
ghost use Rattle.arrival.specs.declared.Worker.{Worker};
ghost use Rattle.arrival.specs.declared.Action.{Action};
ghost use Rattle.arrival.specs.declared.Request.{Request};
ghost use Rattle.arrival.specs.declared.Response.TheVariants.{Refused};
ghost use Rattle.laws.specs.Counting.{count};
ghost use Rattle.calendar.specs.rules.Layout.{standing};
ghost use Rattle.calendar.specs.rules.Reclaim.{is_free, is_retired, is_in_use};
ghost use Rattle.calendar.specs.rules.Operations.{Memory, act, open_pool};
ghost use Rattle.calendar.specs.rules.NarrowCalls.{narrow_act};
ghost use Rattle.calendar.specs.rules.HostHistory.{requested};
ghost use Rattle.calendar.specs.facts.Untouched.{SameSize, SameBeyond};
ghost use Rattle.calendar.specs.facts.AnswerRanges.{ValuesInRange};

// What is refused changes nothing; nothing outside the layout is touched; answers are in range; refusal 6 is never given; each node is free, resting or in use.
pub fn facts_hold()
    ensures opening_refused { (sh : Shape) (m : Memory) (n : ℕ) → (open_pool sh m).response ≡ Refused (suc n) → (open_pool sh m).memory ≡ m }
    ensures refused { (sh : Shape) (m : Memory) (a : Action) (n : ℕ) → (act sh m a).response ≡ Refused (suc n) → (act sh m a).memory ≡ m }
    ensures narrow_refused { (sh : Shape) (m : Memory) (a : Action) (n : ℕ) → (narrow_act sh m a).response ≡ Refused (suc n) → (narrow_act sh m a).memory ≡ m }
    ensures same_size { (sh : Shape) (m : Memory) (a : Action) → SameSize m (act sh m a).memory }
    ensures same_beyond { (sh : Shape) (m : Memory) (a : Action) → SameBeyond sh m (act sh m a).memory }
    ensures values { (sh : Shape) (m : Memory) (a : Action) → ValuesInRange (act sh m a).response }
    ensures never_6 { (sh : Shape) (m : Memory) (q : Request) → (requested sh m q).response ≢ Refused 6 }
    ensures shared_out { (sh : Shape) (s : List ℕ) (t : List Worker)
        → count sh.nodes (λ n. is_free sh t (standing sh s n)) + count sh.nodes (λ n. is_retired sh t (standing sh s n))
        + count sh.nodes (λ n. is_in_use (standing sh s n)) ≡ sh.nodes }
{}
