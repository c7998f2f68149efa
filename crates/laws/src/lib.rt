// General laws that every crate uses: of tests, of lists and what is stored to them, of counts, of an order by components. No code but a function with
// nothing to run, whose contract says some of the laws: where a crate has a function, the check goes through all of its proofs/.
#![tactic(auto)]

ghost use Rattle.std.specs.Prelude.{◌≡◌, ◌≤◌, ◌<◌, Bool, true, ℕ, List};
ghost use Rattle.laws.specs.Counting.{sum, every};
ghost use Rattle.laws.specs.Searching.{first_below, last_up_to};
ghost use Rattle.laws.specs.Lexicographic.{lower_by};

// A test that holds of all holds of each; no number is above the sum; what is found is found; no order by components has anything lower than itself.
pub fn laws_hold()
    ensures each { (f : ℕ → Bool) (n : ℕ) → every n f ≡ true → (k : ℕ) → k < n → f k ≡ true }
    ensures summed { (g : ℕ → ℕ) (n k : ℕ) → k < n → g k ≤ sum g n }
    ensures first_found { (n : ℕ) (f : ℕ → Bool) → first_below n f < n → f (first_below n f) ≡ true }
    ensures last_found { (n : ℕ) (f : ℕ → Bool) (j : ℕ) → j ≤ n → f j ≡ true → j ≤ last_up_to n f }
    ensures strict { (fs : List (ℕ → ℕ)) (a : ℕ) → lower_by fs a a ≡ true → ⊥ }
{}
