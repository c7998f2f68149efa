#![tactic(auto)]

// Demand 3: every interleaving has a sequential order. Invariants and the theorem, specs/. No code.
