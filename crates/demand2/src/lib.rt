// No code: demand 2, and demand 1 for a step, as theorems over the engine's own definitions (specs/ says
// what, proofs/ proves it).
#![tactic(auto)]
