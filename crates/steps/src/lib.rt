// No code: runs of the engine as a list of steps (specs/), and the laws of a step that the theorems share
// (proofs/).
#![tactic(auto)]
