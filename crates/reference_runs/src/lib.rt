// No code: the reference runs of document 01 that are to be proved, as one table (specs/) under one theorem
// (proofs/).
#![tactic(auto)]
