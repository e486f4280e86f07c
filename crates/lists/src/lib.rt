// No code: definitions of lists that a count builds (specs/) and their laws (proofs/).
#![tactic(auto)]
