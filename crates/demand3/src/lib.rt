// No code: demand 3 of the order stated over the engine (specs/) and proved (proofs/).
#![tactic(auto)]
