// Theorems alone: the verdict of a run, that no two results keep its promise, and small runs computed.
#![tactic(auto)]
