// No code: theorems on the printed page. No two results keep its promise, what the run of a sheet leaves can be
// printed, document 01's example is printed as it stands there, a record's line says what was written, and no two
// numbers are printed alike.
#![tactic(auto)]
