// Theorems alone: demand 3 of the run of a sheet.
#![tactic(auto)]
