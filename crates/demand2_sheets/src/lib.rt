// Theorems alone: demand 2 of the run of a sheet, and that a run is refused only where its sheet is.
#![tactic(auto)]
