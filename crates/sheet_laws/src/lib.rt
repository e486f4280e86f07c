// No code: theorems on what the reader promises. No two readings keep the promise and neither does an empty
// program, no sheet read is longer than document 01 says, no byte after the one refused changes the answer,
// and no refusal is given but those of a sheet.
#![tactic(auto)]
