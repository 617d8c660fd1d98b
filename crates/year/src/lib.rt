// Captures through a year: what is claimed of any run of appends, of what a capture's bytes and its records tell of each other, of marks,
// and of a torn tail. The crate is theorems alone (specs/), over the definitions that the contracts of capture and append cite.
// Document 02, W-207.
#![tactic(auto)]
