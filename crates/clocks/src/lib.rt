// Theorems of clocks: which texts are read, that what is written reads back and what was read is written back, when a clock runs and at which second,
// and which dates there are. The crate is specs alone, over the definitions that the contracts of crates clock_text, clock_write and clock_day cite.
// Document 02, W-214.
#![tactic(auto)]
