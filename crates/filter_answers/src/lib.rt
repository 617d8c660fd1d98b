// Theorems of filter plans: what stands after any requests, what one request makes of what is hidden, what the check answers, since which request an
// event is hidden, and the slip of last March. The crate is theorems alone (specs/), over the definitions that the contracts of filter_plan and filter_since cite.
// Document 02, W-212.
#![tactic(auto)]
