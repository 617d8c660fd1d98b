// The bench cases of document 01 that are marked P, proved of the written definitions; beside them frames that a request of document 02 is
// about. The crate is definitions, and a claim for each list (specs/).
#![tactic(auto)]
