// Theorems of seasons: what a report says is what document 02 words, season by season; the seasons' counts add up; and no number is too great
// for its 64 bits. The crate is specs alone, over the definitions that the contracts of crates season and report cite. Document 02, W-213.
#![tactic(auto)]
