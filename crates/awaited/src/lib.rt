// What is awaited: theorems of any run of calls of the book, from a fresh one, with giving up among them or without. The crate is theorems alone
// (specs/), over the definitions that the contracts of crate book cite.
// Document 01, "The book of unanswered requests"; document 02, W-205 and W-210.
#![tactic(auto)]
