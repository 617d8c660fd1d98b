// The readers of lines and the readers of datagrams agree: an item 0 is a datagram that is accepted, an item 7 one that is
// refused with 7, and an accepted datagram alone on its line is one item 0. The crate is theorems alone (specs/), over the
// rule of a line (crate line) and the definitions that the datagram readers are held to (crates request and reply).
// A retired command reads there as marked, and no run of writers' calls puts one on a line.
// Document 01, "Reading a line" and "Refusals, by number"; document 02, W-210.
#![tactic(auto)]
