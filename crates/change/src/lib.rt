// What "accepted" excludes: a datagram that was accepted, changed in one byte, is refused, and which changes of more bytes pass. The crate is
// theorems alone (specs/), over the definitions that the readers of datagrams are held to (crates request, reply and event).
// Document 02, W-211.
#![tactic(auto)]
