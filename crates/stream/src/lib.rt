// A stream of bytes read as items, by a rule that looks at the bytes at a position: the whole-stream rule, a feeding call, a
// closing call, and the proof that no cut of the stream changes its items. It knows no line: a line is
// whatever rule is lawful (specs/Lawful.antt). Document 01, "Reading a line".
#![tactic(auto)]

// What a rule says of the bytes at a position, where they settle an item: its number, its size, and the fewest bytes that settle it.
#[derive(Clone, Copy, Debug, PartialEq, Eq)]
pub struct Step {
    pub number: u8,
    pub size: usize,
    pub settled: usize,
}
