// Reading and replacing a line of a block, as definitions (specs/) and their laws (proofs/), and no code: which calls are refused,
// what block a call leaves, what any list of calls leaves and draws, and what is read of it (proofs/Theorems).

#![tactic(auto)]

// A line as it is given: endpoint k, channel c at 4 * k + c; an index of the line's full width for each pixel. What the line
// hasn't got is zero.
#[derive(Clone, Copy)]
pub struct Replacement {
    pub endpoints: [u8; 8],
    pub p: [u8; 2],
    pub indexes: [u8; 16],
}

// A line as it stands, and how many bits each of its parts has, in the same order: none where the line hasn't got the part.
#[derive(Clone, Copy)]
pub struct LineRead {
    pub line: Replacement,
    pub widths: Replacement,
}
