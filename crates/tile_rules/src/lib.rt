// In which order the blocks of a sheet are stored in tiles (specs/), and that each has exactly one stored number (proofs/), and no code.

#![tactic(auto)]

// A cell of blocks: its column and its row of cells, its columns and rows of blocks, and how many of its blocks are stored before one of them.
#[derive(Clone, Copy)]
pub struct Cell {
    pub x: usize,
    pub y: usize,
    pub w: usize,
    pub h: usize,
    pub rest: usize,
}
