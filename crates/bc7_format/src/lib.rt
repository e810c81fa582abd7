// The BC7 format as definitions (specs/) and their laws (proofs/), and no code. This is what a reader has to believe: each
// page of specs/ follows the public description (Direct3D's BC7 pages, BPTC in the Khronos Data Format Specification).

#![tactic(auto)]

// How a block is split: not at all, into two or three subsets by a partition, or into a vector and a scalar part.
#[derive(Clone, Copy)]
pub enum Split {
    Whole,
    Two(u8),
    Three(u8),
    Vector { rotation: u8, index_mode: u8 },
}

// One of the 66 places of a block. Lead 0 is the marker, 1 the partition, 2 the rotation, 3 the index mode; a value is of a channel and
// an endpoint, an index of a set (0 or 1) and a pixel.
#[derive(Clone, Copy)]
pub enum Place {
    Lead(usize),
    Value { channel: usize, endpoint: usize },
    PBit(usize),
    Index { set: usize, pixel: usize },
}
