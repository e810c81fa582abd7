// The head of a sheet and its geometry, as definitions (specs/) and their laws (proofs/), and no code: how a number is spelt, what is read
// of bytes and what is written, the reader that takes them one by one, how many blocks a sheet has and where each stands.

#![tactic(auto)]

// A number, and the place behind its last byte.
#[derive(Clone, Copy)]
pub struct Number {
    pub value: u32,
    pub next: usize,
}

// The form of a sheet: 1 stores its blocks row by row; 2 stores them in tiles, and behind the height the number of its colour space.
#[derive(Clone, Copy)]
pub enum Form {
    Rows,
    Tiles,
}

// What is known of a sheet's colours. Bytes of form 1 have no room for it.
#[derive(Clone, Copy)]
pub enum ColourSpace {
    Unspecified,
    Linear,
    Srgb,
}

// The form, width and height in pixels, the place of the first block, and the colour space.
#[derive(Clone, Copy)]
pub struct Head {
    pub form: Form,
    pub width: u32,
    pub height: u32,
    pub start: u32,
    pub colour_space: ColourSpace,
}

// The bytes of a head and their count, with zeros behind.
#[derive(Clone, Copy)]
pub struct HeadBytes {
    pub bytes: [u8; 7],
    pub count: u8,
}

// The same of either form, whose head is of a size that there is.
#[derive(Clone, Copy)]
pub struct FormBytes {
    pub bytes: [u8; 8],
    pub count: u8,
}

// Which number of the head is to come; or the head has ended.
#[derive(Clone, Copy)]
pub enum Stage {
    Form,
    Width,
    Height,
    Colour,
    Ended,
}

// The stage; how many groups of its number have come, and what they spell; and what is known of the head, whose `start` is the
// place behind the last number that came whole.
#[derive(Clone, Copy)]
pub struct HeadReader {
    pub stage: Stage,
    pub low: u32,
    pub groups: u8,
    pub head: Head,
}
