// The geometry of a sheet: columns and rows of blocks, what is shown of a block at an edge, how many blocks there are and where
// each stands. Nothing else in the code knows these formulas.
ghost use Rattle.std.specs.Prelude.{◌≡◌, ◌*◌, ◌≤◌, ◌<◌};
ghost use Rattle.head_rules.specs.Geometry.{across, out_length, place_of, row_length, side_shown, whole_length};
ghost use Rattle.head_rules.specs.Answers.{known};
ghost use Rattle.head_rules.specs.Heads.{Sized, limit};
ghost use Rattle.sheet_head.specs.Asked.{BlockAsked, ScanlinesAsked};
ghost use Rattle.sheet_head.specs.Promised.{CountsBlocks, NumbersAt, StoresAt};

use head_rules::{Form, Head};

// Columns of blocks in a width, rows of blocks in a height.
pub fn blocks_across(side: u32) -> u32
    requires { side ≤ limit }
    ensures { result ≡ across side }
{
    (side + 3) / 4
}

// Of a height, the scanlines that a row of blocks shows; of a width, the columns that a column of blocks shows.
pub fn shown_in(side: usize, n: usize) -> usize
    requires { 4 * n < side }
    ensures { result ≡ side_shown side n }
{
    let left = side - 4 * n;
    if left < 4 { left } else { 4 }
}

// The bytes of a row of blocks.
pub fn row_length(width: u32) -> usize
    requires { width ≤ limit }
    ensures { result ≡ row_length width }
{
    16 * blocks_across(width) as usize
}

// The bytes of so many scanlines of pixels.
pub fn out_length(width: usize, scanlines: usize) -> usize
    requires { ScanlinesAsked width scanlines }
    ensures { result ≡ out_length width scanlines }
{
    scanlines * (4 * width)
}

// How many blocks a sheet has.
pub fn blocks_of(head: Head) -> u32
    requires { Sized head.width head.height }
    ensures { CountsBlocks (known head) result }
{
    blocks_across(head.height) * blocks_across(head.width)
}

// How many blocks are stored before a block; and the number of the block that has so many stored before it.
pub fn stored_at(head: Head, block: u32) -> usize
    requires { BlockAsked (known head) block }
    ensures { StoresAt (known head) block result }
{
    match head.form {
        Form::Rows => block as usize,
        Form::Tiles => tiles::stored_in_tiles(
            blocks_across(head.width) as usize,
            blocks_across(head.height) as usize,
            block as usize,
        ),
    }
}

pub fn number_at(head: Head, stored: u32) -> usize
    requires { BlockAsked (known head) stored }
    ensures { NumbersAt (known head) stored result }
{
    match head.form {
        Form::Rows => stored as usize,
        Form::Tiles => tiles::number_in_tiles(
            blocks_across(head.width) as usize,
            blocks_across(head.height) as usize,
            stored as usize,
        ),
    }
}

// The place of a block: its first byte in the sheet.
pub fn place_of(head: Head, block: u32) -> usize
    requires { BlockAsked (known head) block }
    ensures { result ≡ place_of (known head) block }
{
    head.start as usize + 16 * stored_at(head, block)
}

// The bytes of a whole sheet, which end behind its last block.
pub fn whole_length(head: Head) -> usize
    requires { Sized head.width head.height }
    ensures { result ≡ whole_length (known head) }
{
    head.start as usize + 16 * blocks_of(head) as usize
}
