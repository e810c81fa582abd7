// What a line has: its pixels and its anchor, the set of its indexes, the widths of its parts.
ghost use Rattle.std.specs.Prelude.{◌≡◌, ◌<◌, eqb};
ghost use Rattle.laws.specs.Tables.{pick};
ghost use Rattle.bc7_format.specs.Splits.{partition as partition_of};
ghost use Rattle.bc7_places.specs.Splits.{PixelIn};
ghost use Rattle.bc7_places.specs.Lines.{OfLine, anchor_in, line_pixels, own_pixel, part_of, index_set_in};

use crate::splits::{Anchors, Subsets, anchors_of, kind_of, subset_of, subsets_of};
use bc7_format::Split;
use bc7_modes::ModeRow;

// The pixels of a line: those whose subset is `subset`.
#[derive(Clone, Copy)]
pub struct Pixels {
    pub subsets: Subsets,
    pub subset: u32,
}

// Widths are 0 where the line hasn't got the part.
#[derive(Clone, Copy)]
pub struct LinePart {
    pub colour: u32,
    pub alpha: u32,
    pub p: u32,
    pub index: u32,
    pub set: usize,
    pub anchor: usize,
    pub pixels: Pixels,
    pub anchors: Anchors,
}

// The pixels of a line. A line is a subset; a vector and its scalar have all pixels in each.
pub fn pixels_of(split: Split, line: u32) -> Pixels
    requires { partition_of split < 64 }
    ensures { result ≡ line_pixels split line }
{
    let subsets = subsets_of(split);
    let subset = if kind_of(split) == 3 { 0 } else { line };
    Pixels { subsets, subset }
}

// Is a pixel the line's?
pub fn own(pixels: Pixels, pixel: usize) -> bool
    requires { PixelIn pixels.subsets pixel }
    ensures { result ≡ own_pixel pixels pixel }
{
    subset_of(pixels.subsets, pixel) == pixels.subset
}

// The anchor of a line: pixel 0 of line 0 and of a set of its own, else that one of the fixups which is the line's.
pub fn anchor(kind: u8, line: u32, pixels: Pixels, anchors: Anchors) -> usize
    requires { PixelIn pixels.subsets anchors.b }
    ensures { result ≡ anchor_in kind line pixels anchors }
{
    if line == 0 || kind == 3 {
        0
    } else if own(pixels, anchors.b) {
        anchors.b
    } else {
        anchors.c
    }
}

// The index set of a line: the index mode is the number of the vector's.
pub fn index_set_in(split: Split, line: u32) -> usize
    ensures { result ≡ index_set_in split line }
{
    match split {
        Split::Vector { index_mode, .. } if line != index_mode as u32 => 1,
        _ => 0,
    }
}

// A width that one of the two lines of a vector and its scalar has not: red, green and blue are line 0's, alpha is line 1's.
pub fn width_in(kind: u8, line: u32, without: u32, width: u32) -> u32
    ensures { result ≡ pick (eqb kind 3) (pick (eqb line without) 0 width) width }
{
    if kind == 3 && line == without {
        0
    } else {
        width
    }
}

// A p bit has one bit, where the mode has p bits at all.
pub fn p_width(count: usize) -> u32
    ensures { result ≡ pick (eqb count 0) 0 1 }
{
    if count == 0 { 0 } else { 1 }
}

// The width of an index of the first (0) or the second set (1).
pub fn index_width(row: ModeRow, set: usize) -> u32
    ensures { result ≡ pick (eqb set 0) row.first row.second }
{
    if set == 0 { row.first } else { row.second }
}

// The row is that of the split's mode.
pub fn line_part(row: ModeRow, split: Split, line: u32) -> LinePart
    requires { OfLine row split line }
    ensures { result ≡ part_of row split line }
{
    let set = index_set_in(split, line);
    let pixels = pixels_of(split, line);
    let anchors = anchors_of(split);
    LinePart {
        colour: width_in(row.kind, line, 1, row.colour),
        alpha: width_in(row.kind, line, 0, row.alpha),
        p: p_width(row.p),
        index: index_width(row, set),
        set,
        anchor: anchor(row.kind, line, pixels, anchors),
        pixels,
        anchors,
    }
}
