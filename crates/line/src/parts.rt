// A given line: whether it keeps to what the line has, and how it is stored.
ghost use Rattle.std.specs.Prelude.{◌≡◌, ◌%◌, ◌^◌, ◌≤◌, eqb, ltb, get_or};
ghost use Rattle.std.specs.Int.Bits.{bit_and};
ghost use Rattle.laws.specs.Tables.{below, pick};
ghost use Rattle.bc7_places.specs.Lines.{own_pixel};
ghost use Rattle.bc7_places.specs.Places.{ByteWidths};
ghost use Rattle.bc7_places.specs.Splits.{PixelIn};
ghost use Rattle.line.specs.Parts.{Masked, PartWidths, Turnable, mask_of, parts_fit, stored_as};

use bc7_places::fits::{above, indexes_fit, pair_fits};
use bc7_places::lines::{LinePart, Pixels, own};
use bits::stream::word;
use indexes::sets::top_of;
use line_rules::Replacement;

// A value at a pixel of the line, and zero at any other.
pub fn at_own(pixels: Pixels, pixel: usize, value: u64) -> u64
    requires { PixelIn pixels.subsets pixel }
    ensures { result ≡ pick (own_pixel pixels pixel) value 0 }
{
    if own(pixels, pixel) {
        return value;
    }
    0
}

// All ones at each pixel of the line, zeros at the others, in a word of parts of one width.
pub fn mask_of(pixels: Pixels, width: u32) -> u64
    requires { Masked pixels width }
    ensures { result ≡ mask_of pixels width }
{
    let ones = (1u64 << width) - 1;
    let mut mask: u64 = 0;
    // The number of a pixel is what its subset is looked up by.
    for i in (0..16usize).rev() {
        mask = (mask << width) + at_own(pixels, i, ones);
    }
    mask
}

fn endpoints_fit(e: [u8; 8], colour: u32, alpha: u32) -> bool
    requires { ByteWidths colour alpha }
    ensures { result ≡ below 8 (λ i. ltb (get_or e i 0) (2 ^ pick (eqb (i % 4) 3) alpha colour)) }
{
    let bytes = word(e[0], e[1], e[2], e[3], e[4], e[5], e[6], e[7]);
    pair_fits(bytes, colour, alpha)
}

fn p_fits(p: [u8; 2], width: u32) -> bool
    requires { width ≤ 8 }
    ensures { result ≡ below 2 (λ k. ltb (get_or p k 0) (2 ^ width)) }
{
    above(p[0], width) + above(p[1], width) == 0
}

// Does each value, p bit and index fit its width? That the indexes of other pixels are zero is seen on their word.
pub fn parts_fit(part: LinePart, new: Replacement) -> bool
    requires { PartWidths part }
    ensures { result ≡ parts_fit part new }
{
    indexes_fit(new.indexes, part.index)
        && p_fits(new.p, part.p)
        && endpoints_fit(new.endpoints, part.colour, part.alpha)
}

// Has the word of a line's indexes zeros at the other pixels?
pub fn only_own(indexes: u64, mask: u64) -> bool
    ensures { result ≡ eqb (bit_and indexes mask) indexes }
{
    indexes & mask == indexes
}

// A line as it is stored, its indexes in one word.
#[derive(Clone, Copy)]
pub struct StoredLine {
    pub endpoints: [u8; 8],
    pub p: [u8; 2],
    pub indexes: u64,
}

// Turned where the index at the anchor has its top bit set: each index i becomes last - i, which is one subtraction for all.
pub fn oriented(part: LinePart, new: Replacement, indexes: u64, mask: u64) -> StoredLine
    requires { Turnable part indexes mask }
    ensures { result ≡ stored_as part new indexes mask }
{
    let e = new.endpoints;
    let p = new.p;
    if top_of(indexes, part.index, part.anchor) == 0 {
        return StoredLine {
            endpoints: e,
            p,
            indexes,
        };
    }
    StoredLine {
        endpoints: [e[4], e[5], e[6], e[7], e[0], e[1], e[2], e[3]],
        p: [p[1], p[0]],
        indexes: mask - indexes,
    }
}
