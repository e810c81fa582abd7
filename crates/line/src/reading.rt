// A line as it stands: its fields taken out of the block's number.
ghost use Rattle.std.specs.Prelude.{◌≡◌};
ghost use Rattle.laws.specs.Tables.{pick, table};
ghost use Rattle.bits.specs.Stream.{held};
ghost use Rattle.bc7_places.specs.Lines.{own_pixel};
ghost use Rattle.line.specs.Parts.{Masked};
ghost use Rattle.line.specs.Reading.{PBitsThere, PairThere, PartSmall, ReadReady, SetThere, line_held, ps_at, set_at, two_at, widths_in};

use crate::fields::standing_at;
use crate::parts::{at_own, mask_of};
use bc7_modes::ModeRow;
use bc7_places::lines::{LinePart, Pixels};
use bc7_places::places::fields_of;
use bits::stream::BitStream;
use indexes::sets::{parts_of, read_indexes};
use line_rules::Replacement;

// What the first and the second endpoint have.
#[derive(Clone, Copy)]
pub struct PerEndpoint {
    pub first: u8,
    pub second: u8,
}

// Two values of one width side by side: one read, which has its bits in the block.
fn two_at(s: BitStream, at: u32, width: u32) -> PerEndpoint
    requires { PairThere at width }
    ensures { result ≡ two_at (held s) at width }
{
    let values = standing_at(s, at).take(2 * width).value;
    PerEndpoint {
        first: (values % (1u64 << width)) as u8,
        second: (values >> width) as u8,
    }
}

// In mode 1 one p bit serves both endpoints.
fn p_at(s: BitStream, mode: u8, at: u32, line: u32, width: u32) -> PerEndpoint
    requires { PBitsThere at line width }
    ensures { result ≡ ps_at (held s) mode at line width }
{
    if mode == 1 {
        let one = two_at(s, at + line, 1);
        return PerEndpoint {
            first: one.first,
            second: one.first,
        };
    }
    two_at(s, at + 2 * line, width)
}

// The set is expanded whole, and what isn't the line's is left out.
fn set_at(s: BitStream, kind: u8, at: u32, part: LinePart) -> [u8; 16]
    requires { SetThere kind at part }
    ensures { result ≡ set_at (held s) kind at part }
{
    let width = part.index;
    let mask = mask_of(part.pixels, width);
    let set = read_indexes(
        kind,
        width,
        standing_at(s, at),
        part.anchors.b,
        part.anchors.c,
    );
    parts_of(set.indexes.uncompressed & mask, width)
}

// The stream stands where the values start.
pub fn line_held(s: BitStream, mode: u8, row: ModeRow, line: u32, part: LinePart) -> Replacement
    requires { ReadReady s row line part }
    ensures { result ≡ line_held s mode row line part }
{
    let fields = fields_of(row, s.at, line, part.set);
    let red = two_at(s, fields.red, part.colour);
    let green = two_at(s, fields.green, part.colour);
    let blue = two_at(s, fields.blue, part.colour);
    let alpha = two_at(s, fields.alpha, part.alpha);
    let p = p_at(s, mode, fields.p, line, part.p);
    Replacement {
        endpoints: [
            red.first,
            green.first,
            blue.first,
            alpha.first,
            red.second,
            green.second,
            blue.second,
            alpha.second,
        ],
        p: [p.first, p.second],
        indexes: set_at(s, row.kind, fields.indexes, part),
    }
}

// A width at each pixel of the line.
fn index_widths(pixels: Pixels, width: u32) -> [u8; 16]
    requires { Masked pixels width }
    ensures { result ≡ table 16 (λ q. pick (own_pixel pixels q) width 0) }
{
    let mut widths = [0u8; 16];
    for (pixel, own) in widths.iter_mut().enumerate() {
        *own = at_own(pixels, pixel, width as u64) as u8;
    }
    widths
}

// The widths of a line's parts, in the order of a replacement.
pub fn widths_of(part: LinePart) -> Replacement
    requires { PartSmall part }
    ensures { result ≡ widths_in part }
{
    let colour = part.colour as u8;
    let alpha = part.alpha as u8;
    let p = part.p as u8;
    Replacement {
        endpoints: [colour, colour, colour, alpha, colour, colour, colour, alpha],
        p: [p, p],
        indexes: index_widths(part.pixels, part.index),
    }
}
