// A line put into the number of a block: its fields are replaced where they stand, so that every other bit is as it was.
ghost use Rattle.std.specs.Prelude.{◌≡◌, ◌+◌, ◌-◌};
ghost use Rattle.laws.specs.Digits.{replaced_at};
ghost use Rattle.bits.specs.Stream.{held};
ghost use Rattle.line.specs.Fields.{FieldReady, LineReady, PBitsReady, PairReady, SetReady, Step, line_put, ps_put, set_put, standing, two_put};

use crate::parts::StoredLine;
use bc7_modes::ModeRow;
use bc7_places::lines::LinePart;
use bc7_places::places::fields_of;
use bits::stream::BitStream;
use indexes::sets::read_indexes;
use indexes::storing::{compressed, stored_bits};

// The stream at another position.
pub fn standing_at(s: BitStream, at: u32) -> BitStream
    ensures { result ≡ standing s at }
{
    BitStream { at, ..s }
}

// A word in which `new` stands in the place of `old`.
fn exchanged(word: u64, old: u64, new: u64) -> u64
    requires { Step word old new }
    ensures { result ≡ word - old + new }
{
    (word - old) + new
}

// A field replaced, in one half or in both. The double shift is defined at position 0 too.
pub fn put(s: BitStream, at: u32, count: u32, value: u64) -> BitStream
    requires { FieldReady at count value }
    ensures { held result ≡ replaced_at (held s) at count value }
{
    let old = standing_at(s, at).take(count).value;
    if at < 64 {
        return BitStream {
            low: exchanged(s.low, old << at, value << at),
            high: exchanged(s.high, (old >> 1) >> (63 - at), (value >> 1) >> (63 - at)),
            at,
        };
    }
    BitStream {
        high: exchanged(s.high, old << (at - 64), value << (at - 64)),
        at,
        ..s
    }
}

fn wide(value: u8) -> u64
    ensures { result ≡ value }
{
    value as u64
}

// Two values of one width side by side.
pub fn put_two(s: BitStream, at: u32, width: u32, a: u8, b: u8) -> BitStream
    requires { PairReady at width a b }
    ensures { held result ≡ two_put (held s) at width a b }
{
    put(s, at, 2 * width, (wide(b) << width) + wide(a))
}

// In mode 1 one p bit serves both endpoints.
fn put_p(s: BitStream, mode: u8, at: u32, line: u32, width: u32, p: [u8; 2]) -> BitStream
    requires { PBitsReady mode at line width p }
    ensures { held result ≡ ps_put (held s) mode at line width p }
{
    if mode == 1 {
        return put(s, at + line, 1, wide(p[0]));
    }
    put_two(s, at + 2 * line, width, p[0], p[1])
}

// The set is expanded, the line's pixels are replaced in it, and it is compressed again.
fn put_indexes(s: BitStream, kind: u8, at: u32, part: LinePart, mask: u64, new: u64) -> BitStream
    requires { SetReady (held s) kind at part mask new }
    ensures { held result ≡ set_put (held s) kind at part mask new }
{
    let width = part.index;
    let anchors = part.anchors;
    let set = read_indexes(kind, width, standing_at(s, at), anchors.b, anchors.c);
    let before = set.indexes.uncompressed;
    let after = (before - (before & mask)) + new;
    let stored = compressed(kind, width, anchors.b as u32, anchors.c as u32, after);
    put(s, at, stored_bits(kind, width), stored)
}

// The whole line. The stream stands where the values start.
pub fn put_line(
    s: BitStream,
    mode: u8,
    row: ModeRow,
    line: u32,
    part: LinePart,
    mask: u64,
    new: StoredLine,
) -> BitStream
    requires { LineReady s mode row line part mask new }
    ensures { held result ≡ line_put s mode row line part mask new }
{
    let fields = fields_of(row, s.at, line, part.set);
    let e = new.endpoints;
    let red = put_two(s, fields.red, part.colour, e[0], e[4]);
    let green = put_two(red, fields.green, part.colour, e[1], e[5]);
    let blue = put_two(green, fields.blue, part.colour, e[2], e[6]);
    let alpha = put_two(blue, fields.alpha, part.alpha, e[3], e[7]);
    let bits = put_p(alpha, mode, fields.p, line, part.p, new.p);
    put_indexes(bits, row.kind, fields.indexes, part, mask, new.indexes)
}
