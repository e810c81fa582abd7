// Where the fields of a block stand, in which order and how wide, by the row of its mode: marker and split, the values of red, green,
// blue and alpha, the p bits, the first and the second set of indexes.
ghost use Rattle.std.specs.Prelude.{◌≡◌, ◌+◌, ◌-◌, ◌*◌, ◌<◌, eqb, ltb, get_or};
ghost use Rattle.laws.specs.Tables.{pick};
ghost use Rattle.bcn_format.specs.Partitions.{among};
ghost use Rattle.bc7_format.specs.Places.{place_at, width};
ghost use Rattle.bc7_format.specs.Splits.{lead_bits};
ghost use Rattle.bc7_modes.specs.Modes.{IsRow};
ghost use Rattle.bc7_places.specs.Places.{FieldsFrom, SetFrom, fields_of};
ghost use Rattle.bc7_places.specs.Splits.{three_of};

use crate::lines::index_width;
use crate::splits::Anchors;
use bc7_format::Place;
use bc7_modes::ModeRow;

// Where the groups start in the list of places, which are also those of a record's bytes: the values, the p bits, the first and the
// second indexes; and how many places there are.
pub const VALUES: usize = 4;

pub const P_BITS: usize = 28;

pub const FIRST: usize = 34;

pub const SECOND: usize = 50;

pub const PLACES: usize = 66;

// The place with a number, in stored order.
pub fn place_at(number: usize) -> Place
    ensures { result ≡ place_at number }
{
    if number < VALUES {
        Place::Lead(number)
    } else if number < P_BITS {
        Place::Value {
            channel: (number - VALUES) / 6,
            endpoint: (number - VALUES) % 6,
        }
    } else if number < FIRST {
        Place::PBit(number - P_BITS)
    } else {
        Place::Index {
            set: (number - FIRST) / 16,
            pixel: (number - FIRST) % 16,
        }
    }
}

// The width of the marker, the partition, the rotation or the index mode.
fn lead_width(mode: u8, row: ModeRow, lead: usize) -> u32
    requires { IsRow mode row }
    ensures { result ≡ get_or (lead_bits mode) lead 0 }
{
    match lead {
        0 => mode as u32 + 1,
        1 => row.partition,
        2 => row.rotation,
        3 => row.index_mode,
        _ => 0,
    }
}

fn value_width(row: ModeRow, channel: usize, endpoint: usize) -> u32
    ensures { result ≡ pick (ltb endpoint row.endpoints) (pick (eqb channel 3) row.alpha row.colour) 0 }
{
    if endpoint >= row.endpoints {
        0
    } else if channel == 3 {
        row.alpha
    } else {
        row.colour
    }
}

fn p_bit_width(row: ModeRow, p: usize) -> u32
    ensures { result ≡ pick (ltb p row.p) 1 0 }
{
    if p < row.p { 1 } else { 0 }
}

// An anchor's index is stored with one bit less, where its set has bits at all; where it has none, nothing is taken away.
fn stored_width(full: u32, anchors: Anchors, pixel: usize) -> u32
    ensures { result ≡ pick (among pixel (three_of anchors)) (full - 1) full }
{
    if pixel == anchors.a || pixel == anchors.b || pixel == anchors.c {
        full.saturating_sub(1)
    } else {
        full
    }
}

// How many bits a place has in a mode, by the mode's row and the anchors of the split.
pub fn width_of(mode: u8, row: ModeRow, anchors: Anchors, place: Place) -> u32
    requires { IsRow mode row }
    ensures { result ≡ width mode (three_of anchors) place }
{
    match place {
        Place::Lead(lead) => lead_width(mode, row, lead),
        Place::Value { channel, endpoint } => value_width(row, channel, endpoint),
        Place::PBit(p) => p_bit_width(row, p),
        Place::Index { set, pixel } => stored_width(index_width(row, set), anchors, pixel),
    }
}

// Where the fields of a line start: the pair of each channel, the p bits of the mode, the set of the line's indexes.
#[derive(Clone, Copy)]
pub struct Fields {
    pub red: u32,
    pub green: u32,
    pub blue: u32,
    pub alpha: u32,
    pub p: u32,
    pub indexes: u32,
}

// The first endpoint of a line; a vector and its scalar share the two that there are.
fn pair_of(kind: u8, line: u32) -> u32
    requires { line < 3 }
    ensures { result ≡ pick (eqb kind 3) 0 (2 * line) }
{
    if kind == 3 { 0 } else { 2 * line }
}

// The second set of indexes stands behind the first, which has one anchor where there are two sets.
fn set_start(row: ModeRow, first: u32, set: usize) -> u32
    requires { SetFrom row first }
    ensures { result ≡ pick (eqb set 0) first (first + (16 * row.first - 1)) }
{
    if set == 0 {
        first
    } else {
        first + (16 * row.first - 1)
    }
}

// The values of a channel stand side by side, those of red first, then come the p bits and the first indexes. `at` is where the
// values start.
pub fn fields_of(row: ModeRow, at: u32, line: u32, set: usize) -> Fields
    requires { FieldsFrom row at line }
    ensures { result ≡ fields_of row at line set }
{
    let pair = pair_of(row.kind, line);
    let ends = row.endpoints as u32;
    let channel = ends * row.colour;
    let red = at + pair * row.colour;
    let p = at + 3 * channel + ends * row.alpha;
    let first = p + row.p as u32;
    Fields {
        red: red,
        green: red + channel,
        blue: red + 2 * channel,
        alpha: at + 3 * channel + pair * row.alpha,
        p,
        indexes: set_start(row, first, set),
    }
}
