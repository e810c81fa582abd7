// The bit chart of a block: where each of its fields stands. One walk over the places in stored order: a place that has bits gets a
// text, and the next one starts behind its bits. All that decides what is printed stands here; a program only reads and writes.

#![tactic(auto)]

ghost use Rattle.std.specs.Prelude.{◌≡◌, T, length};
ghost use Rattle.laws.specs.Padding.{Written};
ghost use Rattle.bc7_format.specs.Places.{inside, place_count};
ghost use Rattle.bc7_format.specs.Splits.{split_of};
ghost use Rattle.laws.specs.Text.{refused_text};
ghost use Rattle.refusals.specs.Answers.{number};
ghost use Rattle.text.specs.Puts.{Puts};
ghost use Rattle.chart_rules.specs.Names.{name_of};
ghost use Rattle.chart_rules.specs.Charts.{Answers, ChartsWithin, charted, field_text, places_text, text_room, wanted_bytes};
ghost use Rattle.chart.specs.Asked.{BlockMode, FieldAsked, NameAsked, PlacesAsked, WordOf};

use bc7_format::{Place, Split};
use bc7_modes::{ModeRow, mode_of, mode_row};
use bc7_places::places::{PLACES, place_at, width_of};
use bc7_places::splits::{anchors_of, read_lead};
use block_bytes::load;
use chart_rules::Chart;
use refusal_numbers::number;
use refusals::Refusal;
use text::{put, put_few, put_spaced, put_word, refused_text};

// Room for the longest chart, and for a field's text behind it.
const ROOM: usize = 609;

// The word of a place's name.
fn word_of(place: Place) -> &'static [u8]
    requires { T (inside place) }
    ensures { WordOf place result.now }
{
    match place {
        Place::Lead(0) => b"mode",
        Place::Lead(1) => b"partition",
        Place::Lead(2) => b"rotation",
        Place::Lead(_) => b"index-mode",
        Place::Value { channel: 0, .. } => b"red-",
        Place::Value { channel: 1, .. } => b"green-",
        Place::Value { channel: 2, .. } => b"blue-",
        Place::Value { .. } => b"alpha-",
        Place::PBit(_) => b"p-",
        Place::Index { set: 0, .. } => b"index-",
        Place::Index { .. } => b"second-",
    }
}

// The name of a place: a word, and behind it the number of the endpoint, the p bit or the pixel.
fn put_name(place: Place, at: usize, out: &mut [u8]) -> usize
    requires { NameAsked place at (length out.old) }
    ensures { Puts 11 out.old at (name_of place) out.new result }
{
    let named = put_word(word_of(place), at, out);
    match place {
        Place::Lead(_) => named,
        Place::Value { endpoint: n, .. } | Place::PBit(n) | Place::Index { pixel: n, .. } =>
            put_few(n as u32, named, out),
    }
}

// The text of a place that starts at a bit: its name, the bit, its width. Nothing where it has no bits.
fn put_field(place: Place, bit: u32, width: u32, at: usize, out: &mut [u8]) -> usize
    requires { FieldAsked place bit width at (length out.old) }
    ensures { Written out.old at (field_text place bit width) out.new result }
{
    if width == 0 {
        return at;
    }
    let named = put_name(place, at, out);
    let begun = put_spaced(bit as u8, named, out);
    let told = put_spaced(width as u8, begun, out);
    put(b'\n', told, out)
}

// The texts of all places, to the start of the output; where they end.
fn put_places(mode: u8, row: ModeRow, split: Split, out: &mut [u8]) -> usize
    requires { PlacesAsked mode row split (length out.old) }
    ensures { Puts text_room out.old 0 (places_text mode split place_count) out.new result }
{
    let anchors = anchors_of(split);
    let mut at: usize = 0;
    let mut bit: u32 = 0;
    // The number of a place is what it is made of.
    for number in 0..PLACES {
        let place = place_at(number);
        let width = width_of(mode, row, anchors, place);
        at = put_field(place, bit, width, at, out);
        bit += width;
    }
    at
}

fn refused(refusal: Refusal) -> Chart
    ensures { Answers (charted (number refusal) (refused_text (number refusal))) result }
{
    let mut text = [0u8; ROOM];
    let length = refused_text(number(refusal), 0, &mut text);
    Chart {
        refusal: Some(refusal),
        length,
        text,
    }
}

// The chart of a block that is not reserved.
fn accepted(block: [u8; 16], mode: u8) -> Chart
    requires { BlockMode block mode }
    ensures { Answers (charted 0 (places_text mode (split_of block) place_count)) result }
{
    let row = mode_row(mode);
    let lead = read_lead(block, mode, row);
    let mut text = [0u8; ROOM];
    let length = put_places(mode, row, lead.split, &mut text);
    Chart {
        refusal: None,
        length,
        text,
    }
}

// How many bytes a program reads of its input: one more than a block has tells that there are too many.
pub fn wanted() -> usize
    ensures { result ≡ wanted_bytes }
{
    17
}

// The chart of an input: `refused 10` unless it has exactly sixteen bytes, then `refused 1` for a reserved block.
pub fn chart(input: &[u8]) -> Chart
    ensures { ChartsWithin input.now result }
{
    if input.len() != 16 {
        return refused(Refusal::WrongBlockBytes);
    }
    let block = load(input, 0);
    let mode = mode_of(block);
    if mode == 8 {
        return refused(Refusal::ReservedBlock);
    }
    accepted(block, mode)
}
