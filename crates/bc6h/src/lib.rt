// One BC6H block to sixteen pixels of three half floats, as bit patterns. Signed values are kept as 2^15 more from the widening to the finishing, so
// that none is below zero; the weights of a drawing sum to 64, so what is drawn is as much more.
//
// Sixteen endpoint lanes and 64 palette lanes of sixteen bits are worked on in loops without branches, which the compiler turns into vectors.

#![tactic(auto)]

ghost use Rattle.std.specs.Prelude.{◌≡◌, ◌+◌, ◌*◌, ◌^◌, true, false, T};
ghost use Rattle.bcn_format.specs.Partitions.{among};
ghost use Rattle.bc6h_format.specs.Halves.{halves};
ghost use Rattle.bc6h_modes.specs.Numbers.{one_subset, two_subsets};
ghost use Rattle.bc6h_modes.specs.Words.{whole};
ghost use Rattle.bc6h.specs.Lanes.{AnyEndpoints, Doubled, Endpoints, colours, finished_lanes, widened_lanes};
ghost use Rattle.bc6h.specs.Painting.{mode_pixels};
ghost use Rattle.bc6h.specs.Promises.{DecodesHalves};

use crate::lanes::{finished, widened, widened_1};
use crate::painting::{key_in, paint, words_of};
use crate::palette::{palette_1, palette_2};
use bc6h_modes::{Words, fields_1, fields_2, width_1, width_2};
use bc6h_values::{Sign, Signed, Unsigned};
use drawing::keys::{both_keys, key_of};
use indexes::Indexes;
use partitions::words::partition_word_2_3;

pub mod lanes;
pub mod painting;
pub mod palette;

// All colours of a block: its endpoints widened, what is between them, finished.
fn colours_2<S: Sign>(v: [u16; 16], width: u32) -> [u16; 64]
    requires { Endpoints width v }
    ensures { result ≡ finished_lanes S.signed (colours 3 8 (widened_lanes S.signed width v)) }
{
    finished::<S>(palette_2(widened::<S>(v, width)))
}

fn colours_1<S: Sign>(v: [u16; 16], width: u32) -> [u16; 64]
    requires { (AnyEndpoints width v) × (Doubled v) }
    ensures { result ≡ finished_lanes S.signed (colours 4 4 (widened_lanes S.signed width v)) }
{
    finished::<S>(palette_1(widened_1::<S>(v, width)))
}

// A mode with two subsets: its partition stands from bit 77 on, and the indexes behind it.
fn two_subsets(mode: u64, words: Words, signed: bool, output: &mut [[u16; 3]; 16])
    requires { T (among mode two_subsets) }
    ensures { output.new ≡ mode_pixels signed mode (whole words) }
{
    let v = fields_2(mode, words);
    let width = width_2(mode);
    let q = if signed {
        colours_2::<Signed>(v, width)
    } else {
        colours_2::<Unsigned>(v, width)
    };
    let id = words.stream_at(77).take(5);
    let set = partition_word_2_3(id.value as u8);
    let x = Indexes::new(3, id.stream, [(set >> 48) as u32]);
    let indexes = x.indexes;
    let keys = both_keys::<3>(indexes.uncompressed, 1, set);
    paint(words_of(q), |p| key_in(keys, p), output);
}

// A mode with one: the indexes stand from bit 65 on.
fn one_subset(mode: u64, words: Words, signed: bool, output: &mut [[u16; 3]; 16])
    requires { T (among mode one_subset) }
    ensures { output.new ≡ mode_pixels signed mode (whole words) }
{
    let v = fields_1(mode, words);
    let width = width_1(mode);
    let q = if signed {
        colours_1::<Signed>(v, width)
    } else {
        colours_1::<Unsigned>(v, width)
    };
    let x = Indexes::new(4, words.stream_at(65), []);
    let indexes = x.indexes;
    let stored = indexes.uncompressed;
    paint(words_of(q), |p| key_of(stored, 4, p, 16), output);
}

// The sixteen pixels of a block, row by row: red, green, blue. Any sixteen bytes are a block; a reserved one gives zeros.
pub fn decode_into(block: &[u8; 16], signed: bool, output: &mut [[u16; 3]; 16])
    ensures { output.new ≡ halves signed block.now }
{
    let words = Words::new(*block);
    let two = words.low % 4;
    let five = words.low % 32;
    if two < 2 {
        two_subsets(two, words, signed, output);
        return;
    }
    if two == 2 {
        two_subsets(five, words, signed, output);
        return;
    }
    if five < 16 {
        one_subset(five, words, signed, output);
        return;
    }
    *output = [[0u16; 3]; 16];
}

pub fn decode_bc6h_block(block: [u8; 16], signed: bool) -> [[u16; 3]; 16]
    ensures { DecodesHalves block signed result }
{
    let mut output = [[0u16; 3]; 16];
    decode_into(&block, signed, &mut output);
    output
}
