// The modes without partitions: 4 and 5, a vector and its scalar, and 6, which is whole. In 4 and 5 each pixel takes red, green and
// blue by one index and alpha by the other, and the rotation comes last. A channel of both endpoints is read as one value, for they are
// stored side by side: ten bits of it are two values of five.

#![tactic(auto)]

ghost use Rattle.std.specs.Prelude.{◌≡◌, [], ◌++◌, ◌+◌, ◌*◌, ◌/◌, ◌%◌, ◌<◌, drop, get_or, replicate, take};
ghost use Rattle.laws.specs.Digits.{join};
ghost use Rattle.laws.specs.Tables.{pick, table};
ghost use Rattle.bc7_format.specs.Lines.{rotated};
ghost use Rattle.bits.specs.Stream.{held};
ghost use Rattle.bcn_format.specs.Indexes.{part};
ghost use Rattle.bc7_fields.specs.Fields.{direct_pixels};
ghost use Rattle.bc7_fields.specs.Painting.{four};
ghost use Rattle.bc7_fields.specs.Rotating.{swapped};
ghost use Rattle.bc7_drawing.specs.Asked.{Coloured};
ghost use Rattle.bc7_drawing.specs.Words.{Alone, word_bytes};
ghost use Rattle.bc7_unpartitioned.specs.Crossing.{Crossable, Paintable, TwoIndexes, colour_between, crossed, crossed_both};
ghost use Rattle.bc7_unpartitioned.specs.Crossing.{kept_channels, kept_word};

use bc7_drawing::colour::{Ends, Stored, alone, alone_p, high_colour, low_colour};
use bc7_drawing::painting::paint;
use bc7_drawing::palette::{mix_16, two_shades};
use bits::stream::BitStream;
use drawing::keys::both_keys;
use indexes::Indexes;
use std::array;
use weights::weight_256;

fn chosen(yes: bool, x: u8, y: u8) -> u8
    ensures { result ≡ pick yes x y }
{
    if yes { x } else { y }
}

// One pixel's alpha exchanged with red, green or blue:
//
//     rotation   0   1   2   3
//     red        R   A   R   R
//     green      G   G   A   G
//     blue       B   B   B   A
//     alpha      A   R   G   B
//
// Each channel is chosen by itself, so that no jump depends on the rotation.
fn swap_channel(p: [u8; 4], rotation: u8) -> [u8; 4]
    requires { rotation < 4 }
    ensures { result ≡ four (λ c. get_or p (rotated rotation c) 0) }
{
    let r = chosen(rotation == 1, p[3], p[0]);
    let g = chosen(rotation == 2, p[3], p[1]);
    let b = chosen(rotation == 3, p[3], p[2]);
    let red_or_alpha = chosen(rotation == 1, p[0], p[3]);
    let or_green = chosen(rotation == 2, p[1], red_or_alpha);
    let a = chosen(rotation == 3, p[2], or_green);
    [r, g, b, a]
}

// Rotation, from pixels to pixels.
fn swap_channels(pixels: [[u8; 4]; 16], rotation: u8) -> [[u8; 4]; 16]
    requires { rotation < 4 }
    ensures { result ≡ swapped rotation pixels }
{
    array::from_fn(
        |i| -> [u8; 4]
            requires pixel { i < 16 }
            requires turn { rotation < 4 }
            ensures { result ≡ four (λ c. get_or (get_or pixels i []) (rotated rotation c) 0) }
        { swap_channel(pixels[i], rotation) },
    )
}

// Two colours side by side, of which only red, green and blue stay, or only alpha, which is the upper byte of each.
fn keep(x: u64, colour: bool) -> u64
    ensures { word_bytes result ≡ kept_channels colour (take 4 (word_bytes x)) ++ kept_channels colour (drop 4 (word_bytes x)) }
{
    if colour {
        return x & 0x00FF_FFFF_00FF_FFFF;
    }
    x & 0xFF00_0000_FF00_0000
}

// The colours of the indexes 2 * k and 2 * k + 1: their weights stand 32 bits apart, as `two_shades` wants them.
fn shades(e: Ends, bits: u32, k: usize) -> u64
    requires { TwoIndexes e bits k }
    ensures { word_bytes result ≡ colour_between bits e (2 * k) ++ colour_between bits e (2 * k + 1) }
{
    two_shades(
        e,
        weight_256(bits, 2 * k) + (weight_256(bits, 2 * k + 1) << 32),
    )
}

fn low_word(x: u64) -> u32
    ensures { result ≡ join (replicate 4 8) (take 4 (word_bytes x)) }
{
    (x % 0x0001_0000_0000) as u32
}

fn high_word(x: u64) -> u32
    ensures { result ≡ join (replicate 4 8) (drop 4 (word_bytes x)) }
{
    (x >> 32) as u32
}

// All colours by an index of W bits, so N of them, as words, in which red, green and blue stay or only alpha. One of each kind makes a whole
// colour, by a sum: each byte of it is a byte of one word and 0 of the other. A turn is two indexes, and stores both: a closure that is asked
// for one of them would compute two and choose.
fn words<const W: u32, const N: usize>(e: Ends, colour: bool) -> [u32; N]
    requires colours { Coloured W 1 N }
    requires ends { Alone e }
    ensures { result ≡ table N (λ k. kept_word colour (colour_between W e k)) }
{
    let mut q = [0u32; N];
    for k in 0..N / 2 {
        let x = keep(shades(e, W, k), colour);
        q[2 * k] = low_word(x);
        q[2 * k + 1] = high_word(x);
    }
    q
}

// Each pixel is the sum of one word of either kind.
fn paint_2_and_3(p: [u32; 4], q: [u32; 8], x: Indexes, y: Indexes) -> [[u8; 4]; 16]
    requires { Paintable p q x y }
    ensures { result ≡ table 16 (λ i. take 4 (word_bytes (get_or p (part x.uncompressed 2 i) 0 + get_or q (part y.uncompressed 3 i) 0))) }
{
    array::from_fn(
        |i| -> [u8; 4]
            requires pixel { i < 16 }
            requires words { Paintable p q x y }
            ensures { result ≡ take 4 (word_bytes (get_or p (part x.uncompressed 2 i) 0 + get_or q (part y.uncompressed 3 i) 0)) }
        {
            let word = p[x.get_index(i as u32) as usize] + q[y.get_index(i as u32) as usize];
            low_colour(word as u64)
        },
    )
}

// The alpha of a word in both of two colours that have none. Times 2^32 + 1 it stands in both halves, and where one of two bytes
// is 0 their sum carries nothing.
//
//     colours                  | 00 B1 G1 R1 | 00 B0 G0 R0 |
//     alpha                    |             | A  00 00 00 |
//     alpha * (2^32 + 1)       | A  00 00 00 | A  00 00 00 |
fn with_alphas(colours: u64, alpha: u32) -> u64
    requires { Crossable colours alpha }
    ensures { word_bytes result ≡ crossed_both colours alpha }
{
    colours + (alpha as u64) * 0x0001_0000_0001
}

// All sixteen pairs of a colour and an alpha, by two bits each: that of colour k and alpha j is at 4 * j + k.
fn palette_2_and_2(e: Ends) -> [[u8; 4]; 16]
    requires { Alone e }
    ensures { result ≡ table 16 (λ i. crossed (colour_between 2 e (i % 4)) (colour_between 2 e (i / 4))) }
{
    let alphas = words::<2, 4>(e, false);
    let low = keep(shades(e, 2, 0), true);
    let high = keep(shades(e, 2, 1), true);
    let mut q = [[0u8; 4]; 16];
    for (j, alpha) in alphas.iter().enumerate() {
        let x = with_alphas(low, *alpha);
        let y = with_alphas(high, *alpha);
        q[4 * j] = low_colour(x);
        q[4 * j + 1] = high_colour(x);
        q[4 * j + 2] = low_colour(y);
        q[4 * j + 3] = high_colour(y);
    }
    q
}

// Two widths of index: the two-bit set is stored first, and the index mode says which of the two serves colour.
pub fn mode_4(stream: BitStream) -> [[u8; 4]; 16]
    requires { stream.at ≡ 5 }
    ensures { result ≡ direct_pixels 4 (held stream) }
{
    let rotation = stream.take(2);
    let index_mode = rotation.stream.take(1);
    let r = index_mode.stream.take(10);
    let g = r.stream.take(10);
    let b = g.stream.take(10);
    let a = b.stream.take(12);
    let stored = Stored {
        r: r.value,
        g: g.value,
        b: b.value,
        a: a.value,
        p: 0,
    };
    let e = alone(stored, 5, 6);
    let x = Indexes::new(2, a.stream, []);
    let y = Indexes::new(3, x.stream, []);
    let first = words::<2, 4>(e, index_mode.value == 0);
    let second = words::<3, 8>(e, index_mode.value != 0);
    swap_channels(
        paint_2_and_3(first, second, x.indexes, y.indexes),
        rotation.value as u8,
    )
}

// Both sets have two bits, the first serves colour.
pub fn mode_5(stream: BitStream) -> [[u8; 4]; 16]
    requires { stream.at ≡ 6 }
    ensures { result ≡ direct_pixels 5 (held stream) }
{
    let rotation = stream.take(2);
    let r = rotation.stream.take(14);
    let g = r.stream.take(14);
    let b = g.stream.take(14);
    let a = b.stream.take(16);
    let stored = Stored {
        r: r.value,
        g: g.value,
        b: b.value,
        a: a.value,
        p: 0,
    };
    let e = alone(stored, 7, 8);
    let x = Indexes::new(2, a.stream, []);
    let y = Indexes::new(2, x.stream, []);
    swap_channels(
        paint::<2, 2, 16>(
            palette_2_and_2(e),
            both_keys::<2>(y.indexes.uncompressed, 2, x.indexes.uncompressed),
        ),
        rotation.value as u8,
    )
}

// One subset, four channels, a p bit for each endpoint, sixteen weights.
pub fn mode_6(stream: BitStream) -> [[u8; 4]; 16]
    requires { stream.at ≡ 7 }
    ensures { result ≡ direct_pixels 6 (held stream) }
{
    let r = stream.take(14);
    let g = r.stream.take(14);
    let b = g.stream.take(14);
    let a = b.stream.take(14);
    let p = a.stream.take(2);
    let stored = Stored {
        r: r.value,
        g: g.value,
        b: b.value,
        a: a.value,
        p: p.value,
    };
    let x = Indexes::new(4, p.stream, []);
    mix_16(alone_p(stored, 7), x.indexes.uncompressed)
}
