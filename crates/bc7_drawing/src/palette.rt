// Palettes. All colours of a block's subsets are computed once, two in a word, and stand in the palette where the keys
// of the pixels look them up; a subset with as many weights as pixels has no palette.
ghost use Rattle.std.specs.Prelude.{◌≡◌, ◌++◌, ◌+◌, ◌*◌, ◌/◌, ◌%◌, ◌^◌, ◌<◌};
ghost use Rattle.laws.specs.Digits.{evenly};
ghost use Rattle.laws.specs.Tables.{table};
ghost use Rattle.bcn_format.specs.Drawing.{weight_of};
ghost use Rattle.bcn_format.specs.Indexes.{part};
ghost use Rattle.bc7_fields.specs.Painting.{between};
ghost use Rattle.bc7_drawing.specs.Asked.{Coloured, Shaded, Shaded2, ThreeSubsets};
ghost use Rattle.bc7_drawing.specs.Words.{Alone, EndsOfBytes, endpoint, word_bytes};
ghost use Rattle.bc7_drawing.specs.Colours.{endpoints, keyed, shade};

use crate::colour::{Ends, high_colour, low_colour, mixed, mixed_2, two_colours};
use weights::weight_256;

// The colours of two subsets at a weight, that of the first in the low half.
fn mixed_colours(e: Ends, weight: u64) -> u64
    requires { Shaded weight e }
    ensures { word_bytes result ≡ shade e 0 weight ++ shade e 1 weight }
{
    two_colours(mixed(weight, e.rb0, e.rb1), mixed(weight, e.ga0, e.ga1))
}

// The colours of one subset at two weights, the second 32 bits above the first: that of the first in the low half.
pub fn two_shades(e: Ends, weights: u64) -> u64
    requires { Shaded2 weights e }
    ensures { word_bytes result ≡ shade e 0 (weights % 2 ^ 32) ++ shade e 0 (weights / 2 ^ 32) }
{
    two_colours(
        mixed_2(weights, e.rb0, e.rb1),
        mixed_2(weights, e.ga0, e.ga1),
    )
}

// The colours of two subsets, by indexes of W bits, so N of them: that of index k and subset s is at 2 * k + s. Tried `array::from_fn` over the
// places, here and below: mode 0 takes 1,495 instructions for 421, mode 1 378 for 297, since each colour is then computed twice.
pub fn palette_of_two<const W: u32, const N: usize>(e: Ends) -> [[u8; 4]; N]
    requires colours { Coloured W 2 N }
    requires ends { EndsOfBytes e }
    ensures { result ≡ table N (keyed W 2 (endpoint e)) }
{
    let mut q = [[0u8; 4]; N];
    for k in 0..N / 2 {
        let x = mixed_colours(e, weight_256(W, k));
        q[2 * k] = low_colour(x);
        q[2 * k + 1] = high_colour(x);
    }
    q
}

// The colours of three subsets, the third in words of its own: that of index k and subset s is at 4 * k + s. No key is
// 4 * k + 3: what stands there, the other half of the third's words, is stored since a palette with gaps would be cleared first.
pub fn palette_of_three<const W: u32, const N: usize>(e: Ends, f: Ends) -> [[u8; 4]; N]
    requires colours { Coloured W 4 N }
    requires ends { ThreeSubsets e f }
    ensures { result ≡ table N (keyed W 4 (endpoints e f)) }
{
    let mut q = [[0u8; 4]; N];
    for k in 0..N / 4 {
        let weight = weight_256(W, k);
        let x = mixed_colours(e, weight);
        let y = mixed_colours(f, weight);
        q[4 * k] = low_colour(x);
        q[4 * k + 1] = high_colour(x);
        q[4 * k + 2] = low_colour(y);
        q[4 * k + 3] = high_colour(y);
    }
    q
}

// The weights of eight indexes of four bits, those of the even pixels, a byte each: four times an index, and one more for each
// four, rounded. A sum is at most 17 and a weight 64, so no byte reaches the next; the shift brings two bits of the byte above into
// each byte, and those the mask takes away.
//
//     i     0  1  2  3  4  5  6  7  8  9 10 11 12 13 14 15
//     4 i   0  4  8 12 16 20 24 28 32 36 40 44 48 52 56 60
//     (i + 2) / 4
//           0  0  1  1  1  1  2  2  2  2  3  3  3  3  4  4
fn weights_of(x: u64) -> u64
    ensures { result ≡ evenly 8 8 (λ j. weight_of 4 (part x 4 (2 * j))) }
{
    let indexes = x & 0x0F0F_0F0F_0F0F_0F0F;
    4 * indexes + (((indexes + 0x0202_0202_0202_0202) >> 2) & 0x0707_0707_0707_0707)
}

// Of eight weights, a byte each, those at place i and i + 4. They stand 32 bits apart, as `two_shades` wants them, and are taken times 4.
fn weights_at(weights: u64, i: usize) -> u64
    requires { i < 4 }
    ensures { result ≡ evenly 2 32 (λ h. 4 * part weights 8 (i + 4 * h)) }
{
    4 * ((weights >> (8 * (i as u32))) & 0x00FF_0000_00FF)
}

// Sixteen pixels by indexes of four bits. There are as many weights as pixels, so a palette would spare nothing: each pixel is
// mixed at its own weight, two at a time. Even pixel 2 * i is place i of its weights, and place i + 4 is pixel 2 * i + 8.
// Tried `array::from_fn` over the pixels: 645 instructions for 228, since each pair is then mixed twice.
pub fn mix_16(e: Ends, x: u64) -> [[u8; 4]; 16]
    requires { Alone e }
    ensures { result ≡ table 16 (λ q. between 4 (endpoint e 0 0) (endpoint e 0 1) (part x 4 q)) }
{
    let even = weights_of(x);
    let odd = weights_of(x >> 4);
    let mut output = [[0u8; 4]; 16];
    for i in 0..4usize {
        let two = two_shades(e, weights_at(even, i));
        output[2 * i] = low_colour(two);
        output[2 * i + 8] = high_colour(two);
        let next = two_shades(e, weights_at(odd, i));
        output[2 * i + 1] = low_colour(next);
        output[2 * i + 9] = high_colour(next);
    }
    output
}
