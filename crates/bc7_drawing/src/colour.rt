// Colours of the decoder, in words. A word has four lanes of sixteen bits: red and blue of two colours in one, green and alpha
// of the same two in another. So a sum of products works on four channels at once, and two words come together as two
// colours of four bytes.
ghost use Rattle.std.specs.Prelude.{◌≡◌, eqb, drop, take, ◌+◌, ◌*◌, ◌/◌, ◌%◌, ◌^◌, ◌≤◌, ◌<◌};
ghost use mathlib.Core.List.{[], ◌∷◌, map, zip_with};
ghost use Rattle.laws.specs.Tables.{pick};
ghost use Rattle.bcn_format.specs.Block.{field};
ghost use Rattle.bcn_format.specs.Drawing.{promoted};
ghost use Rattle.bc7_fields.specs.Painting.{end_of, end_of_p, solid};
ghost use Rattle.bc7_drawing.specs.Asked.{AllOnes, FourLanes, Mixable, Mixable2, OneEnd, OneEndP, OneStored, OneStoredP};
ghost use Rattle.bc7_drawing.specs.Asked.{Promotable, PromotableP, TwoStored, TwoStoredP, WidthP};
ghost use Rattle.bc7_drawing.specs.Words.{laned, lanes_of, word_bytes, woven, blend, blends, ends_p, Holds, HoldsOne};
ghost use Rattle.bc7_drawing.specs.Words.{plain, with_alpha, with_p};

// What a block stores of a colour: each value has a channel of both endpoints, the first one's in the low bits, and p both p bits.
#[derive(Clone, Copy)]
pub struct Stored {
    pub r: u64,
    pub g: u64,
    pub b: u64,
    pub a: u64,
    pub p: u64,
}

// Both endpoints of two colours: red and blue of the first endpoint, green and alpha, and the same of the second.
#[derive(Clone, Copy)]
pub struct Ends {
    pub rb0: u64,
    pub ga0: u64,
    pub rb1: u64,
    pub ga1: u64,
}

const ONES: u64 = 0x0001_0001_0001_0001;

// A half of 256 in each lane, for rounding.
const HALVES: u64 = 0x0080_0080_0080_0080;

// Four values in the lanes of a word, the first lowest.
fn lanes(a: u64, b: u64, c: u64, d: u64) -> u64
    requires { FourLanes a b c d }
    ensures { result ≡ laned (a ∷ b ∷ c ∷ d ∷ []) }
{
    a + (b << 16) + (c << 32) + (d << 48)
}

// The bits of each lane from bit `at` on. The shift brings them to the bottom of their lane, with low bits of the lane above on
// top, and those the mask takes away.
//
//     x                | ..mmm### | ..nnn### |
//     x >> at          | .....mmm | ###..nnn |
//     ONES * 0b111     | .....111 | .....111 |
fn parts(x: u64, at: u32, bits: u32) -> u64
    requires { at + bits ≤ 16 }
    ensures { result ≡ laned (map (λ v. field v at bits) (lanes_of x)) }
{
    (x >> at) & (ONES * ((1u64 << bits) - 1))
}

// Each lane from `bits` bits to eight: shifted left, and the empty places filled from the top. With five bits abcde:
//
//     x << 3                   | abcde... |
//     its three upper bits     | .....abc |
//
// Four lanes at once: one shift moves them all, and as a lane has sixteen bits and at most eight of them are used, none reaches the
// next. The three upper bits are those from bit 2 on, so from `bits` - (8 - `bits`) on, which `parts` takes of each lane.
//
// Below four bits there would be too few to fill the places with, in the Rust and here. The Rust asks for 4 to 7 bits, since at eight it
// would shift a byte by eight, and its modes leave values of eight bits as they are. Here eight is taken too: nothing is shifted,
// `parts` takes no bits, and the value stays. So a mode whose values have eight bits, with or without a p bit, needs no other call.
fn promote(x: u64, bits: u32) -> u64
    requires { Promotable bits x }
    ensures { result ≡ laned (map (promoted bits) (lanes_of x)) }
{
    (x << (8 - bits)) + parts(x, 2 * bits - 8, 8 - bits)
}

// The same with a p bit below each value.
fn promote_p(x: u64, p: u64, bits: u32) -> u64
    requires { PromotableP bits x p }
    ensures { result ≡ laned (zip_with (λ v q. promoted (bits + 1) (v * 2 + q)) (lanes_of x) (lanes_of p)) }
{
    promote(x * 2 + p, bits + 1)
}

// Endpoint k, 0 or 1, of lanes that have both.
fn end_of(x: u64, k: u32, bits: u32) -> u64
    requires { OneEnd bits k }
    ensures { result ≡ laned (map (end_of bits k) (lanes_of x)) }
{
    promote(parts(x, bits * k, bits), bits)
}

// The same with p bits: a lane of p has both too.
fn end_of_p(x: u64, p: u64, k: u32, bits: u32) -> u64
    requires { OneEndP bits k }
    ensures { result ≡ laned (zip_with (end_of_p bits k) (lanes_of x) (lanes_of p)) }
{
    promote_p(parts(x, bits * k, bits), parts(p, k, 1), bits)
}

// Both endpoints in both words, with the p bits of their lanes.
fn ends_p(rb: u64, ga: u64, p: u64, q: u64, bits: u32) -> Ends
    requires { WidthP bits }
    ensures { result ≡ ends_p bits (lanes_of rb) (lanes_of ga) (lanes_of p) (lanes_of q) }
{
    Ends {
        rb0: end_of_p(rb, p, 0, bits),
        ga0: end_of_p(ga, q, 0, bits),
        rb1: end_of_p(rb, p, 1, bits),
        ga1: end_of_p(ga, q, 1, bits),
    }
}

// Two colours with alpha and p bits.
pub fn translucent_p(x: Stored, y: Stored, bits: u32) -> Ends
    requires { TwoStoredP bits x y }
    ensures { Holds (λ l. with_p bits (pick (eqb l 0) x y)) result }
{
    let rb = lanes(x.r, x.b, y.r, y.b);
    let ga = lanes(x.g, x.a, y.g, y.a);
    let p = lanes(x.p, x.p, y.p, y.p);
    ends_p(rb, ga, p, p, bits)
}

// Two values of `bits` bits that are all ones: as alpha of both endpoints they are promoted to 255, for the places that come empty
// are filled with ones too.
fn all_ones(bits: u32) -> u64
    requires { bits ≤ 8 }
    ensures { AllOnes bits result }
{
    (1u64 << (bits + bits)) - 1
}

// Two colours with p bits and without alpha. The p bits of alpha are ones as its other bits are: 3, a one for each endpoint.
pub fn opaque_p(x: Stored, y: Stored, bits: u32) -> Ends
    requires { TwoStoredP bits x y }
    ensures { Holds (λ l. solid (with_p bits (pick (eqb l 0) x y))) result }
{
    let rb = lanes(x.r, x.b, y.r, y.b);
    let ga = lanes(x.g, all_ones(bits), y.g, all_ones(bits));
    let p = lanes(x.p, x.p, y.p, y.p);
    let q = lanes(x.p, 3, y.p, 3);
    ends_p(rb, ga, p, q, bits)
}

// The same without p bits.
pub fn opaque(x: Stored, y: Stored, bits: u32) -> Ends
    requires { TwoStored bits x y }
    ensures { Holds (λ l. solid (plain bits (pick (eqb l 0) x y))) result }
{
    let rb = lanes(x.r, x.b, y.r, y.b);
    let ga = lanes(x.g, all_ones(bits), y.g, all_ones(bits));
    Ends {
        rb0: end_of(rb, 0, bits),
        ga0: end_of(ga, 0, bits),
        rb1: end_of(rb, 1, bits),
        ga1: end_of(ga, 1, bits),
    }
}

// One colour with alpha and p bits. The words have room for another, which no lane is set of.
pub fn alone_p(x: Stored, bits: u32) -> Ends
    requires { OneStoredP bits x }
    ensures { HoldsOne (with_p bits x) result }
{
    let none = Stored {
        r: 0,
        g: 0,
        b: 0,
        a: 0,
        p: 0,
    };
    translucent_p(x, none, bits)
}

// One colour whose alpha has a width of its own: green and alpha are promoted apart, and meet in one word.
pub fn alone(x: Stored, bits: u32, alpha_bits: u32) -> Ends
    requires { OneStored bits alpha_bits x }
    ensures { HoldsOne (with_alpha bits alpha_bits x) result }
{
    let rb = lanes(x.r, x.b, 0, 0);
    let g = lanes(x.g, 0, 0, 0);
    let a = lanes(0, x.a, 0, 0);
    Ends {
        rb0: end_of(rb, 0, bits),
        ga0: end_of(g, 0, bits) + end_of(a, 0, alpha_bits),
        rb1: end_of(rb, 1, bits),
        ga1: end_of(g, 1, bits) + end_of(a, 1, alpha_bits),
    }
}

// Four channels of both endpoints in the proportion of a weight: 256 times their values, rounded by a half in each lane.
//
//     (256 - weight) * e0 + weight * e1 + 128  =  (256 * e0 + 128 - weight * e0) + weight * e1
//
// A lane is at most 256 * 255 + 128, so no lane reaches the next; and as weight * e0 is at most 256 * e0 in each lane, no lane borrows
// either. No difference of the endpoints is taken, and the first two terms don't depend on the weight.
pub fn mixed(weight: u64, e0: u64, e1: u64) -> u64
    requires { Mixable weight e0 e1 }
    ensures { result ≡ laned (zip_with (blend weight) (lanes_of e0) (lanes_of e1)) }
{
    (256 * e0 + HALVES - weight * e0) + weight * e1
}

// The same for the two lanes of one colour and two weights, the second 32 bits above the first: a product of two parts by two is
// four products, each in a lane of its own.
//
//     weights * e0 = (v * 2^32 + w) * (b * 2^16 + a)  =  v * b | v * a | w * b | w * a
//
// 256 * e0 has to stand in both halves too: it is e0 times the weights 256 and 256.
pub fn mixed_2(weights: u64, e0: u64, e1: u64) -> u64
    requires { Mixable2 weights e0 e1 }
    ensures { result ≡ laned (blends (weights % 2 ^ 32) (weights / 2 ^ 32) (lanes_of e0) (lanes_of e1)) }
{
    (0x0100_0000_0100 * e0 + HALVES - weights * e0) + weights * e1
}

// Two colours of four bytes, from the upper bytes of the lanes. What is below them was left over by the proportion, and the two
// sets of bytes that stay don't meet.
//
//     rb                       | B1 .. | R1 .. | B0 .. | R0 .. |
//     ga                       | A1 .. | G1 .. | A0 .. | G0 .. |
//     bytes of rb moved down   |    B1 |    R1 |    B0 |    R0 |
//     both                     | A1 B1 | G1 R1 | A0 B0 | G0 R0 |     from the lowest byte on: red, green, blue, alpha
pub fn two_colours(rb: u64, ga: u64) -> u64
    ensures { word_bytes result ≡ woven (lanes_of rb) (lanes_of ga) }
{
    parts(rb, 8, 8) + (parts(ga, 8, 8) << 8)
}

// The first of the two colours, and the second.
pub fn low_colour(x: u64) -> [u8; 4]
    ensures { result ≡ take 4 (word_bytes x) }
{
    let [r, g, b, a, ..] = x.to_le_bytes();
    [r, g, b, a]
}

pub fn high_colour(x: u64) -> [u8; 4]
    ensures { result ≡ drop 4 (word_bytes x) }
{
    let [.., r, g, b, a] = x.to_le_bytes();
    [r, g, b, a]
}
