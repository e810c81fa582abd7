// The index of a pixel and its subset as one key: the place of the pixel's colour among all colours of the block. The Rust takes subset
// and index apart pixel by pixel; here eight keys are made at once.
//     x            | x15 | x14 | .. | x3 | x2 | x1 | x0 |     sixteen indexes of w bits
//     mask         |  0  | 1 1 | .. | 0  | 1 1| 0  | 1 1|     every other field
//     x & mask     |    x14    | .. |    x2   |    x0   |     eight in 2 w bits each: there is room above each index
// The map of the subsets has fields of w bits too, so the same mask takes those of the same pixels. An index moved up by as many
// bits as a subset has, `shift`, is below 2^(w + shift), which is within the 2 w bits: so neighbours don't meet, and the subset
// goes below it. The odd pixels come the same way, a field further down.
ghost use Rattle.std.specs.Prelude.{◌≡◌, ◌+◌, ◌*◌, ◌^◌, ◌≤◌};
ghost use Rattle.std.specs.Int.Bits.{bit_and};
ghost use Rattle.drawing.specs.Asked.{IsKey, IsKeyAt, Key, KeyAt, Moved};
ghost use Rattle.drawing.specs.Keys.{keys_of};

// Those of the eight even and of the eight odd pixels.
#[derive(Clone, Copy)]
pub struct Keys {
    pub even: u64,
    pub odd: u64,
}

impl Keys {
    // The key of pixel q, where an index has `width` bits and a subset below it `below` bits.
    pub fn key(self, width: u32, below: u32, q: usize) -> usize
        requires { KeyAt width below q }
        ensures { IsKeyAt width below self q result }
    {
        let half = if q % 2 == 0 { self.even } else { self.odd };
        key_of(half, 2 * width, q / 2, 1 << (width + below))
    }
}

// Eight keys, those of the fields that the mask takes: indexes above subsets.
fn eight_keys(x: u64, map: u64, mask: u64, shift: u32) -> u64
    requires { Moved mask shift }
    ensures { result ≡ bit_and x mask * 2 ^ shift + bit_and map mask }
{
    ((x & mask) << shift) + (map & mask)
}

// Indexes and subsets of W bits a pixel. The mask has the lower W bits of every 2 W, those of the even pixels: eight digits 2^W - 1 to the base
// 2^(2 W), of which 2^W + 1 times is all ones. With a literal W it is a literal.
pub fn both_keys<const W: u32>(x: u64, shift: u32, map: u64) -> Keys
    requires width { W ≤ 3 }
    requires shift { shift ≤ 2 }
    ensures { result ≡ keys_of W shift x map }
{
    let mask = ((1u64 << (16 * W)) - 1) / ((1 << W) + 1);
    Keys {
        even: eight_keys(x, map, mask, shift),
        odd: eight_keys(x >> W, map >> W, mask, shift),
    }
}

// Key i of a word that has `step` bits for each, of which there are `many` different ones, a power of two: so the rest is a mask.
pub fn key_of(keys: u64, step: u32, i: usize, many: u64) -> usize
    requires { Key step i many }
    ensures { IsKey keys step i many result }
{
    ((keys >> ((i as u32) * step)) % many) as usize
}
