// The index expansion of the Rust's `bcn_util.rs`: sixteen indexes of one width in one number. They are stored with a bit less
// at each anchor, and expanded whole before use, as the Rust does, so that drawing is a loop over equal parts. The Rust keeps
// a mask beside the width; here an index is the rest by `1 << bits`.

#![tactic(auto)]

ghost use Rattle.std.specs.Prelude.{◌≡◌, [], ◌∷◌, ◌+◌, ◌-◌, ◌*◌, ◌≤◌, ◌<◌};
ghost use Rattle.laws.specs.Digits.{inserted};
ghost use Rattle.bcn_format.specs.Indexes.{IndexWidth};
ghost use Rattle.indexes.specs.Reading.{Ahead, AnchorsOf, Compressed, Index, Insertable, indexes_of, new_indexes, stored_size};

use bits::stream::BitStream;

pub mod sets;
pub mod storing;

// Index i is the i-th part of `bits` bits of the word.
#[derive(Clone, Copy)]
pub struct Indexes {
    pub uncompressed: u64,
    pub bits: u32,
}

// Indexes read from a stream, and the stream past them.
#[derive(Clone, Copy)]
pub struct NewIndexes {
    pub indexes: Indexes,
    pub stream: BitStream,
}

// A zero put in at the top of an index, where every anchor below has its own already. What is above moves up a bit, and that
// is to add it once more: high * 2^top + low becomes 2 * high * 2^top + low.
fn decompress_single_index(bits: u32, compressed: u64, index: u32) -> u64
    requires { Insertable bits compressed index }
    ensures { result ≡ inserted compressed (index * bits + (bits - 1)) }
{
    let top = index * bits + (bits - 1);
    compressed + ((compressed >> top) << top)
}

impl Indexes {
    // The indexes that come next, by their fix-ups: the anchors behind pixel 0, which is always one, in pixel order. The Rust has a function for
    // none, for one and for two of them.
    pub fn new<const N: usize>(bits: u32, stream: BitStream, fixups: [u32; N]) -> NewIndexes
        requires { Ahead (AnchorsOf bits fixups) stream (stored_size bits fixups) }
        ensures { result ≡ new_indexes bits (0 ∷ fixups.entry) stream (stored_size bits fixups.entry) }
    {
        let compressed = stream.take(16 * bits - (1 + N as u32));
        NewIndexes {
            indexes: Indexes::from_compressed(bits, compressed.value, fixups),
            stream: compressed.stream,
        }
    }

    pub fn from_compressed<const N: usize>(bits: u32, compressed: u64, fixups: [u32; N]) -> Self
        requires { Compressed (AnchorsOf bits fixups) compressed (stored_size bits fixups) }
        ensures { result ≡ indexes_of bits (0 ∷ fixups.entry) compressed }
    {
        let mut uncompressed = decompress_single_index(bits, compressed, 0);
        for &fixup in fixups.iter() {
            uncompressed = decompress_single_index(bits, uncompressed, fixup);
        }
        Indexes { uncompressed, bits }
    }

    pub fn get_index(self, pixel_index: u32) -> u8
        requires { (self.bits ≤ 4) × (pixel_index < 16) }
        ensures { Index self pixel_index result }
    {
        ((self.uncompressed >> (pixel_index * self.bits)) % (1u64 << self.bits)) as u8
    }
}
