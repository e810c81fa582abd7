// The modes with three subsets, 0 and 2: `mode_subset_3` of the Rust. A function for each mode has literal widths, so that
// positions and masks fold away. Both endpoints of a subset are read as one value of a channel, for they are stored side by side.
// Subsets 0 and 1 share words; the third has its own, whose other half no key reaches.
ghost use Rattle.std.specs.Prelude.{◌≡◌, [], ◌∷◌, ◌-◌, ◌*◌};
ghost use Rattle.bcn_format.specs.Indexes.{expanded};
ghost use Rattle.bits.specs.Stream.{held, taken};
ghost use Rattle.bc7_fields.specs.Fields.{direct_pixels};
ghost use Rattle.partitions.specs.Words.{second_in3, third_in3};
ghost use Rattle.bc7_subsets.specs.Asked.{Anchored3, AtMarker};

use crate::extract_partition_set_id;
use bc7_drawing::colour::{Stored, opaque, opaque_p};
use bc7_drawing::painting::paint;
use bc7_drawing::palette::palette_of_three;
use bits::stream::BitStream;
use drawing::keys::both_keys;
use indexes::Indexes;
use partitions::words::{partition_word_3_2, partition_word_3_3};

// The mode's number is the Rust's constant parameter. The stream stands at the marker, which each arm skips, so that positions are
// literals; and the decoder calls this at one place, so that the compiler folds the `match` into its own.
pub fn mode_subset_3(mode: u8, stream: BitStream) -> [[u8; 4]; 16]
    requires { AtMarker (0 ∷ 2 ∷ []) mode stream }
    ensures { result ≡ direct_pixels mode (held stream) }
{
    match mode {
        0 => mode_0(stream.skip(1)),
        _ => mode_2(stream.skip(3)),
    }
}

// Sixteen indexes, read whole and expanded. The anchors behind pixel 0 stand in the partition's word from bit 48 on, four bits each.
fn indexes_3(bits: u32, stream: BitStream, set: u64) -> u64
    requires { Anchored3 bits stream set }
    ensures { result ≡ expanded bits (0 ∷ second_in3 set ∷ third_in3 set ∷ []) (taken stream (16 * bits - 3)).value }
{
    let second = ((set >> 48) % 16) as u32;
    let third = (set >> 52) as u32;
    let read = Indexes::new(bits, stream, [second, third]);
    let indexes = read.indexes;
    indexes.uncompressed
}

// Only the first sixteen partitions; a p bit for each of the six endpoints.
fn mode_0(stream: BitStream) -> [[u8; 4]; 16]
    requires { stream.at ≡ 1 }
    ensures { result ≡ direct_pixels 0 (held stream) }
{
    let id = extract_partition_set_id(0, stream);
    let r0 = id.stream.take(8);
    let r1 = r0.stream.take(8);
    let r2 = r1.stream.take(8);
    let g0 = r2.stream.take(8);
    let g1 = g0.stream.take(8);
    let g2 = g1.stream.take(8);
    let b0 = g2.stream.take(8);
    let b1 = b0.stream.take(8);
    let b2 = b1.stream.take(8);
    let p0 = b2.stream.take(2);
    let p1 = p0.stream.take(2);
    let p2 = p1.stream.take(2);
    let first = Stored {
        r: r0.value,
        g: g0.value,
        b: b0.value,
        a: 0,
        p: p0.value,
    };
    let second = Stored {
        r: r1.value,
        g: g1.value,
        b: b1.value,
        a: 0,
        p: p1.value,
    };
    let third = Stored {
        r: r2.value,
        g: g2.value,
        b: b2.value,
        a: 0,
        p: p2.value,
    };
    let none = Stored {
        r: 0,
        g: 0,
        b: 0,
        a: 0,
        p: 0,
    };
    let colours = palette_of_three::<3, 32>(opaque_p(first, second, 4), opaque_p(third, none, 4));
    let set = partition_word_3_3(id.value as u8);
    let x = indexes_3(3, p2.stream, set);
    paint::<3, 2, 32>(colours, both_keys::<3>(x, 2, set))
}

// All 64 partitions, no p bits.
fn mode_2(stream: BitStream) -> [[u8; 4]; 16]
    requires { stream.at ≡ 3 }
    ensures { result ≡ direct_pixels 2 (held stream) }
{
    let id = extract_partition_set_id(2, stream);
    let r0 = id.stream.take(10);
    let r1 = r0.stream.take(10);
    let r2 = r1.stream.take(10);
    let g0 = r2.stream.take(10);
    let g1 = g0.stream.take(10);
    let g2 = g1.stream.take(10);
    let b0 = g2.stream.take(10);
    let b1 = b0.stream.take(10);
    let b2 = b1.stream.take(10);
    let first = Stored {
        r: r0.value,
        g: g0.value,
        b: b0.value,
        a: 0,
        p: 0,
    };
    let second = Stored {
        r: r1.value,
        g: g1.value,
        b: b1.value,
        a: 0,
        p: 0,
    };
    let third = Stored {
        r: r2.value,
        g: g2.value,
        b: b2.value,
        a: 0,
        p: 0,
    };
    let none = Stored {
        r: 0,
        g: 0,
        b: 0,
        a: 0,
        p: 0,
    };
    let colours = palette_of_three::<2, 16>(opaque(first, second, 5), opaque(third, none, 5));
    let set = partition_word_3_2(id.value as u8);
    let x = indexes_3(2, b2.stream, set);
    paint::<2, 2, 16>(colours, both_keys::<2>(x, 2, set))
}
