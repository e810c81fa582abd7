// The modes with two subsets, 1, 3 and 7: `mode_subset_2` of the Rust. A function for each mode has literal widths, so that
// positions and masks fold away. Both endpoints of a subset are read as one value of a channel, for they are stored side by side.
ghost use Rattle.std.specs.Prelude.{◌≡◌, [], ◌∷◌, ◌-◌, ◌*◌};
ghost use Rattle.bcn_format.specs.Indexes.{expanded};
ghost use Rattle.bits.specs.Stream.{held, taken};
ghost use Rattle.bc7_fields.specs.Fields.{direct_pixels};
ghost use Rattle.partitions.specs.Words.{anchor_in2};
ghost use Rattle.bc7_subsets.specs.Asked.{Anchored2, AtMarker};

use crate::extract_partition_set_id;
use bc7_drawing::colour::{Stored, opaque_p, translucent_p};
use bc7_drawing::painting::paint;
use bc7_drawing::palette::palette_of_two;
use bits::stream::BitStream;
use drawing::keys::both_keys;
use indexes::Indexes;
use partitions::words::{partition_word_2_2, partition_word_2_3};

// The mode's number is the Rust's constant parameter. The stream stands at the marker, which each arm skips, so that positions are
// literals; and the decoder calls this at one place, so that the compiler folds the `match` into its own.
pub fn mode_subset_2(mode: u8, stream: BitStream) -> [[u8; 4]; 16]
    requires { AtMarker (1 ∷ 3 ∷ 7 ∷ []) mode stream }
    ensures { result ≡ direct_pixels mode (held stream) }
{
    match mode {
        1 => mode_1(stream.skip(2)),
        3 => mode_3(stream.skip(4)),
        _ => mode_7(stream.skip(8)),
    }
}

// Sixteen indexes, read whole and expanded. The anchor behind pixel 0 stands in the partition's word from bit 48 on.
fn indexes_2(bits: u32, stream: BitStream, set: u64) -> u64
    requires { Anchored2 bits stream set }
    ensures { result ≡ expanded bits (0 ∷ anchor_in2 set ∷ []) (taken stream (16 * bits - 2)).value }
{
    let read = Indexes::new(bits, stream, [(set >> 48) as u32]);
    let indexes = read.indexes;
    indexes.uncompressed
}

// One p bit serves both endpoints of a subset: 3 * p is that bit for each of them.
fn mode_1(stream: BitStream) -> [[u8; 4]; 16]
    requires { stream.at ≡ 2 }
    ensures { result ≡ direct_pixels 1 (held stream) }
{
    let id = extract_partition_set_id(1, stream);
    let r0 = id.stream.take(12);
    let r1 = r0.stream.take(12);
    let g0 = r1.stream.take(12);
    let g1 = g0.stream.take(12);
    let b0 = g1.stream.take(12);
    let b1 = b0.stream.take(12);
    let p0 = b1.stream.take(1);
    let p1 = p0.stream.take(1);
    let first = Stored {
        r: r0.value,
        g: g0.value,
        b: b0.value,
        a: 0,
        p: 3 * p0.value,
    };
    let second = Stored {
        r: r1.value,
        g: g1.value,
        b: b1.value,
        a: 0,
        p: 3 * p1.value,
    };
    let colours = palette_of_two::<3, 16>(opaque_p(first, second, 6));
    let set = partition_word_2_3(id.value as u8);
    let x = indexes_2(3, p1.stream, set);
    paint::<3, 1, 16>(colours, both_keys::<3>(x, 1, set))
}

// A p bit for each endpoint.
fn mode_3(stream: BitStream) -> [[u8; 4]; 16]
    requires { stream.at ≡ 4 }
    ensures { result ≡ direct_pixels 3 (held stream) }
{
    let id = extract_partition_set_id(3, stream);
    let r0 = id.stream.take(14);
    let r1 = r0.stream.take(14);
    let g0 = r1.stream.take(14);
    let g1 = g0.stream.take(14);
    let b0 = g1.stream.take(14);
    let b1 = b0.stream.take(14);
    let p0 = b1.stream.take(2);
    let p1 = p0.stream.take(2);
    let first = Stored {
        r: r0.value,
        g: g0.value,
        b: b0.value,
        a: 0,
        p: p0.value,
    };
    let second = Stored {
        r: r1.value,
        g: g1.value,
        b: b1.value,
        a: 0,
        p: p1.value,
    };
    let colours = palette_of_two::<2, 8>(opaque_p(first, second, 7));
    let set = partition_word_2_2(id.value as u8);
    let x = indexes_2(2, p1.stream, set);
    paint::<2, 1, 8>(colours, both_keys::<2>(x, 1, set))
}

// The only one of the three that stores alpha.
fn mode_7(stream: BitStream) -> [[u8; 4]; 16]
    requires { stream.at ≡ 8 }
    ensures { result ≡ direct_pixels 7 (held stream) }
{
    let id = extract_partition_set_id(7, stream);
    let r0 = id.stream.take(10);
    let r1 = r0.stream.take(10);
    let g0 = r1.stream.take(10);
    let g1 = g0.stream.take(10);
    let b0 = g1.stream.take(10);
    let b1 = b0.stream.take(10);
    let a0 = b1.stream.take(10);
    let a1 = a0.stream.take(10);
    let p0 = a1.stream.take(2);
    let p1 = p0.stream.take(2);
    let first = Stored {
        r: r0.value,
        g: g0.value,
        b: b0.value,
        a: a0.value,
        p: p0.value,
    };
    let second = Stored {
        r: r1.value,
        g: g1.value,
        b: b1.value,
        a: a1.value,
        p: p1.value,
    };
    let colours = palette_of_two::<2, 8>(translucent_p(first, second, 5));
    let set = partition_word_2_2(id.value as u8);
    let x = indexes_2(2, p1.stream, set);
    paint::<2, 1, 8>(colours, both_keys::<2>(x, 1, set))
}
