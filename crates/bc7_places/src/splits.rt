// A split by its parts: its kind and the numbers that it holds (0 where it has none), its anchors and its subsets; and the split of
// a block. Whoever asks something of a split asks here.
ghost use Rattle.std.specs.Prelude.{◌≡◌, ◌<◌};
ghost use Rattle.bc7_format.specs.Splits.{kind_of, partition, rotation, index_mode, of_kind};
ghost use Rattle.bc7_modes.specs.Modes.{OfBlock};
ghost use Rattle.bc7_places.specs.Splits.{IsLead, PixelIn, SplitAhead, anchors_of, split_read, subset_in, subsets_of};

use bc7_format::Split;
use bc7_modes::ModeRow;
use bits::stream::BitStream;
use partitions::{fixup_index_2, fixup_indexes_3, subset_indexes_2, subset_indexes_3};

// 0 whole, 1 two subsets, 2 three, 3 vector and scalar.
pub fn kind_of(split: Split) -> u8
    ensures { result ≡ kind_of split }
{
    match split {
        Split::Whole => 0,
        Split::Two(_) => 1,
        Split::Three(_) => 2,
        Split::Vector { .. } => 3,
    }
}

pub fn partition_of(split: Split) -> u8
    ensures { result ≡ partition split }
{
    match split {
        Split::Two(partition) | Split::Three(partition) => partition,
        Split::Whole | Split::Vector { .. } => 0,
    }
}

pub fn rotation_of(split: Split) -> u8
    ensures { result ≡ rotation split }
{
    match split {
        Split::Vector { rotation, .. } => rotation,
        _ => 0,
    }
}

pub fn index_mode_of(split: Split) -> u8
    ensures { result ≡ index_mode split }
{
    match split {
        Split::Vector { index_mode, .. } => index_mode,
        _ => 0,
    }
}

// The split of a kind, of whose parts it takes what it has.
pub fn split_of_kind(kind: u8, partition: u8, rotation: u8, index_mode: u8) -> Split
    ensures { result ≡ of_kind kind partition rotation index_mode }
{
    match kind {
        0 => Split::Whole,
        1 => Split::Two(partition),
        2 => Split::Three(partition),
        _ => Split::Vector {
            rotation,
            index_mode,
        },
    }
}

// The pixels that are anchors, as three numbers: pixel 0 again where a split has fewer.
#[derive(Clone, Copy)]
pub struct Anchors {
    pub a: usize,
    pub b: usize,
    pub c: usize,
}

// Pixel 0 is always an anchor; the partition tables have the others.
pub fn anchors_of(split: Split) -> Anchors
    requires { partition split < 64 }
    ensures { result ≡ anchors_of split }
{
    match split {
        Split::Two(partition) => Anchors {
            a: 0,
            b: fixup_index_2(partition) as usize,
            c: 0,
        },
        Split::Three(partition) => {
            let fixups = fixup_indexes_3(partition);
            Anchors {
                a: 0,
                b: fixups.fixup_index_2 as usize,
                c: fixups.fixup_index_3 as usize,
            }
        }
        Split::Whole | Split::Vector { .. } => Anchors { a: 0, b: 0, c: 0 },
    }
}

// The subsets of the pixels: pixel q's has `bits` bits of the map, from bit q * bits on.
#[derive(Clone, Copy)]
pub struct Subsets {
    pub map: u32,
    pub bits: u32,
}

// A block of one line, and a vector and its scalar, have all pixels in subset 0.
pub fn subsets_of(split: Split) -> Subsets
    requires { partition split < 64 }
    ensures { result ≡ subsets_of split }
{
    match split {
        Split::Two(partition) => Subsets {
            map: subset_indexes_2(partition) as u32,
            bits: 1,
        },
        Split::Three(partition) => Subsets {
            map: subset_indexes_3(partition),
            bits: 2,
        },
        Split::Whole | Split::Vector { .. } => Subsets { map: 0, bits: 1 },
    }
}

// The subset of a pixel.
pub fn subset_of(subsets: Subsets, pixel: usize) -> u32
    requires { PixelIn subsets pixel }
    ensures { result ≡ subset_in subsets pixel }
{
    (subsets.map >> (pixel as u32 * subsets.bits)) % (1u32 << subsets.bits)
}

// The split, and the stream past it.
#[derive(Clone, Copy)]
pub struct ReadSplit {
    pub split: Split,
    pub stream: BitStream,
}

// A mode has a partition, or a rotation (of two bits) with an index mode, or nothing: one read, of which the kind takes what it
// has.
fn read_split(row: ModeRow, stream: BitStream) -> ReadSplit
    requires { SplitAhead row stream }
    ensures { result ≡ split_read row stream }
{
    let bits = stream.take(row.partition + row.rotation + row.index_mode);
    let value = bits.value as u8;
    ReadSplit {
        split: split_of_kind(row.kind, value, value % 4, value >> 2),
        stream: bits.stream,
    }
}

// The lead of a block that is not reserved, by its mode and the row of that mode: the split, and the stream where the values start.
pub fn read_lead(block: [u8; 16], mode: u8, row: ModeRow) -> ReadSplit
    requires { OfBlock block mode row }
    ensures { IsLead block result }
{
    read_split(row, BitStream::new(block).skip(mode as u32 + 1))
}
