// Writing a block group by group: the marker and the split, a word for each channel, a word of p bits, a word for each set of
// indexes, each of them pushed at once.
ghost use Rattle.std.specs.Prelude.{◌≡◌, ◌+◌, ◌-◌, ◌*◌, get_or};
ghost use Rattle.laws.specs.Digits.{evenly};
ghost use Rattle.bc7_format.specs.Places.{block_of, first_from, place_count, ps_from, values_from};
ghost use Rattle.bcn_format.specs.Indexes.{anchor_count};
ghost use Rattle.bits.specs.Writer.{pushed};
ghost use Rattle.record_rules.specs.Records.{says};
ghost use Rattle.record.specs.Writing.{ChannelNext, Joinable, PackableWith, SetNext};
ghost use Rattle.record.specs.Writing.{stored_set, upto};

use bc7_modes::ModeRow;
use bc7_places::splits::{Anchors, index_mode_of, partition_of, rotation_of};
use bits::writer::BitWriter;
use indexes::sets::word_of;
use indexes::storing::{compressed, stored_bits};
use record_rules::Record;

// Values that stand so many steps apart, from a place on, as one word: the first lowest.
fn joined(values: &[u8], from: usize, step: usize, count: usize, width: u32) -> u64
    requires { Joinable values.now from step count width }
    ensures { result ≡ evenly count width (λ k. get_or values.now (step * k + from) 0) }
{
    let mut word = 0u64;
    for k in (0..count).rev() {
        word = (word << width) + values[step * k + from] as u64;
    }
    word
}

// The indexes of a set, each at its stored width.
fn push_set(
    writer: BitWriter,
    kind: u8,
    anchors: Anchors,
    width: u32,
    indexes: [u8; 16],
) -> BitWriter
    requires { SetNext writer kind anchors width indexes }
    ensures { result ≡ pushed writer (stored_set kind anchors width indexes) (16 * width - anchor_count kind) }
{
    let word = word_of(indexes, width);
    let stored = compressed(kind, width, anchors.b as u32, anchors.c as u32, word);
    writer.push(stored, stored_bits(kind, width))
}

// A record that packs, with the row of its mode and the anchors of its split: everything fits as it is stored.
#[derive(Clone, Copy)]
pub struct Packing {
    pub record: Record,
    pub row: ModeRow,
    pub anchors: Anchors,
    pub ghost packs: { PackableWith «record» row anchors },
}

impl Packing {
    // Marker and split.
    fn push_lead(self) -> BitWriter
        ensures { result ≡ upto self.«record» values_from }
    {
        let mode = self.record.mode;
        let split = self.record.split;
        BitWriter::new()
            .push(1u64 << mode, mode as u32 + 1)
            .push(partition_of(split) as u64, self.row.partition)
            .push(rotation_of(split) as u64, self.row.rotation)
            .push(index_mode_of(split) as u64, self.row.index_mode)
    }

    fn push_channel(self, writer: BitWriter, channel: usize, width: u32) -> BitWriter
        requires { ChannelNext self.«record» channel width writer }
        ensures { result ≡ upto self.«record» (values_from + 6 * channel + 6) }
    {
        // Arrays are copied first, here and below: lent out of the record itself, they cost packing 897 instructions for 655.
        let endpoints = self.record.endpoints;
        let word = joined(&endpoints, channel, 4, self.row.endpoints, width);
        writer.push(word, self.row.endpoints as u32 * width)
    }

    fn push_endpoints(self, writer: BitWriter) -> BitWriter
        requires { writer ≡ upto self.«record» values_from }
        ensures { result ≡ upto self.«record» ps_from }
    {
        let red = self.push_channel(writer, 0, self.row.colour);
        let green = self.push_channel(red, 1, self.row.colour);
        let blue = self.push_channel(green, 2, self.row.colour);
        self.push_channel(blue, 3, self.row.alpha)
    }

    fn push_p(self, writer: BitWriter) -> BitWriter
        requires { writer ≡ upto self.«record» ps_from }
        ensures { result ≡ upto self.«record» first_from }
    {
        let p = self.record.p;
        writer.push(joined(&p, 0, 1, self.row.p, 1), self.row.p as u32)
    }

    // Both sets, where the mode has two.
    fn push_indexes(self, writer: BitWriter) -> BitWriter
        requires { writer ≡ upto self.«record» first_from }
        ensures { result ≡ upto self.«record» place_count }
    {
        let row = self.row;
        let first = self.record.first;
        let one = push_set(writer, row.kind, self.anchors, row.first, first);
        if row.kind != 3 {
            return one;
        }
        let second = self.record.second;
        push_set(one, row.kind, self.anchors, row.second, second)
    }

    // The block of the record.
    pub fn block(self) -> [u8; 16]
        ensures { result ≡ block_of self.«record».mode self.«record».split (says self.«record») }
    {
        let lead = self.push_lead();
        let values = self.push_endpoints(lead);
        let p = self.push_p(values);
        self.push_indexes(p).finish()
    }
}
