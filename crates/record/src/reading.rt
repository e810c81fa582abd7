// Reading a block group by group: behind the split a word for each channel, a word of p bits, a word for each set of indexes. A
// word is then taken apart into its parts.
ghost use Rattle.std.specs.Prelude.{◌≡◌, ◌<◌, ◌≤◌};
ghost use Rattle.bcn_format.specs.Indexes.{part};
ghost use Rattle.record_rules.specs.Records.{record_of};
ghost use Rattle.bc7_modes.specs.Modes.{OfBlock, OfMode};
ghost use Rattle.record.specs.Reading.{EndpointsAhead, PAhead, SecondAhead, endpoints_of, endpoints_read, p_read, second_read};

use bc7_modes::ModeRow;
use bc7_places::splits::{Anchors, anchors_of, read_lead};
use bits::stream::BitStream;
use indexes::sets::{parts_of, read_indexes};
use record_rules::Record;

// Part i of a word of parts of one width.
fn part_of(word: u64, width: u32, i: usize) -> u8
    requires { (width ≤ 8) × (i < 6) }
    ensures { result ≡ part word width i }
{
    ((word >> (i as u32 * width)) % (1u64 << width)) as u8
}

// The values of the mode's endpoints, of four words, one a channel. Those that the mode hasn't got stay 0.
fn endpoints_of(row: ModeRow, red: u64, green: u64, blue: u64, alpha: u64) -> [u8; 24]
    requires { OfMode row }
    ensures { result ≡ endpoints_of row red green blue alpha }
{
    let mut endpoints = [0u8; 24];
    for e in 0..row.endpoints {
        endpoints[4 * e] = part_of(red, row.colour, e);
        endpoints[4 * e + 1] = part_of(green, row.colour, e);
        endpoints[4 * e + 2] = part_of(blue, row.colour, e);
        endpoints[4 * e + 3] = part_of(alpha, row.alpha, e);
    }
    endpoints
}

// A channel's values stand side by side: one read for each channel. With them the stream past them.
pub fn read_endpoints(row: ModeRow, stream: BitStream) -> ([u8; 24], BitStream)
    requires { EndpointsAhead row stream }
    ensures { result ≡ endpoints_read row stream }
{
    let count = row.endpoints as u32;
    let red = stream.take(count * row.colour);
    let s1 = red.stream;
    let green = s1.take(count * row.colour);
    let s2 = green.stream;
    let blue = s2.take(count * row.colour);
    let s3 = blue.stream;
    let alpha = s3.take(count * row.alpha);
    let endpoints = endpoints_of(row, red.value, green.value, blue.value, alpha.value);
    (endpoints, alpha.stream)
}

// What the mode hasn't got is 0, since a word of its p bits has no more.
pub fn read_p(row: ModeRow, stream: BitStream) -> ([u8; 6], BitStream)
    requires { PAhead row stream }
    ensures { result ≡ p_read row stream }
{
    let bits = stream.take(row.p as u32);
    let word = bits.value;
    let p = [
        part_of(word, 1, 0),
        part_of(word, 1, 1),
        part_of(word, 1, 2),
        part_of(word, 1, 3),
        part_of(word, 1, 4),
        part_of(word, 1, 5),
    ];
    (p, bits.stream)
}

// The second set of indexes, zeros where the mode has none.
pub fn read_second(row: ModeRow, anchors: Anchors, stream: BitStream) -> [u8; 16]
    requires { SecondAhead row anchors stream }
    ensures { result ≡ second_read row anchors stream }
{
    if row.kind != 3 {
        return [0u8; 16];
    }
    let set = read_indexes(row.kind, row.second, stream, anchors.b, anchors.c);
    let indexes = set.indexes;
    parts_of(indexes.uncompressed, row.second)
}

// The record of a block that is not reserved, by its mode and the row of that mode.
pub fn read_record(block: [u8; 16], mode: u8, row: ModeRow) -> Record
    requires { OfBlock block mode row }
    ensures { result ≡ record_of block }
{
    let lead = read_lead(block, mode, row);
    let split = lead.split;
    let (endpoints, behind) = read_endpoints(row, lead.stream);
    let (p, rest) = read_p(row, behind);
    let anchors = anchors_of(split);
    let set = read_indexes(row.kind, row.first, rest, anchors.b, anchors.c);
    let indexes = set.indexes;
    let first = parts_of(indexes.uncompressed, row.first);
    let second = read_second(row, anchors, set.stream);
    Record {
        mode: mode,
        split: split,
        endpoints: endpoints,
        p: p,
        first: first,
        second: second,
    }
}
