// A set of sixteen indexes as one word of equal parts: read by the number of its fix-ups, taken apart and put together. It is ours; the
// Rust reads a set by one function for each number of anchors, and takes each index from it where it draws.
ghost use Rattle.std.specs.Prelude.{◌≡◌, [], ◌+◌, ◌-◌, ◌*◌, ◌≤◌};
ghost use Rattle.laws.specs.Digits.{join};
ghost use Rattle.laws.specs.Tables.{table};
ghost use Rattle.bcn_format.specs.Block.{field};
ghost use Rattle.bcn_format.specs.Indexes.{anchor_count, anchors_with, index_widths, part};
ghost use Rattle.indexes.specs.Reading.{IndexAt, SetAhead, SetFits, new_indexes};

use crate::{Indexes, NewIndexes};
use bits::stream::BitStream;

// With one fix-up there are two anchors, with two there are three; any other number stands for none, which leaves pixel 0 alone. The
// anchors' zeros are put in.
pub fn read_indexes(
    fixups: u8,
    bits: u32,
    stream: BitStream,
    second: usize,
    third: usize,
) -> NewIndexes
    requires { SetAhead stream fixups bits second third }
    ensures { result ≡ new_indexes bits (anchors_with fixups second third) stream (16 * bits - anchor_count fixups) }
{
    match fixups {
        1 => Indexes::new(bits, stream, [second as u32]),
        2 => Indexes::new(bits, stream, [second as u32, third as u32]),
        _ => Indexes::new(bits, stream, []),
    }
}

// The sixteen parts of a word.
pub fn parts_of(word: u64, width: u32) -> [u8; 16]
    requires { width ≤ 4 }
    ensures { result ≡ table 16 (part word width) }
{
    let mut parts = [0u8; 16];
    let mut rest = word;
    for part in parts.iter_mut() {
        *part = (rest % (1u64 << width)) as u8;
        rest >>= width;
    }
    parts
}

// The word of sixteen indexes that fit a width.
pub fn word_of(indexes: [u8; 16], width: u32) -> u64
    requires { SetFits indexes width }
    ensures { result ≡ join (index_widths width []) indexes }
{
    let mut word: u64 = 0;
    for i in (0..16usize).rev() {
        word = (word << width) + indexes[i] as u64;
    }
    word
}

// The top bit of an index in a word.
pub fn top_of(word: u64, width: u32, index: usize) -> u64
    requires { IndexAt width index }
    ensures { result ≡ field word (index * width + (width - 1)) 1 }
{
    (word >> (index as u32 * width + (width - 1))) % 2
}
