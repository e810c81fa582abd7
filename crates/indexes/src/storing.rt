// Indexes as they are stored, of the word of sixteen: the expansion's inverse. It is ours; the Rust only reads.
ghost use Rattle.std.specs.Prelude.{◌≡◌, [], ◌+◌, ◌-◌, ◌*◌, ◌≤◌, ◌<◌};
ghost use Rattle.laws.specs.Digits.{join, removed, split};
ghost use Rattle.bcn_format.specs.Indexes.{IndexWidth, anchor_count, anchors_with, index_widths};
ghost use Rattle.indexes.specs.Reading.{IndexAt};
ghost use Rattle.indexes.specs.Storing.{Storable};

// The zero at the top of an index taken out: what is above moves down a bit, down to where that zero stood, and what is below stays.
fn compress_single_index(bits: u32, word: u64, index: u32) -> u64
    requires { IndexAt bits index }
    ensures { result ≡ removed word (index * bits + (bits - 1)) }
{
    let top = index * bits + (bits - 1);
    (((word >> top) >> 1) << top) + (word % (1u64 << top))
}

// The indexes of a word at their stored widths. The highest anchor's zero goes first, so that the others stand where they were.
// With one fix-up there are two anchors, with two there are three; any other number stands for none, which leaves pixel 0 alone.
pub fn compressed(fixups: u8, bits: u32, p2_fixup: u32, p3_fixup: u32, word: u64) -> u64
    requires { Storable fixups bits p2_fixup p3_fixup word }
    ensures { result ≡ join (index_widths bits (anchors_with fixups p2_fixup p3_fixup)) (split (index_widths bits []) word) }
{
    match fixups {
        1 => {
            let second = compress_single_index(bits, word, p2_fixup);
            compress_single_index(bits, second, 0)
        }
        2 => {
            let third = compress_single_index(bits, word, p3_fixup);
            let second = compress_single_index(bits, third, p2_fixup);
            compress_single_index(bits, second, 0)
        }
        _ => compress_single_index(bits, word, 0),
    }
}

// How many bits the stored indexes have together.
pub fn stored_bits(fixups: u8, bits: u32) -> u32
    requires { IndexWidth bits }
    ensures { result ≡ 16 * bits - anchor_count fixups }
{
    match fixups {
        1 => 16 * bits - 2,
        2 => 16 * bits - 3,
        _ => 16 * bits - 1,
    }
}
