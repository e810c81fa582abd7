// One block to sixteen pixels: the port of the Rust's src/decode/bc7.rs, whose modes stand in bc7_unpartitioned and bc7_subsets. Here the
// mode is found and its function called.

#![tactic(auto)]

ghost use Rattle.std.specs.Prelude.{◌≡◌};
ghost use Rattle.bcn_format.specs.Block.{field, trailing};
ghost use Rattle.bits.specs.Stream.{Room, held};
ghost use Rattle.bc7.specs.Promises.{DecodesBlock};

use bc7_subsets::three::mode_subset_3;
use bc7_subsets::two::mode_subset_2;
use bc7_unpartitioned::{mode_4, mode_5, mode_6};
use bits::stream::BitStream;

// The sixteen pixels of a block, row by row: red, green, blue, alpha. Any sixteen bytes are a block; a reserved one shows 0 0 0 0.
pub fn decode_bc7_block(block: [u8; 16]) -> [[u8; 4]; 16]
    ensures { DecodesBlock block result }
{
    let stream = BitStream::new(block);
    let mode = extract_mode(stream);
    // Told apart here, a reserved block costs the others two instructions less than as the last arm, which no block reaches now.
    if mode == 8 {
        return [[0u8; 4]; 16];
    }
    // Tried: the arms as the answer, without `return`, which the compiler lays out otherwise: 432 instructions for 397 in mode 4, 329 for 297 in
    // mode 5.
    match mode {
        0 | 2 => return mode_subset_3(mode, stream),
        1 | 3 | 7 => return mode_subset_2(mode, stream),
        4 => return mode_4(stream.skip(5)),
        5 => return mode_5(stream.skip(6)),
        6 => return mode_6(stream.skip(7)),
        _ => return [[0u8; 4]; 16],
    }
}

// The stream isn't moved: each mode skips its own marker, so that positions are literals.
fn extract_mode(stream: BitStream) -> u8
    requires { Room stream 8 }
    ensures { result ≡ trailing 8 (field (held stream) stream.at 8) }
{
    u8::trailing_zeros(stream.low_u8().value as u8) as u8
}
