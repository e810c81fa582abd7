// The modes whose blocks are split into subsets by a partition: two subsets in modes 1, 3 and 7, three in modes 0 and 2.

#![tactic(auto)]

ghost use Rattle.bits.specs.Stream.{Taken};
ghost use Rattle.bc7_subsets.specs.Asked.{PartitionAhead, partition_width};

use bits::stream::{BitStream, Read};

pub mod three;
pub mod two;

// The number of the partition. Mode 0 has room for four bits of it.
fn extract_partition_set_id(mode: u8, stream: BitStream) -> Read
    requires { PartitionAhead mode stream }
    ensures { Taken stream (partition_width mode) result }
{
    if mode == 0 {
        return stream.take(4);
    }
    stream.take(6)
}
