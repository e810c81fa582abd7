// Records and replacements as bytes, the form in which C and the test program hand them over. A record is 66 bytes:
// mode, kind (0 whole, 1 two subsets, 2 three, 3 vector and scalar), partition or rotation, index mode, 24 endpoint values,
// 6 p bits, 16 first and 16 second indexes.

#![tactic(auto)]

ghost use Rattle.std.specs.Prelude.{◌≡◌, ◌+◌, ◌≤◌, eqb, get_or, length};
ghost use Rattle.laws.specs.Tables.{both, over};
ghost use Rattle.bc7_format.specs.Splits.{index_mode};
ghost use Rattle.record_rules.specs.Wire.{bytes_from, record_of_bytes, split_byte};
ghost use Rattle.record_rules.specs.Promises.{PacksBytes, WritesRecord};
ghost use Rattle.line_rules.specs.Promises.{ReadsReplacement, WritesReplacement};

use bc7_format::Split;
use bc7_places::places::{FIRST, P_BITS, PLACES, SECOND, VALUES};
use bc7_places::splits::{index_mode_of, kind_of, split_of_kind};
use line_rules::Replacement;
use record::pack;
use record_rules::Record;
use refusals::Refusal;

// The partition or the rotation, whichever the split has.
fn split_byte(split: Split) -> u8
    ensures { result ≡ split_byte split }
{
    match split {
        Split::Whole => 0,
        Split::Two(partition) | Split::Three(partition) => partition,
        Split::Vector { rotation, .. } => rotation,
    }
}

// Bytes laid over others from a place on.
fn lay(values: &[u8], at: usize, into: &mut [u8])
    requires { at + length values.now ≤ length into.old }
    ensures { into.new ≡ over into.old at (length values.now) (λ i. get_or values.now i 0) }
{
    let end = at + values.len();
    into[at..end].copy_from_slice(values);
}

// The bytes of a record.
pub fn record_bytes(from: Record) -> [u8; PLACES]
    ensures { WritesRecord from result }
{
    let split = from.split;
    let mut bytes = [0u8; PLACES];
    bytes[0] = from.mode;
    bytes[1] = kind_of(split);
    bytes[2] = split_byte(split);
    bytes[3] = index_mode_of(split);
    lay(&from.endpoints, VALUES, &mut bytes);
    lay(&from.p, P_BITS, &mut bytes);
    lay(&from.first, FIRST, &mut bytes);
    lay(&from.second, SECOND, &mut bytes);
    bytes
}

// The N bytes from a place on.
fn part<const N: usize>(from: &[u8], at: usize) -> [u8; N]
    requires { at + N ≤ length from.now }
    ensures { result ≡ bytes_from from.now at N }
{
    let mut values = [0u8; N];
    values.copy_from_slice(&from[at..at + N]);
    values
}

// The record of 66 bytes. A kind above 3 is read as 3: `pack_bytes` refuses it before.
fn record_of_bytes(bytes: [u8; PLACES]) -> Record
    ensures { result ≡ record_of_bytes bytes }
{
    Record {
        mode: bytes[0],
        split: split_of_kind(bytes[1], bytes[2], bytes[2], bytes[3]),
        endpoints: part(&bytes, VALUES),
        p: part(&bytes, P_BITS),
        first: part(&bytes, FIRST),
        second: part(&bytes, SECOND),
    }
}

// Do the third and the fourth byte say no more than the split has?
fn spells(split: Split, third: u8, fourth: u8) -> bool
    ensures { result ≡ both (eqb third (split_byte split)) (eqb fourth (index_mode split)) }
{
    third == split_byte(split) && fourth == index_mode_of(split)
}

// Packing a record that is given in bytes. A byte that names no kind is a split of another kind than the mode's; one that says what
// the kind hasn't got needs more than its width, which is 0.
pub fn pack_bytes(bytes: [u8; PLACES]) -> Result<[u8; 16], Refusal>
    ensures { PacksBytes bytes result }
{
    if 3 < bytes[1] {
        return Err(Refusal::WrongKind);
    }
    let record = record_of_bytes(bytes);
    let packed = pack(record);
    if let Err(refusal) = packed {
        if refusal == Refusal::WrongKind {
            return packed;
        }
    }
    if spells(record.split, bytes[2], bytes[3]) {
        return packed;
    }
    Err(Refusal::ValueTooWide)
}

// The replacement of 26 bytes: 8 endpoint values, 2 p bits, 16 indexes.
pub fn replacement_of(bytes: [u8; 26]) -> Replacement
    ensures { ReadsReplacement bytes result }
{
    Replacement {
        endpoints: part(&bytes, 0),
        p: [bytes[8], bytes[9]],
        indexes: part(&bytes, 10),
    }
}

// The bytes of a replacement, in the same order.
pub fn replacement_bytes(from: Replacement) -> [u8; 26]
    ensures { WritesReplacement from result }
{
    let mut bytes = [0u8; 26];
    lay(&from.endpoints, 0, &mut bytes);
    lay(&from.p, 8, &mut bytes);
    lay(&from.indexes, 10, &mut bytes);
    bytes
}
