// A block taken apart into a record, and a record packed into a block.

#![tactic(auto)]

ghost use Rattle.record_rules.specs.Promises.{Packs, Unpacks};

use crate::fits::{anchors_fit, record_fits};
use crate::reading::read_record;
use crate::writing::Packing;
use bc7_modes::{mode_of, mode_row};
use bc7_places::splits::{anchors_of, kind_of};
use record_rules::Record;
use refusals::Refusal;

pub mod fits;
pub mod reading;
pub mod writing;

// The record of a block; a reserved block is refused.
pub fn unpack(block: [u8; 16]) -> Result<Record, Refusal>
    ensures { Unpacks block result }
{
    let mode = mode_of(block);
    if mode == 8 {
        return Err(Refusal::ReservedBlock);
    }
    Ok(read_record(block, mode, mode_row(mode)))
}

// The block of a record, or the first refusal that applies: 5, 3, 6.
pub fn pack(record: Record) -> Result<[u8; 16], Refusal>
    ensures { Packs «record» result }
{
    let mode = record.mode;
    if mode > 7 {
        return Err(Refusal::WrongKind);
    }
    let split = record.split;
    let row = mode_row(mode);
    if kind_of(split) != row.kind {
        return Err(Refusal::WrongKind);
    }
    if !record_fits(record, row) {
        return Err(Refusal::ValueTooWide);
    }
    let anchors = anchors_of(split);
    if !anchors_fit(record, row, anchors) {
        return Err(Refusal::AnchorBitSet);
    }
    let packing = Packing {
        record: record,
        row: row,
        anchors: anchors,
    };
    Ok(packing.block())
}
