// Replacing a line of a block and reading one: an endpoint pair with its p bits and its indexes. Of the block only the lead is read,
// which says where the line's own fields stand. They are put into the block's number, turned where the index at the line's anchor has
// its top bit set, and nothing else changes; or they are taken out of it.

#![tactic(auto)]

ghost use Rattle.std.specs.Prelude.{◌≡◌, not, eqb, get_or};
ghost use Rattle.laws.specs.Tables.{both};
ghost use Rattle.bcn_format.specs.Block.{bytes_of};
ghost use Rattle.bits.specs.Stream.{held};
ghost use Rattle.line.specs.Opened.{IsOpened, LineOfBlock};
ghost use Rattle.line_rules.specs.Promises.{ReadsLine, Replaces};

use crate::fields::put_line;
use crate::parts::{mask_of, only_own, oriented, parts_fit};
use crate::reading::{line_held, widths_of};
use bc7_modes::{ModeRow, mode_of, mode_row};
use bc7_places::lines::{LinePart, line_part};
use bc7_places::splits::read_lead;
use bits::stream::BitStream;
use bits::writer::BitWriter;
use indexes::sets::word_of;
use line_rules::{LineRead, Replacement};
use refusals::Refusal;

pub mod fields;
pub mod parts;
pub mod reading;

// A block's number, with the stream where its values start, and the parts of a line of it.
#[derive(Clone, Copy)]
pub struct Opened {
    pub stream: BitStream,
    pub part: LinePart,
}

// The mode is the block's and not the reserved one.
fn open_line(block: [u8; 16], mode: u8, row: ModeRow, line: u32) -> Opened
    requires { LineOfBlock block mode row line }
    ensures { IsOpened block line result }
{
    let lead = read_lead(block, mode, row);
    Opened {
        stream: lead.stream,
        part: line_part(row, lead.split, line),
    }
}

// In mode 1 one p bit is stored for both endpoints.
fn p_bits_differ(mode: u8, new: Replacement) -> bool
    ensures { result ≡ both (eqb mode 1) (not (eqb (get_or new.p 0 0) (get_or new.p 1 0))) }
{
    mode == 1 && new.p[0] != new.p[1]
}

// The bytes of the number that a stream holds.
fn bytes_of(s: BitStream) -> [u8; 16]
    ensures { result ≡ bytes_of (held s) }
{
    let writer = BitWriter {
        low: s.low,
        high: s.high,
        at: 128,
    };
    writer.finish()
}

// The block with the line replaced, or the first refusal that applies: 1, 2, 3, 4.
pub fn replace_line(block: [u8; 16], line: u32, new: Replacement) -> Result<[u8; 16], Refusal>
    ensures { Replaces block line new result }
{
    let mode = mode_of(block);
    if mode == 8 {
        return Err(Refusal::ReservedBlock);
    }
    let row = mode_row(mode);
    if line >= row.lines {
        return Err(Refusal::NoSuchLine);
    }
    let opened = open_line(block, mode, row, line);
    let part = opened.part;
    if !parts_fit(part, new) {
        return Err(Refusal::ValueTooWide);
    }
    let indexes = word_of(new.indexes, part.index);
    let mask = mask_of(part.pixels, part.index);
    if !only_own(indexes, mask) {
        return Err(Refusal::ValueTooWide);
    }
    if p_bits_differ(mode, new) {
        return Err(Refusal::PBitsDiffer);
    }
    let stored = oriented(part, new, indexes, mask);
    let after = put_line(opened.stream, mode, row, line, part, mask, stored);
    Ok(bytes_of(after))
}

// The line as it stands and the widths of its parts, or the first refusal that applies: 1, 2.
pub fn read_line(block: [u8; 16], line: u32) -> Result<LineRead, Refusal>
    ensures { ReadsLine block line result }
{
    let mode = mode_of(block);
    if mode == 8 {
        return Err(Refusal::ReservedBlock);
    }
    let row = mode_row(mode);
    if line >= row.lines {
        return Err(Refusal::NoSuchLine);
    }
    let opened = open_line(block, mode, row, line);
    let part = opened.part;
    Ok(LineRead {
        line: line_held(opened.stream, mode, row, line, part),
        widths: widths_of(part),
    })
}
