// A sheet of blocks: one row of blocks drawn as scanlines, and a line replaced in a block of a sheet. Both calls take
// every input and say why they refuse one.

#![tactic(auto)]

ghost use Rattle.refusals.specs.Answers.{number_of};
ghost use Rattle.sheet_rules.specs.Blocks.{ReadsBlock};
ghost use Rattle.sheet_rules.specs.Rows.{DecodesRow};
ghost use Rattle.sheet_rules.specs.SheetRows.{DecodesSheetRow};
ghost use Rattle.sheet_rules.specs.Sheets.{ReplacesInSheet};

use crate::blocks::find_block;
use crate::rows::{check_row, put_row, put_sheet_row};
use block_bytes::{load, store};
use line_rules::Replacement;
use refusals::Refusal;
use sheet_head::geometry::{blocks_across, out_length, shown_in};
use sheet_head::read_whole;

pub mod blocks;
pub mod output;
pub mod rows;

// One row of blocks as scanlines, top first. A refused call leaves the output as it was.
pub fn decode_row(
    width: u32,
    height: u32,
    row: u32,
    blocks: &[u8],
    out: &mut [u8],
) -> Result<(), Refusal>
    ensures { DecodesRow width height row blocks.now out.old (number_of result) out.new }
{
    check_row(width, height, row, blocks.len(), out.len())?;
    put_row(
        width as usize,
        shown_in(height as usize, row as usize),
        blocks,
        out,
    );
    Ok(())
}

// One row of blocks of a whole sheet, of either form, as scanlines. A refused call leaves the output as it was.
pub fn decode_sheet_row(sheet: &[u8], row: u32, out: &mut [u8]) -> Result<(), Refusal>
    ensures { DecodesSheetRow sheet.now row out.old (number_of result) out.new }
{
    let head = read_whole(sheet)?;
    if row >= blocks_across(head.height) {
        return Err(Refusal::BeyondSheet);
    }
    let scanlines = shown_in(head.height as usize, row as usize);
    if out.len() != out_length(head.width as usize, scanlines) {
        return Err(Refusal::WrongOutputLength);
    }
    put_sheet_row(head, row, scanlines, sheet, out);
    Ok(())
}

// A block of a sheet of either form, by its number.
pub fn block_in_sheet(sheet: &[u8], block: u32) -> Result<[u8; 16], Refusal>
    ensures { ReadsBlock sheet.now block result }
{
    let at = find_block(sheet, block)?;
    Ok(load(sheet, at))
}

// A line of a block of a sheet, replaced. A refused call leaves the sheet as it was.
pub fn replace_in_sheet(
    sheet: &mut [u8],
    block: u32,
    line: u32,
    new: Replacement,
) -> Result<(), Refusal>
    ensures { ReplacesInSheet sheet.old block line new (number_of result) sheet.new }
{
    let at = find_block(sheet, block)?;
    let after = line::replace_line(load(sheet, at), line, new)?;
    store(sheet, at, after);
    Ok(())
}
