// A row of blocks: why it is refused, and its blocks decoded and laid into the output. Blocks go
// straight from the decoder to their columns, so no buffer stands between.
ghost use Rattle.head_rules.specs.Answers.{known};
ghost use Rattle.refusals.specs.Answers.{number_of};
ghost use Rattle.std.specs.Prelude.{◌≡◌, length};
ghost use Rattle.sheet_rules.specs.Rows.{row_bytes, row_refusal};
ghost use Rattle.sheet_rules.specs.SheetRows.{row_blocks};
ghost use Rattle.sheet.specs.Columns.{SheetRow, WholeRow};

use crate::output::put_block;
use block_bytes::load;
use head_rules::Head;
use refusals::Refusal;
use sheet_head::check_size;
use sheet_head::geometry::{blocks_across, out_length, place_of, row_length, shown_in};

// Of the block bytes and the output only the lengths matter.
pub fn check_row(
    width: u32,
    height: u32,
    row: u32,
    given: usize,
    room: usize,
) -> Result<(), Refusal>
    ensures { number_of result ≡ row_refusal width height row given room }
{
    check_size(width, height)?;
    if row >= blocks_across(height) {
        return Err(Refusal::BeyondSheet);
    }
    if given != row_length(width) {
        return Err(Refusal::WrongBlockBytes);
    }
    if room != out_length(width as usize, shown_in(height as usize, row as usize)) {
        return Err(Refusal::WrongOutputLength);
    }
    Ok(())
}

// All blocks of a row.
pub fn put_row(w: usize, scanlines: usize, blocks: &[u8], out: &mut [u8])
    requires { WholeRow w scanlines (length blocks.now) (length out.old) }
    ensures { out.new ≡ row_bytes w scanlines blocks.now }
{
    let columns = blocks.len() / 16;
    // The number says both where the block stands and which column of the output is its own.
    for c in 0..columns {
        let px = bc7::decode_bc7_block(load(blocks, 16 * c));
        put_block(px, c, w, scanlines, out);
    }
}

// All blocks of a row of a whole sheet, each loaded from where it stands.
pub fn put_sheet_row(head: Head, row: u32, scanlines: usize, sheet: &[u8], out: &mut [u8])
    requires { SheetRow (known head) row scanlines sheet.now (length out.old) }
    ensures { out.new ≡ row_bytes head.width scanlines (row_blocks sheet.now row) }
{
    let columns = blocks_across(head.width);
    let w = head.width as usize;
    // The number is a block's too, by which its place is computed: in tiles the blocks of a row don't stand together.
    for c in 0..columns {
        let at = place_of(head, row * columns + c);
        let px = bc7::decode_bc7_block(load(sheet, at));
        put_block(px, c as usize, w, scanlines, out);
    }
}
