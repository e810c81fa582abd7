// Blocks of a sheet, found by their number. Where a block stands in a sheet is found by one function, `find_block`.
ghost use Rattle.head_rules.specs.Answers.{known};
ghost use Rattle.refusals.specs.Answers.{answer_of};
ghost use Rattle.std.specs.Prelude.{◌≡◌, length};
ghost use Rattle.sheet_rules.specs.Sheets.{block_by};
ghost use Rattle.sheet.specs.Found.{BlockThere, find_block};

use block_bytes::load;
use head_rules::Head;
use refusals::Refusal;
use sheet_head::geometry::{blocks_of, place_of};
use sheet_head::read_whole;

// Where block `block` stands, or the first refusal that applies: the head's, 10, 12.
pub fn find_block(sheet: &[u8], block: u32) -> Result<usize, Refusal>
    ensures { answer_of 0 result ≡ find_block sheet.now block }
{
    let head = read_whole(sheet)?;
    if block >= blocks_of(head) {
        return Err(Refusal::BeyondSheet);
    }
    Ok(place_of(head, block))
}

// Block `number` of a whole sheet whose head was read.
pub fn block_of(head: Head, sheet: &[u8], number: u32) -> [u8; 16]
    requires { BlockThere (known head) number (length sheet.now) }
    ensures { result ≡ block_by (known head) sheet.now number }
{
    load(sheet, place_of(head, number))
}
