// Moves of a sheet between its forms: from form 1 to form 2 with number 0, and back where nothing is lost; and the colour space of a sheet
// of form 2 stated, which is what a move back would lose. Each call takes every input and says why it refuses one.

#![tactic(auto)]

ghost use Rattle.std.specs.Prelude.{◌≡◌, length};
ghost use Rattle.head_rules.specs.declared.Form.TheVariants.{Rows, Tiles};
ghost use Rattle.refusals.specs.Answers.{number_of};
ghost use Rattle.head_rules.specs.Answers.{known};
ghost use Rattle.head_rules.specs.Geometry.{whole_length};
ghost use Rattle.head_rules.specs.Heads.{Sized};
ghost use Rattle.tiles.specs.Parts.{Numbered};
ghost use Rattle.sheet_rules.specs.Pictures.{blocks_as};
ghost use Rattle.move_rules.specs.Moving.{MovesTo, head_in_form, moved_to, other};
ghost use Rattle.move_rules.specs.Stating.{StatesColour};
ghost use Rattle.moves.specs.Rooms.{Lays, MovesBlocks, Stores};

use block_bytes::{load, store};
use head_rules::{Form, Head};
use refusals::Refusal;
use sheet_head::colours::colour_numbered;
use sheet_head::geometry::{blocks_across, blocks_of};
use sheet_head::{colours, read_whole_of_form, write_form};

// Which of the stored blocks of a form a block is. The columns and rows are found once for all blocks: `place_of` would find them
// again for each, and a move would take a hundred instructions a block.
fn stored_by(form: Form, columns: usize, rows: usize, block: usize) -> usize
    requires { Numbered columns rows block }
    ensures { Stores form columns rows block result }
{
    match form {
        Form::Rows => block,
        Form::Tiles => tiles::stored_in_tiles(columns, rows, block),
    }
}

// All blocks of a sheet, each from where the sheet has it to where the form stores it.
fn move_blocks(form: Form, head: Head, sheet: &[u8], to: &mut [u8])
    requires { MovesBlocks (known head) (length sheet.now) (length to.old) }
    ensures { to.new ≡ blocks_as form (known head) sheet.now }
{
    let columns = blocks_across(head.width) as usize;
    let rows = blocks_across(head.height) as usize;
    let own = head.form;
    // The number is a block's, by which both its places are computed; a sheet in tiles has no list of blocks in this order.
    for b in 0..rows * columns {
        let block = load(
            sheet,
            head.start as usize + 16 * stored_by(own, columns, rows, b),
        );
        store(to, 16 * stored_by(form, columns, rows, b), block);
    }
}

fn other(form: Form) -> Form
    ensures { result ≡ other form }
{
    match form {
        Form::Rows => Form::Tiles,
        Form::Tiles => Form::Rows,
    }
}

// The bytes of a sheet in a form, whose head in the other is given.
fn length_as(form: Form, head: Head) -> usize
    requires { Sized head.width head.height }
    ensures { result ≡ whole_length (head_in_form form (known head)) }
{
    let written = write_form(form, head.width, head.height);
    written.count as usize + 16 * blocks_of(head) as usize
}

// The head in a form, and behind it all blocks of a sheet in that form's order: the whole output.
fn lay(form: Form, head: Head, sheet: &[u8], out: &mut [u8])
    requires { Lays form (known head) (length sheet.now) (length out.old) }
    ensures { out.new ≡ moved_to form (known head) sheet.now }
{
    let written = write_form(form, head.width, head.height);
    let count = written.count as usize;
    let bytes = written.bytes;
    out[..count].copy_from_slice(&bytes[..count]);
    move_blocks(form, head, sheet, &mut out[count..]);
}

// A sheet of the other form in this one. A refused call leaves the output as it was.
fn move_to(form: Form, sheet: &[u8], out: &mut [u8]) -> Result<(), Refusal>
    ensures { MovesTo form sheet.now out.old result out.new }
{
    let head = read_whole_of_form(other(form), sheet)?;
    if out.len() != length_as(form, head) {
        return Err(Refusal::WrongOutputLength);
    }
    if colours::number_of(head.colour_space) != 0 {
        return Err(Refusal::ColourSpaceStated);
    }
    lay(form, head, sheet, out);
    Ok(())
}

pub fn to_tiles(sheet: &[u8], out: &mut [u8]) -> Result<(), Refusal>
    ensures { MovesTo Tiles sheet.now out.old result out.new }
{
    move_to(Form::Tiles, sheet, out)
}

pub fn to_rows(sheet: &[u8], out: &mut [u8]) -> Result<(), Refusal>
    ensures { MovesTo Rows sheet.now out.old result out.new }
{
    move_to(Form::Rows, sheet, out)
}

// The colour space of a sheet of form 2, by its number: the byte before the first block, and no other. A refused call leaves the sheet as it
// was.
pub fn state_colour(sheet: &mut [u8], number: u32) -> Result<(), Refusal>
    ensures { StatesColour sheet.old number result sheet.new }
{
    let head = read_whole_of_form(Form::Tiles, sheet)?;
    colour_numbered(number)?;
    let at = head.start as usize - 1;
    sheet[at] = number as u8;
    Ok(())
}
