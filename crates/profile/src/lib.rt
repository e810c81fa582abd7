// The profile of the hand-held unit: is a block admitted, is every block of a row, does a sheet keep it? A sheet's blocks are looked at in the
// order that they are stored in, for then nothing is computed of a block that is admitted: only of one that isn't the number is, and the lowest
// is kept.

#![tactic(auto)]

ghost use Rattle.head_rules.specs.Answers.{known};
ghost use Rattle.std.specs.Prelude.{◌≡◌, length};
ghost use Rattle.refusals.specs.Answers.{number_of};
ghost use Rattle.profile_rules.specs.Profile.{ChecksProfile, admits, first_breaking, sides_refusal};
ghost use Rattle.profile_rules.specs.Small.{row_admits};
ghost use Rattle.profile.specs.Looking.{RowThere, SheetThere, StoredThere, lowest_with};

use bc7_modes::mode_of;
use block_bytes::load;
use head_rules::Head;
use profile_rules::Breach;
use refusals::Refusal;
use sheet_head::geometry::{blocks_across, blocks_of, number_at, place_of};
use sheet_head::read_whole;

// Modes 4, 5 and 6 are admitted.
pub fn is_admitted(block: [u8; 16]) -> bool
    ensures { result ≡ admits block }
{
    let mode = mode_of(block);
    4 <= mode && mode <= 6
}

// 17, where the width or the height is no multiple of 4.
pub fn check_sides(head: Head) -> Result<(), Refusal>
    ensures { number_of result ≡ sides_refusal (known head) }
{
    if head.width % 4 != 0 || head.height % 4 != 0 {
        return Err(Refusal::ProfileSides);
    }
    Ok(())
}

// Is every block of a row admitted? The first that isn't ends the search.
pub fn row_is_admitted(head: Head, row: u32, sheet: &[u8]) -> bool
    requires { RowThere (known head) row (length sheet.now) }
    ensures { result ≡ row_admits (known head) sheet.now row }
{
    let columns = blocks_across(head.width);
    let first = row * columns;
    (0..columns).all(|c| is_admitted(load(sheet, place_of(head, first + c))))
}

// The lowest number of a block that breaks the profile, of the blocks that were looked at and of the one that is stored next.
fn lowest_with(head: Head, sheet: &[u8], stored: u32, lowest: u32) -> u32
    requires { StoredThere (known head) stored (length sheet.now) }
    ensures { result ≡ lowest_with (known head) sheet.now stored lowest }
{
    if is_admitted(load(sheet, head.start as usize + 16 * stored as usize)) {
        return lowest;
    }
    let number = number_at(head, stored) as u32;
    number.min(lowest)
}

// The first block that breaks the profile, by its number; as many as there are blocks where none does.
fn first_breaking(head: Head, sheet: &[u8]) -> u32
    requires { SheetThere (known head) (length sheet.now) }
    ensures { result ≡ first_breaking (known head) sheet.now }
{
    let blocks = blocks_of(head);
    (0..blocks).fold(
        blocks,
        |lowest, stored| lowest_with(head, sheet, stored, lowest),
    )
}

// Does a sheet keep the profile? The head's refusals, 10, 17 for the size, then the first block that breaks it.
pub fn check_profile(sheet: &[u8]) -> Result<(), Breach>
    ensures { ChecksProfile sheet.now result }
{
    let head = match read_whole(sheet) {
        Ok(head) => head,
        Err(refusal) => return Err(Breach::Refused(refusal)),
    };
    match check_sides(head) {
        Ok(()) => {}
        Err(refusal) => return Err(Breach::Refused(refusal)),
    }
    let first = first_breaking(head, sheet);
    if first < blocks_of(head) {
        return Err(Breach::Block(first));
    }
    Ok(())
}
