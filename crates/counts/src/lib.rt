// Counts kept beside a sheet: how many blocks have each mode and how many are opaque, counted once, and handed on by the calls that replace a
// line of a block or a whole block. Each call takes every input and says why it refuses one.

#![tactic(auto)]

ghost use Rattle.std.specs.Prelude.{◌≡◌, ◌+◌, ◌<◌};
ghost use Rattle.refusals.specs.Answers.{number_of};
ghost use Rattle.head_rules.specs.Answers.{known};
ghost use Rattle.count_rules.specs.Counts.{CountsSheet, counts_answered, counts_below, counts_of, no_counts};
ghost use Rattle.count_rules.specs.Keeping.{ReplacesBlockCounted, ReplacesLineCounted, false_of, of_all_modes, recounted_as};
ghost use Rattle.counts.specs.Blocks.{CountedBelow, Here, Names, PutThere, RecountAsked, WholeBlocks, SumsThree};

use bc7_modes::mode_of;
use block_bytes::{load, store};
use count_rules::Counts;
use head_rules::Head;
use line_rules::Replacement;
use opacity::is_opaque_at;
use refusals::Refusal;
use sheet::blocks::block_of;
use sheet_head::geometry::{blocks_of, place_of};
use sheet_head::read_whole;

fn no_counts() -> Counts
    ensures { result ≡ no_counts }
{
    Counts {
        modes: [0u32; 9],
        opaque: 0,
    }
}

// One block more of those that are counted in the order of their numbers.
fn count_block(head: Head, sheet: &[u8], number: u32, counts: Counts) -> Counts
    requires { CountedBelow (known head) sheet.now number counts }
    ensures { result ≡ counts_below (known head) sheet.now (number + 1) }
{
    let block = block_of(head, sheet, number);
    let mode = mode_of(block) as usize;
    let mut modes = counts.modes;
    modes[mode] += 1;
    Counts {
        modes,
        opaque: counts.opaque + u32::from(is_opaque_at(head, number, block)),
    }
}

// All blocks of a whole sheet.
fn count_blocks(head: Head, sheet: &[u8]) -> Counts
    requires { WholeBlocks (known head) sheet.now }
    ensures { result ≡ counts_of (known head) sheet.now }
{
    let mut counts = no_counts();
    let blocks = blocks_of(head);
    // The number is a block's, by which its place and what is visible of it are computed; there is no list of blocks in this order.
    for b in 0..blocks {
        counts = count_block(head, sheet, b, counts);
    }
    counts
}

// The counts of a sheet of either form.
pub fn count_sheet(sheet: &[u8]) -> Result<Counts, Refusal>
    ensures { CountsSheet sheet.now (counts_answered no_counts result) }
{
    let head = read_whole(sheet)?;
    Ok(count_blocks(head, sheet))
}

// Three counts together.
fn three(a: u32, b: u32, c: u32) -> u64
    ensures { SumsThree a b c result }
{
    a as u64 + b as u64 + c as u64
}

// The nine mode counts together. Nine numbers of 32 bits don't come round in 64.
fn sum_of(counts: Counts) -> u64
    ensures { result ≡ of_all_modes counts }
{
    // As a chain of map() and sum() it is compiled wrong for wasm32 (docs/DECISIONS.md).
    let m = counts.modes;
    three(m[0], m[1], m[2]) + three(m[3], m[4], m[5]) + three(m[6], m[7], m[8])
}

// 19, where the counts are false of a block with this mode that is opaque or not, in a sheet of so many blocks.
fn check_counts(counts: Counts, blocks: u32, mode: u8, opaque: bool) -> Result<(), Refusal>
    requires { mode < 9 }
    ensures { number_of result ≡ false_of blocks mode opaque counts }
{
    if sum_of(counts) != u64::from(blocks) {
        return Err(Refusal::FalseCounts);
    }
    if counts.modes[mode as usize] == 0 {
        return Err(Refusal::FalseCounts);
    }
    if opaque && counts.opaque == 0 {
        return Err(Refusal::FalseCounts);
    }
    if !opaque && counts.opaque >= blocks {
        return Err(Refusal::FalseCounts);
    }
    Ok(())
}

// The block that a call names, and what it is counted as, with the head of its sheet.
#[derive(Clone, Copy)]
pub struct NamedBlock {
    pub head: Head,
    pub at: usize,
    pub block: [u8; 16],
    pub mode: u8,
    pub opaque: bool,
}

// The head's refusals, 10, 12, 19. The block is looked at once for 19 and for the counts that are handed back.
fn named_block(sheet: &[u8], counts: Counts, number: u32) -> Result<NamedBlock, Refusal>
    ensures { Names sheet.now counts number result }
{
    let head = read_whole(sheet)?;
    let blocks = blocks_of(head);
    if number >= blocks {
        return Err(Refusal::BeyondSheet);
    }
    let at = place_of(head, number);
    let block = load(sheet, at);
    let mode = mode_of(block);
    let opaque = is_opaque_at(head, number, block);
    check_counts(counts, blocks, mode, opaque)?;
    Ok(NamedBlock {
        head,
        at,
        block,
        mode,
        opaque,
    })
}

// A block had a mode and was opaque or not; now it has another and is or isn't.
fn recount(counts: Counts, had: u8, was: bool, has: u8, is: bool) -> Counts
    requires { RecountAsked counts had was has is }
    ensures { result ≡ recounted_as had was has is counts }
{
    let mut modes = counts.modes;
    modes[had as usize] -= 1;
    modes[has as usize] += 1;
    Counts {
        modes,
        opaque: counts.opaque - u32::from(was) + u32::from(is),
    }
}

// A block in the place of the named one, and the counts once it is there.
fn put(sheet: &mut [u8], counts: Counts, number: u32, named: NamedBlock, new: [u8; 16]) -> Counts
    requires { Here sheet.old counts number named }
    ensures { PutThere sheet.old counts number new result sheet.new }
{
    store(sheet, named.at, new);
    let is = is_opaque_at(named.head, number, new);
    recount(counts, named.mode, named.opaque, mode_of(new), is)
}

// A line of a block of a sheet, replaced, with the counts beside the sheet. A refused call leaves the sheet as it was, and the counts that came
// are still those of it.
pub fn replace_line_counted(
    sheet: &mut [u8],
    counts: Counts,
    block: u32,
    line: u32,
    new: Replacement,
) -> Result<Counts, Refusal>
    ensures { ReplacesLineCounted sheet.old counts block line new (counts_answered counts result) sheet.new }
{
    let named = named_block(sheet, counts, block)?;
    let made = line::replace_line(named.block, line, new)?;
    Ok(put(sheet, counts, block, named, made))
}

// A whole block of a sheet, replaced by any sixteen bytes, in the same way.
pub fn replace_block_counted(
    sheet: &mut [u8],
    counts: Counts,
    block: u32,
    bytes: [u8; 16],
) -> Result<Counts, Refusal>
    ensures { ReplacesBlockCounted sheet.old counts block bytes (counts_answered counts result) sheet.new }
{
    let named = named_block(sheet, counts, block)?;
    Ok(put(sheet, counts, block, named, bytes))
}
