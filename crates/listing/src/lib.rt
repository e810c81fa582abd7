// The listing of a sheet that comes in pieces, as a machine: it says how many bytes it wants next, takes what came (fewer than
// it wanted where the input ended), and answers its next state and the text to write. All that decides what is printed stands
// here and below; a program only reads and writes.

#![tactic(auto)]

ghost use Rattle.std.specs.Prelude.{◌≡◌, ◌+◌, ◌*◌, ◌/◌, ◌≤◌, eqb, length};
ghost use Rattle.laws.specs.Tables.{pick};
ghost use Rattle.head_rules.specs.Answers.{known, reader_known};
ghost use Rattle.head_rules.specs.Geometry.{number_at};
ghost use Rattle.head_rules.specs.Reader.{Going};
ghost use Rattle.laws.specs.Padding.{Written};
ghost use Rattle.listing_rules.specs.Listing.{block_listed, listed, unless_exact};
ghost use Rattle.listing_rules.specs.Promises.{SaysNext};
ghost use Rattle.listing_rules.specs.Machine.{InBlocks, NextEnd, Ready, at_head, ended, in_blocks, machine_known, next_at_head};
ghost use Rattle.listing_rules.specs.Machine.{next_in_blocks, next_of, run_of, spare_of, taken_of, text_at_head, text_in_blocks};
ghost use Rattle.text.specs.Puts.{Puts};
ghost use Rattle.listing.specs.Asked.{BlockAsked, BlocksAsked, HeadAsked, NextAsked, RunAsked, WithinBlocks};
ghost use Rattle.listing.specs.Promised.{GoesOnReady, ListsSheet, Spares, Starts, TakesNext, TellsRun, WantsFew};

use crate::texts::{block_text, sheet_text};
use bc7::decode_bc7_block;
use bc7_modes::mode_of;
use block_bytes::load;
use head_rules::{Head, HeadReader};
use listing_rules::{Machine, Phase};
use opacity::is_opaque_in;
use refusal_numbers::number;
use refusals::Refusal;
use sheet_head::geometry::{blocks_across, blocks_of, number_at};
use sheet_head::reader::{has_ended, take_byte};
use text::refused_text;

pub mod texts;

// A row of blocks is taken in runs of so many blocks at the most, and a program needs a buffer for one run.
const MOST_IN_RUN: u32 = 1024;

// The reader of the head after what came of its next byte; the head is cut off where none came. An accepted head has a size.
fn take_next(reader: HeadReader, came: &[u8]) -> Result<HeadReader, Refusal>
    requires { Going (reader_known reader) }
    ensures { TakesNext (reader_known reader) came.now result }
{
    if came.len() == 0 {
        return Err(Refusal::BadNumber);
    }
    take_byte(reader, came[0])
}

// The text of a block of a sheet, to a place of the output; the place behind it.
fn list_block(head: Head, number: u32, block: [u8; 16], at: usize, out: &mut [u8]) -> usize
    requires { BlockAsked (known head) number at (length out.old) }
    ensures { Puts 40 out.old at (block_listed (known head) number block) out.new result }
{
    let pixels = decode_bc7_block(block);
    let opaque = is_opaque_in(head, number, block, pixels);
    let first = pixels[0];
    block_text(number, mode_of(block), first, opaque, at, out)
}

// The text of a stored block, with its number, which counts row by row.
fn list_stored(head: Head, place: u32, block: [u8; 16], at: usize, out: &mut [u8]) -> usize
    requires { BlockAsked (known head) place at (length out.old) }
    ensures { Puts 40 out.old at (block_listed (known head) (number_at (known head) place) block) out.new result }
{
    list_block(head, number_at(head, place) as u32, block, at, out)
}

// The texts of the whole blocks among these bytes, the first stored at place `from`, to a place of the output; the place behind them.
// No text has more than 40 bytes.
fn list_blocks(head: Head, from: u32, blocks: &[u8], at: usize, out: &mut [u8]) -> usize
    requires { BlocksAsked (known head) from (length blocks.now) at (length out.old) }
    ensures { Puts (40 * (length blocks.now / 16)) out.old at (listed (known head) from blocks.now) out.new result }
{
    let count = blocks.len() / 16;
    let mut next = at;
    // What a round writes begins where the round before ended, so each takes the output from the one before.
    for k in 0..count {
        next = list_stored(head, from + k as u32, load(blocks, 16 * k), next, out);
    }
    next
}

fn at_head(reader: HeadReader) -> Machine
    ensures { machine_known result ≡ at_head (reader_known reader) }
{
    Machine {
        phase: Phase::Head,
        reader,
        from: 0,
    }
}

// The machine before it has taken anything.
pub fn start() -> Machine
    ensures { Starts (machine_known result) }
{
    at_head(sheet_head::reader::start())
}

// Before a block of the sheet, or behind its last.
fn in_blocks(reader: HeadReader, from: u32) -> Machine
    requires { WithinBlocks (known reader.head) from }
    ensures { machine_known result ≡ in_blocks (reader_known reader) from }
{
    if from == blocks_of(reader.head) {
        return Machine {
            phase: Phase::End,
            reader,
            from,
        };
    }
    Machine {
        phase: Phase::Blocks,
        reader,
        from,
    }
}

// At its end: the sheet was listed, or refused.
fn stopped(exact: bool) -> Machine
    ensures { machine_known result ≡ ended exact }
{
    let reader = sheet_head::reader::start();
    if exact {
        return Machine {
            phase: Phase::Listed,
            reader,
            from: 0,
        };
    }
    Machine {
        phase: Phase::Refused,
        reader,
        from: 0,
    }
}

fn next_at_head(reader: HeadReader, came: &[u8]) -> Machine
    requires { Going (reader_known reader) }
    ensures { machine_known result ≡ next_at_head (taken_of (reader_known reader) came.now) }
{
    match take_next(reader, came) {
        Ok(taken) => {
            if has_ended(taken) {
                return in_blocks(taken, 0);
            }
            at_head(taken)
        }
        Err(_) => stopped(false),
    }
}

// How many blocks the next run has: the rest of its row, or as many as the buffer holds. So no row is too long for it.
fn run_of(head: Head, from: u32) -> u32
    requires { InBlocks (known head) from }
    ensures { TellsRun (known head) from result }
{
    let columns = blocks_across(head.width);
    let left = columns - from % columns;
    if left < MOST_IN_RUN {
        left
    } else {
        MOST_IN_RUN
    }
}

fn next_in_blocks(reader: HeadReader, from: u32, got: usize) -> Machine
    requires { InBlocks (known reader.head) from }
    ensures { machine_known result ≡ next_in_blocks (reader_known reader) from got }
{
    let run = run_of(reader.head, from);
    if got != 16 * run as usize {
        return stopped(false);
    }
    in_blocks(reader, from + run)
}

// The next state, after what came.
pub fn next(machine: Machine, came: &[u8]) -> Machine
    requires { Ready (machine_known machine) }
    ensures { GoesOnReady (machine_known machine) came.now (machine_known result) }
{
    match machine.phase {
        Phase::Head => next_at_head(machine.reader, came),
        Phase::Blocks => next_in_blocks(machine.reader, machine.from, came.len()),
        Phase::End => stopped(came.len() == 0),
        Phase::Listed => stopped(true),
        Phase::Refused => stopped(false),
    }
}

// How many bytes the machine wants next: never more than those of a run, and none at its end.
pub fn wanted(machine: Machine) -> usize
    requires { Ready (machine_known machine) }
    ensures { WantsFew (machine_known machine) result }
{
    match machine.phase {
        Phase::Head => 1,
        Phase::Blocks => 16 * run_of(machine.reader.head, machine.from) as usize,
        Phase::End => 1,
        Phase::Listed => 0,
        Phase::Refused => 0,
    }
}

// `refused 10` to a place of the output, unless the block bytes are as many as needed.
fn refuse_unless(exact: bool, at: usize, out: &mut [u8]) -> usize
    requires { at + 40 ≤ length out.old }
    ensures { Spares (pick exact 40 0) 40 at result (Written out.old at (unless_exact exact) out.new result) }
{
    if exact {
        return at;
    }
    refused_text(number(Refusal::WrongBlockBytes), at, out)
}

// What is said of a head, once it has ended.
fn list_at_head(reader: HeadReader, came: &[u8], at: usize, out: &mut [u8]) -> usize
    requires { HeadAsked (reader_known reader) at (length out.old) }
    ensures { Spares (spare_of (next_at_head (taken_of (reader_known reader) came.now))) 80 at result
        (Written out.old at (text_at_head (taken_of (reader_known reader) came.now)) out.new result) }
{
    match take_next(reader, came) {
        Ok(taken) => {
            if has_ended(taken) {
                return sheet_text(taken.head.width, taken.head.height, at, out);
            }
            at
        }
        Err(refusal) => refused_text(number(refusal), at, out),
    }
}

// What is said of the bytes of a run that came.
fn list_run(head: Head, from: u32, came: &[u8], at: usize, out: &mut [u8]) -> usize
    requires { RunAsked (known head) from (length came.now) at (length out.old) }
    ensures { Spares (pick (eqb (length came.now) (16 * run_of (known head) from)) 40 0) (40 * (length came.now / 16) + 40) at result
        (Written out.old at (text_in_blocks (known head) from came.now) out.new result) }
{
    let texts = list_blocks(head, from, came, at, out);
    refuse_unless(came.len() == 16 * run_of(head, from) as usize, texts, out)
}

// What is said of what came, to a place of the output; the place behind it.
pub fn list(machine: Machine, came: &[u8], at: usize, out: &mut [u8]) -> usize
    requires { NextAsked (machine_known machine) (length came.now) at (length out.old) }
    ensures { Spares (spare_of (next_of (machine_known machine) came.now)) (40 * (length came.now / 16) + spare_of (machine_known machine)) at result
        (SaysNext (machine_known machine) came.now out.old at out.new result) }
{
    match machine.phase {
        Phase::Head => list_at_head(machine.reader, came, at, out),
        Phase::Blocks => list_run(machine.reader.head, machine.from, came, at, out),
        Phase::End => refuse_unless(came.len() == 0, at, out),
        Phase::Listed => at,
        Phase::Refused => at,
    }
}

// Where the next n bytes of a slice end that has so many, from a place on: fewer where it ends before.
fn end_of(at: usize, n: usize, many: usize) -> usize
    requires { at ≤ many }
    ensures { NextEnd at n many result }
{
    if n < many - at { at + n } else { many }
}

// The listing of a sheet that is there whole, to the start of the output: the machine fed with it as it asks. How long it is.
pub fn list_sheet(sheet: &[u8], out: &mut [u8]) -> usize
    requires { 40 * (length sheet.now / 16) + 80 ≤ length out.old }
    ensures { ListsSheet sheet.now out.old out.new result }
{
    let mut machine = start();
    let mut at: usize = 0;
    let mut said: usize = 0;
    // How many rounds there are isn't known before: the machine says at each how much it wants, and ends it by wanting nothing.
    while 0 < wanted(machine) {
        let end = end_of(at, wanted(machine), sheet.len());
        said = list(machine, &sheet[at..end], said, out);
        machine = next(machine, &sheet[at..end]);
        at = end;
    }
    said
}
