// The C face: the public calls of blocks and sheets, for the consoles' display code. A refused call changes nothing that it
// was lent. What a call promises has one name, in specs/Promises. The crate rinchovek_c exports these functions to C under the same
// names; include/rinchovek.h declares them and says what a C caller has to know.

#![tactic(auto)]

ghost use Rattle.std.specs.Prelude.{◌≡◌};
ghost use Rattle.rinchovek_rules.specs.Promises.{DecodesBc6h};
ghost use Rattle.rinchovek_rules.specs.Promises.{Decodes, Packs, ReadsLine, Replaces, Unpacks, Versions, DecodesRow, ReadsHead, ReplacesIn};
ghost use Rattle.rinchovek_rules.specs.Promises.{FindsExact, FindsNearest, ReadsPixel, TellsOpaque, WritesHead};
ghost use Rattle.rinchovek_rules.specs.Promises.{CountsSheet, ReplacesBlockCounted, ReplacesLineCounted, counts_of_ten, ten_of};
ghost use Rattle.rinchovek_rules.specs.Promises.{MovesToRows, MovesToTiles, OpensSheet, ReadsBlock, ShowsRow, StatesColour};
ghost use Rattle.rinchovek_rules.specs.Promises.{ExportNeeds, ExportsColour, ExportsDds, ImportNeeds, ImportsColour, ImportsDds, ReadsColourHead};
ghost use Rattle.rinchovek_rules.specs.Promises.{FindsChannel, FloatsPixel, FloatsRow};

use bc6h::decode_into;
use bc7::decode_bc7_block;
use bc7_places::places::PLACES;
use bc7_plain::pixel_of;
use count_rules::Counts;
use counts::{count_sheet, replace_block_counted, replace_line_counted};
use dds::{export_dds, export_length, export_numbered, import_dds, import_length};
use floats::{channel_of_bits, pixel_floats, row_floats};
use head_rules::{ColourSpace, Form};
use line::{read_line, replace_line};
use moves::{state_colour, to_rows, to_tiles};
use nearest::{exact_index, nearest_index};
use opacity::is_opaque;
use record::unpack;
use record_bytes::{pack_bytes, record_bytes, replacement_bytes, replacement_of};
use refusal_numbers::{number, number_or_0};
use sheet::{block_in_sheet, decode_row, decode_sheet_row, replace_in_sheet};
use sheet_head::colours::number_of;
use sheet_head::geometry::{blocks_across, blocks_of};
use sheet_head::{number_of_form, read_head, read_of_form, write_head};

// Which version of the calls and their answers this is: 10000 times the major number, 100 times the minor one, and the patch. The
// header has the same three.
const VERSION: u32 = 11100;

pub fn rinchovek_version() -> u32
    ensures { Versions result }
{
    VERSION
}

// The sixteen pixels of a block, red green blue alpha each.
pub fn rinchovek_bc7_decode_block(block: &[u8; 16], out: &mut [[u8; 4]; 16])
    ensures { Decodes block.now out.new }
{
    *out = decode_bc7_block(*block);
}

// The sixteen pixels of a BC6H block, red green blue each, as the bits of half floats. Any number but 0 asks for the signed format: a `bool` from C
// would ask something of the caller.
pub fn rinchovek_bc6h_decode_block(block: &[u8; 16], is_signed: u32, halves: &mut [[u16; 3]; 16])
    ensures { DecodesBc6h block.now is_signed halves.new }
{
    decode_into(block, is_signed != 0, halves);
}

// A block taken apart into the 66 bytes of its record.
pub fn rinchovek_bc7_unpack(block: &[u8; 16], bytes: &mut [u8; PLACES]) -> u32
    ensures { Unpacks block.now bytes.old result bytes.new }
{
    match unpack(*block) {
        Ok(record) => {
            *bytes = record_bytes(record);
            0
        }
        Err(refusal) => number(refusal) as u32,
    }
}

// The block of a record that is given in 66 bytes.
pub fn rinchovek_bc7_pack(bytes: &[u8; PLACES], block: &mut [u8; 16]) -> u32
    ensures { Packs bytes.now block.old result block.new }
{
    match pack_bytes(*bytes) {
        Ok(packed) => {
            *block = packed;
            0
        }
        Err(refusal) => number(refusal) as u32,
    }
}

// A line of a block as it stands, in the 26 bytes of a replacement, and how many bits each of them has.
pub fn rinchovek_bc7_read_line(
    block: &[u8; 16],
    line: u32,
    replacement: &mut [u8; 26],
    widths: &mut [u8; 26],
) -> u32
    ensures { ReadsLine block.now line (replacement.old, widths.old) result
        (replacement.new, widths.new) }
{
    match read_line(*block, line) {
        Ok(read) => {
            *replacement = replacement_bytes(read.line);
            *widths = replacement_bytes(read.widths);
            0
        }
        Err(refusal) => number(refusal) as u32,
    }
}

// A line of a block replaced in its place, by a replacement of 26 bytes.
pub fn rinchovek_bc7_replace_line(block: &mut [u8; 16], line: u32, replacement: &[u8; 26]) -> u32
    ensures { Replaces block.old line replacement.now result block.new }
{
    match replace_line(*block, line, replacement_of(*replacement)) {
        Ok(after) => {
            *block = after;
            0
        }
        Err(refusal) => number(refusal) as u32,
    }
}

// The index of a line whose colour at a pixel is nearest to the wanted one.
pub fn rinchovek_bc7_nearest_index(
    block: &[u8; 16],
    line: u32,
    pixel: u32,
    wanted: &[u8; 4],
    index: &mut u32,
) -> u32
    ensures { FindsNearest block.now line pixel wanted.now index.old result index.new }
{
    match nearest_index(*block, line, pixel, *wanted) {
        Ok(nearest) => {
            *index = nearest as u32;
            0
        }
        Err(refusal) => number(refusal) as u32,
    }
}

// The index of a line that gives a pixel the wanted colour exactly.
pub fn rinchovek_bc7_exact_index(
    block: &[u8; 16],
    line: u32,
    pixel: u32,
    wanted: &[u8; 4],
    index: &mut u32,
) -> u32
    ensures { FindsExact block.now line pixel wanted.now index.old result index.new }
{
    match exact_index(*block, line, pixel, *wanted) {
        Ok(hit) => {
            *index = hit as u32;
            0
        }
        Err(refusal) => number(refusal) as u32,
    }
}

// Whether a block is opaque of which the first so many columns and rows are shown.
pub fn rinchovek_bc7_is_opaque(block: &[u8; 16], columns: u32, rows: u32) -> u32
    ensures { TellsOpaque block.now columns rows result }
{
    if is_opaque(*block, columns, rows) {
        return 1;
    }
    0
}

// One pixel of a block, red green blue alpha, by the reader that shares no code with the decoder.
pub fn rinchovek_bc7_pixel(block: &[u8; 16], pixel: u32, rgba: &mut [u8; 4]) -> u32
    ensures { ReadsPixel block.now pixel rgba.old result rgba.new }
{
    match pixel_of(*block, pixel) {
        Ok(channels) => {
            *rgba = channels;
            0
        }
        Err(refusal) => number(refusal) as u32,
    }
}

// The head of a sheet of either form in eight numbers: width, height, the place of the first block, the numbers of the colour space and
// of the form, and how many columns, rows and blocks there are.
pub fn rinchovek_sheet_open(sheet: &[u8], numbers: &mut [u32; 8]) -> u32
    ensures { OpensSheet sheet.now numbers.old result numbers.new }
{
    match read_head(sheet) {
        Ok(read) => {
            *numbers = [
                read.width,
                read.height,
                read.start,
                number_of(read.colour_space),
                number_of_form(read.form),
                blocks_across(read.width),
                blocks_across(read.height),
                blocks_of(read),
            ];
            0
        }
        Err(refusal) => number(refusal) as u32,
    }
}

// Width, height and the place of the first block, from the bytes of a sheet of form 1. Three numbers don't say the form, so that who
// gets no more of a sheet of form 2 would show tiles as rows: 8.
pub fn rinchovek_sheet_read_head(sheet: &[u8], head: &mut [u32; 3]) -> u32
    ensures { ReadsHead sheet.now head.old result head.new }
{
    match read_of_form(Form::Rows, sheet) {
        Ok(read) => {
            *head = [read.width, read.height, read.start];
            0
        }
        Err(refusal) => number(refusal) as u32,
    }
}

// The same, and the number of the colour space, which is 0 for each: form 1 has no room for one.
pub fn rinchovek_sheet_read_colour_head(sheet: &[u8], head: &mut [u32; 4]) -> u32
    ensures { ReadsColourHead sheet.now head.old result head.new }
{
    match read_of_form(Form::Rows, sheet) {
        Ok(read) => {
            *head = [
                read.width,
                read.height,
                read.start,
                number_of(read.colour_space),
            ];
            0
        }
        Err(refusal) => number(refusal) as u32,
    }
}

// The bytes of a head, zeros behind, and how many of the seven they are.
pub fn rinchovek_sheet_write_head(
    width: u32,
    height: u32,
    head: &mut [u8; 7],
    count: &mut u32,
) -> u32
    ensures { WritesHead width height (head.old, count.old) result (head.new, count.new) }
{
    match write_head(width, height) {
        Ok(written) => {
            let bytes = written.bytes;
            *head = bytes;
            *count = written.count as u32;
            0
        }
        Err(refusal) => number(refusal) as u32,
    }
}

// One row of blocks as scanlines, cut at the edges of the picture.
pub fn rinchovek_sheet_decode_row(
    width: u32,
    height: u32,
    row: u32,
    blocks: &[u8],
    out: &mut [u8],
) -> u32
    ensures { DecodesRow width height row blocks.now out.old result out.new }
{
    number_or_0(decode_row(width, height, row, blocks, out)) as u32
}

// One row of blocks of a whole sheet, of either form, as scanlines.
pub fn rinchovek_sheet_show_row(sheet: &[u8], row: u32, out: &mut [u8]) -> u32
    ensures { ShowsRow sheet.now row out.old result out.new }
{
    number_or_0(decode_sheet_row(sheet, row, out)) as u32
}

// A block of a sheet of either form, by its number.
pub fn rinchovek_sheet_block(sheet: &[u8], block: u32, bytes: &mut [u8; 16]) -> u32
    ensures { ReadsBlock sheet.now block bytes.old result bytes.new }
{
    match block_in_sheet(sheet, block) {
        Ok(stored) => {
            *bytes = stored;
            0
        }
        Err(refusal) => number(refusal) as u32,
    }
}

// A sheet of form 1 as one of form 2, and one of form 2 as one of form 1.
pub fn rinchovek_sheet_to_tiles(sheet: &[u8], out: &mut [u8]) -> u32
    ensures { MovesToTiles sheet.now out.old result out.new }
{
    number_or_0(to_tiles(sheet, out)) as u32
}

pub fn rinchovek_sheet_to_rows(sheet: &[u8], out: &mut [u8]) -> u32
    ensures { MovesToRows sheet.now out.old result out.new }
{
    number_or_0(to_rows(sheet, out)) as u32
}

// The colour space of a sheet of form 2, stated by its number: one byte of the head, and no other.
pub fn rinchovek_sheet_state_colour(sheet: &mut [u8], colour_space: u32) -> u32
    ensures { StatesColour sheet.old colour_space result sheet.new }
{
    number_or_0(state_colour(sheet, colour_space)) as u32
}

// A line of one block replaced in a sheet; no byte of another block changes.
pub fn rinchovek_sheet_replace_line(
    sheet: &mut [u8],
    block: u32,
    line: u32,
    replacement: &[u8; 26],
) -> u32
    ensures { ReplacesIn sheet.old block line replacement.now result sheet.new }
{
    number_or_0(replace_in_sheet(sheet, block, line, replacement_of(*replacement))) as u32
}

// A DDS file as a sheet.
pub fn rinchovek_dds_import(dds: &[u8], sheet: &mut [u8]) -> u32
    ensures { ImportsDds dds.now sheet.old result sheet.new }
{
    match import_dds(dds, sheet) {
        Ok(_) => 0,
        Err(refusal) => number(refusal) as u32,
    }
}

// A DDS file as a sheet, and beside it the head with the colour space that the format says.
pub fn rinchovek_dds_import_colour(dds: &[u8], sheet: &mut [u8], head: &mut [u32; 4]) -> u32
    ensures { ImportsColour dds.now (sheet.old, head.old) result (sheet.new, head.new) }
{
    match import_dds(dds, sheet) {
        Ok(made) => {
            *head = [
                made.width,
                made.height,
                made.start,
                number_of(made.colour_space),
            ];
            0
        }
        Err(refusal) => number(refusal) as u32,
    }
}

// A sheet as a DDS file that says nothing of sRGB.
pub fn rinchovek_dds_export(sheet: &[u8], dds: &mut [u8]) -> u32
    ensures { ExportsDds sheet.now dds.old result dds.new }
{
    number_or_0(export_dds(sheet, ColourSpace::Unspecified, dds)) as u32
}

// A sheet as a DDS file, under the number of a colour space.
pub fn rinchovek_dds_export_colour(sheet: &[u8], colour_space: u32, dds: &mut [u8]) -> u32
    ensures { ExportsColour sheet.now colour_space dds.old result dds.new }
{
    number_or_0(export_numbered(sheet, colour_space, dds)) as u32
}

// The length of the sheet that a DDS file makes.
pub fn rinchovek_dds_import_length(dds: &[u8], length: &mut u32) -> u32
    ensures { ImportNeeds dds.now length.old result length.new }
{
    match import_length(dds) {
        Ok(needed) => {
            *length = needed;
            0
        }
        Err(refusal) => number(refusal) as u32,
    }
}

// The length of the DDS file that a sheet makes.
pub fn rinchovek_dds_export_length(sheet: &[u8], length: &mut u32) -> u32
    ensures { ExportNeeds sheet.now length.old result length.new }
{
    match export_length(sheet) {
        Ok(needed) => {
            *length = needed;
            0
        }
        Err(refusal) => number(refusal) as u32,
    }
}

// Counts as C has them, in ten numbers: modes 0 to 8, and the opaque blocks.
fn ten_of(counts: Counts) -> [u32; 10]
    ensures { result ≡ ten_of counts }
{
    let m = counts.modes;
    [
        m[0],
        m[1],
        m[2],
        m[3],
        m[4],
        m[5],
        m[6],
        m[7],
        m[8],
        counts.opaque,
    ]
}

fn counts_of(c: [u32; 10]) -> Counts
    ensures { result ≡ counts_of_ten c }
{
    Counts {
        modes: [c[0], c[1], c[2], c[3], c[4], c[5], c[6], c[7], c[8]],
        opaque: c[9],
    }
}

// The counts of a sheet of either form: how many of its blocks have mode 0, 1, .., 8, and how many are opaque.
pub fn rinchovek_sheet_count(sheet: &[u8], counts: &mut [u32; 10]) -> u32
    ensures { CountsSheet sheet.now counts.old result counts.new }
{
    match count_sheet(sheet) {
        Ok(found) => {
            *counts = ten_of(found);
            0
        }
        Err(refusal) => number(refusal) as u32,
    }
}

// A line of one block replaced in a sheet, and with it the counts beside the sheet.
pub fn rinchovek_sheet_replace_line_counted(
    sheet: &mut [u8],
    counts: &mut [u32; 10],
    block: u32,
    line: u32,
    replacement: &[u8; 26],
) -> u32
    ensures { ReplacesLineCounted (sheet.old, counts.old) block line replacement.now result
        (sheet.new, counts.new) }
{
    let came = counts_of(*counts);
    let new = replacement_of(*replacement);
    match replace_line_counted(sheet, came, block, line, new) {
        Ok(left) => {
            *counts = ten_of(left);
            0
        }
        Err(refusal) => number(refusal) as u32,
    }
}

// A whole block of a sheet replaced by any sixteen bytes, and with it the counts beside the sheet.
pub fn rinchovek_sheet_replace_block_counted(
    sheet: &mut [u8],
    counts: &mut [u32; 10],
    block: u32,
    bytes: &[u8; 16],
) -> u32
    ensures { ReplacesBlockCounted (sheet.old, counts.old) block bytes.now result
        (sheet.new, counts.new) }
{
    let came = counts_of(*counts);
    match replace_block_counted(sheet, came, block, *bytes) {
        Ok(left) => {
            *counts = ten_of(left);
            0
        }
        Err(refusal) => number(refusal) as u32,
    }
}

// A pixel as four floats, red green blue alpha.
pub fn rinchovek_pixel_floats(pixel: &[u8; 4], floats: &mut [f32; 4])
    ensures { FloatsPixel pixel.now floats.new }
{
    let made = pixel_floats(*pixel);
    *floats = [made.red, made.green, made.blue, made.alpha];
}

// The channel whose float has these bits.
pub fn rinchovek_float_channel(bits: u32, channel: &mut u32) -> u32
    ensures { FindsChannel bits channel.old result channel.new }
{
    match channel_of_bits(bits) {
        Ok(found) => {
            *channel = found as u32;
            0
        }
        Err(refusal) => number(refusal) as u32,
    }
}

// The channels of a row as floats, one for each byte.
pub fn rinchovek_row_floats(pixels: &[u8], floats: &mut [f32]) -> u32
    ensures { FloatsRow pixels.now floats.old result floats.new }
{
    number_or_0(row_floats(pixels, floats)) as u32
}
