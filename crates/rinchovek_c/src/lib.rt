// The exports of the C face: each function of the crate rinchovek under its own name and with its contract, word for word, for C. A crate is a
// library or a static library, and the program replay calls rinchovek too. include/rinchovek.h declares these functions and says what a C caller has to
// know; `processors/make --module` writes the archive, as librinchovek.a.

#![tactic(auto)]

ghost use Rattle.rinchovek_rules.specs.Promises.{DecodesBc6h};
ghost use Rattle.rinchovek_rules.specs.Promises.{Decodes, Packs, ReadsLine, Replaces, Unpacks, Versions, DecodesRow, ReadsHead, ReplacesIn};
ghost use Rattle.rinchovek_rules.specs.Promises.{FindsExact, FindsNearest, ReadsPixel, TellsOpaque, WritesHead};
ghost use Rattle.rinchovek_rules.specs.Promises.{CountsSheet, ReplacesBlockCounted, ReplacesLineCounted};
ghost use Rattle.rinchovek_rules.specs.Promises.{MovesToRows, MovesToTiles, OpensSheet, ReadsBlock, ShowsRow, StatesColour};
ghost use Rattle.rinchovek_rules.specs.Promises.{ExportNeeds, ExportsColour, ExportsDds, ImportNeeds, ImportsColour, ImportsDds, ReadsColourHead};
ghost use Rattle.rinchovek_rules.specs.Promises.{FindsChannel, FloatsPixel, FloatsRow};

use bc7_places::places::PLACES;

#[unsafe(no_mangle)]
pub extern "C" fn rinchovek_version() -> u32
    ensures { Versions result }
{
    rinchovek::rinchovek_version()
}

#[unsafe(no_mangle)]
pub extern "C" fn rinchovek_bc7_decode_block(block: &[u8; 16], out: &mut [[u8; 4]; 16])
    ensures { Decodes block.now out.new }
{
    rinchovek::rinchovek_bc7_decode_block(block, out);
}

#[unsafe(no_mangle)]
pub extern "C" fn rinchovek_bc6h_decode_block(
    block: &[u8; 16],
    is_signed: u32,
    halves: &mut [[u16; 3]; 16],
)
    ensures { DecodesBc6h block.now is_signed halves.new }
{
    rinchovek::rinchovek_bc6h_decode_block(block, is_signed, halves);
}

#[unsafe(no_mangle)]
pub extern "C" fn rinchovek_bc7_unpack(block: &[u8; 16], bytes: &mut [u8; PLACES]) -> u32
    ensures { Unpacks block.now bytes.old result bytes.new }
{
    rinchovek::rinchovek_bc7_unpack(block, bytes)
}

#[unsafe(no_mangle)]
pub extern "C" fn rinchovek_bc7_pack(bytes: &[u8; PLACES], block: &mut [u8; 16]) -> u32
    ensures { Packs bytes.now block.old result block.new }
{
    rinchovek::rinchovek_bc7_pack(bytes, block)
}

#[unsafe(no_mangle)]
pub extern "C" fn rinchovek_bc7_read_line(
    block: &[u8; 16],
    line: u32,
    replacement: &mut [u8; 26],
    widths: &mut [u8; 26],
) -> u32
    ensures { ReadsLine block.now line (replacement.old, widths.old) result
        (replacement.new, widths.new) }
{
    rinchovek::rinchovek_bc7_read_line(block, line, replacement, widths)
}

#[unsafe(no_mangle)]
pub extern "C" fn rinchovek_bc7_replace_line(
    block: &mut [u8; 16],
    line: u32,
    replacement: &[u8; 26],
) -> u32
    ensures { Replaces block.old line replacement.now result block.new }
{
    rinchovek::rinchovek_bc7_replace_line(block, line, replacement)
}

#[unsafe(no_mangle)]
pub extern "C" fn rinchovek_bc7_nearest_index(
    block: &[u8; 16],
    line: u32,
    pixel: u32,
    wanted: &[u8; 4],
    index: &mut u32,
) -> u32
    ensures { FindsNearest block.now line pixel wanted.now index.old result index.new }
{
    rinchovek::rinchovek_bc7_nearest_index(block, line, pixel, wanted, index)
}

#[unsafe(no_mangle)]
pub extern "C" fn rinchovek_bc7_exact_index(
    block: &[u8; 16],
    line: u32,
    pixel: u32,
    wanted: &[u8; 4],
    index: &mut u32,
) -> u32
    ensures { FindsExact block.now line pixel wanted.now index.old result index.new }
{
    rinchovek::rinchovek_bc7_exact_index(block, line, pixel, wanted, index)
}

#[unsafe(no_mangle)]
pub extern "C" fn rinchovek_bc7_is_opaque(block: &[u8; 16], columns: u32, rows: u32) -> u32
    ensures { TellsOpaque block.now columns rows result }
{
    rinchovek::rinchovek_bc7_is_opaque(block, columns, rows)
}

#[unsafe(no_mangle)]
pub extern "C" fn rinchovek_bc7_pixel(block: &[u8; 16], pixel: u32, rgba: &mut [u8; 4]) -> u32
    ensures { ReadsPixel block.now pixel rgba.old result rgba.new }
{
    rinchovek::rinchovek_bc7_pixel(block, pixel, rgba)
}

#[unsafe(no_mangle)]
pub extern "C" fn rinchovek_sheet_open(sheet: &[u8], numbers: &mut [u32; 8]) -> u32
    ensures { OpensSheet sheet.now numbers.old result numbers.new }
{
    rinchovek::rinchovek_sheet_open(sheet, numbers)
}

#[unsafe(no_mangle)]
pub extern "C" fn rinchovek_sheet_read_head(sheet: &[u8], head: &mut [u32; 3]) -> u32
    ensures { ReadsHead sheet.now head.old result head.new }
{
    rinchovek::rinchovek_sheet_read_head(sheet, head)
}

#[unsafe(no_mangle)]
pub extern "C" fn rinchovek_sheet_read_colour_head(sheet: &[u8], head: &mut [u32; 4]) -> u32
    ensures { ReadsColourHead sheet.now head.old result head.new }
{
    rinchovek::rinchovek_sheet_read_colour_head(sheet, head)
}

#[unsafe(no_mangle)]
pub extern "C" fn rinchovek_sheet_write_head(
    width: u32,
    height: u32,
    head: &mut [u8; 7],
    count: &mut u32,
) -> u32
    ensures { WritesHead width height (head.old, count.old) result (head.new, count.new) }
{
    rinchovek::rinchovek_sheet_write_head(width, height, head, count)
}

#[unsafe(no_mangle)]
pub extern "C" fn rinchovek_sheet_decode_row(
    width: u32,
    height: u32,
    row: u32,
    blocks: &[u8],
    out: &mut [u8],
) -> u32
    ensures { DecodesRow width height row blocks.now out.old result out.new }
{
    rinchovek::rinchovek_sheet_decode_row(width, height, row, blocks, out)
}

#[unsafe(no_mangle)]
pub extern "C" fn rinchovek_sheet_show_row(sheet: &[u8], row: u32, out: &mut [u8]) -> u32
    ensures { ShowsRow sheet.now row out.old result out.new }
{
    rinchovek::rinchovek_sheet_show_row(sheet, row, out)
}

#[unsafe(no_mangle)]
pub extern "C" fn rinchovek_sheet_block(sheet: &[u8], block: u32, bytes: &mut [u8; 16]) -> u32
    ensures { ReadsBlock sheet.now block bytes.old result bytes.new }
{
    rinchovek::rinchovek_sheet_block(sheet, block, bytes)
}

#[unsafe(no_mangle)]
pub extern "C" fn rinchovek_sheet_to_tiles(sheet: &[u8], out: &mut [u8]) -> u32
    ensures { MovesToTiles sheet.now out.old result out.new }
{
    rinchovek::rinchovek_sheet_to_tiles(sheet, out)
}

#[unsafe(no_mangle)]
pub extern "C" fn rinchovek_sheet_to_rows(sheet: &[u8], out: &mut [u8]) -> u32
    ensures { MovesToRows sheet.now out.old result out.new }
{
    rinchovek::rinchovek_sheet_to_rows(sheet, out)
}

#[unsafe(no_mangle)]
pub extern "C" fn rinchovek_sheet_state_colour(sheet: &mut [u8], colour_space: u32) -> u32
    ensures { StatesColour sheet.old colour_space result sheet.new }
{
    rinchovek::rinchovek_sheet_state_colour(sheet, colour_space)
}

#[unsafe(no_mangle)]
pub extern "C" fn rinchovek_sheet_replace_line(
    sheet: &mut [u8],
    block: u32,
    line: u32,
    replacement: &[u8; 26],
) -> u32
    ensures { ReplacesIn sheet.old block line replacement.now result sheet.new }
{
    rinchovek::rinchovek_sheet_replace_line(sheet, block, line, replacement)
}

#[unsafe(no_mangle)]
pub extern "C" fn rinchovek_dds_import(dds: &[u8], sheet: &mut [u8]) -> u32
    ensures { ImportsDds dds.now sheet.old result sheet.new }
{
    rinchovek::rinchovek_dds_import(dds, sheet)
}

#[unsafe(no_mangle)]
pub extern "C" fn rinchovek_dds_import_colour(
    dds: &[u8],
    sheet: &mut [u8],
    head: &mut [u32; 4],
) -> u32
    ensures { ImportsColour dds.now (sheet.old, head.old) result (sheet.new, head.new) }
{
    rinchovek::rinchovek_dds_import_colour(dds, sheet, head)
}

#[unsafe(no_mangle)]
pub extern "C" fn rinchovek_dds_export(sheet: &[u8], dds: &mut [u8]) -> u32
    ensures { ExportsDds sheet.now dds.old result dds.new }
{
    rinchovek::rinchovek_dds_export(sheet, dds)
}

#[unsafe(no_mangle)]
pub extern "C" fn rinchovek_dds_export_colour(
    sheet: &[u8],
    colour_space: u32,
    dds: &mut [u8],
) -> u32
    ensures { ExportsColour sheet.now colour_space dds.old result dds.new }
{
    rinchovek::rinchovek_dds_export_colour(sheet, colour_space, dds)
}

#[unsafe(no_mangle)]
pub extern "C" fn rinchovek_dds_import_length(dds: &[u8], length: &mut u32) -> u32
    ensures { ImportNeeds dds.now length.old result length.new }
{
    rinchovek::rinchovek_dds_import_length(dds, length)
}

#[unsafe(no_mangle)]
pub extern "C" fn rinchovek_dds_export_length(sheet: &[u8], length: &mut u32) -> u32
    ensures { ExportNeeds sheet.now length.old result length.new }
{
    rinchovek::rinchovek_dds_export_length(sheet, length)
}

#[unsafe(no_mangle)]
pub extern "C" fn rinchovek_sheet_count(sheet: &[u8], counts: &mut [u32; 10]) -> u32
    ensures { CountsSheet sheet.now counts.old result counts.new }
{
    rinchovek::rinchovek_sheet_count(sheet, counts)
}

#[unsafe(no_mangle)]
pub extern "C" fn rinchovek_sheet_replace_line_counted(
    sheet: &mut [u8],
    counts: &mut [u32; 10],
    block: u32,
    line: u32,
    replacement: &[u8; 26],
) -> u32
    ensures { ReplacesLineCounted (sheet.old, counts.old) block line replacement.now result
        (sheet.new, counts.new) }
{
    rinchovek::rinchovek_sheet_replace_line_counted(sheet, counts, block, line, replacement)
}

#[unsafe(no_mangle)]
pub extern "C" fn rinchovek_sheet_replace_block_counted(
    sheet: &mut [u8],
    counts: &mut [u32; 10],
    block: u32,
    bytes: &[u8; 16],
) -> u32
    ensures { ReplacesBlockCounted (sheet.old, counts.old) block bytes.now result
        (sheet.new, counts.new) }
{
    rinchovek::rinchovek_sheet_replace_block_counted(sheet, counts, block, bytes)
}

#[unsafe(no_mangle)]
pub extern "C" fn rinchovek_pixel_floats(pixel: &[u8; 4], floats: &mut [f32; 4])
    ensures { FloatsPixel pixel.now floats.new }
{
    rinchovek::rinchovek_pixel_floats(pixel, floats);
}

#[unsafe(no_mangle)]
pub extern "C" fn rinchovek_float_channel(bits: u32, channel: &mut u32) -> u32
    ensures { FindsChannel bits channel.old result channel.new }
{
    rinchovek::rinchovek_float_channel(bits, channel)
}

#[unsafe(no_mangle)]
pub extern "C" fn rinchovek_row_floats(pixels: &[u8], floats: &mut [f32]) -> u32
    ensures { FloatsRow pixels.now floats.old result floats.new }
{
    rinchovek::rinchovek_row_floats(pixels, floats)
}
