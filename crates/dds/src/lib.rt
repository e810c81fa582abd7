// DDS files with the DX10 extension, in and out: a file imported to a sheet, a sheet exported to a file, and how long the output of either
// has to be. Every call takes every input and says why it refuses one. Where the fields of the header stand, and what they have to be, is
// named here and nowhere else in the code.

#![tactic(auto)]

ghost use Rattle.std.specs.Prelude.{◌≡◌, ◌++◌, ◌+◌, ◌≤◌, drop, length, take};
ghost use Rattle.refusals.specs.Answers.{number_of};
ghost use Rattle.head_rules.specs.Answers.{head_answered, known};
ghost use Rattle.head_rules.specs.Heads.{Sized};
ghost use Rattle.laws.specs.Tables.{table};
ghost use Rattle.dds_rules.specs.Header.{bytes_in, format_of, format_says, header_number, is_texture, number_at};
ghost use Rattle.dds_rules.specs.Files.{file_length, import_head};
ghost use Rattle.dds_rules.specs.Promises.{ExportNeeds, Exports, ExportsNumbered, ImportNeeds, Imports};
ghost use Rattle.dds.specs.Filling.{Fills};

use head_rules::{ColourSpace, Form, Head};
use refusals::Refusal;
use sheet_head::colours::{colour_numbered, under};
use sheet_head::geometry::{blocks_of, whole_length};
use sheet_head::{read_of_form_with, read_whole_of_form, write_head};

// The bytes of a header, and the 37 numbers of four bytes that they are.
const HEADER: usize = 148;

const NUMBERS: usize = 37;

// The byte at which a field starts.
const MAGIC: usize = 0;

const HEADER_SIZE: usize = 4;

const HEIGHT: usize = 12;

const WIDTH: usize = 16;

const MIP_COUNT: usize = 28;

const FORMAT_SIZE: usize = 76;

const FORMAT_CODE: usize = 84;

const FORMAT: usize = 128;

const DIMENSION: usize = 132;

const MISC: usize = 136;

const ARRAY_SIZE: usize = 140;

// `DDS `, `DX10`, BC7 in linear colours and in sRGB, a texture of two dimensions.
const DDS: u32 = 0x20534444;

const DX10: u32 = 0x30315844;

const BC7: u32 = 98;

const BC7_SRGB: u32 = 99;

const TWO_DIMENSIONS: u32 = 3;

// The number whose four bytes start at a place.
fn number_at(s: &[u8], at: usize) -> u32
    requires { at + 4 ≤ length s.now }
    ensures { result ≡ number_at s.now at }
{
    u32::from_le_bytes([s[at], s[at + 1], s[at + 2], s[at + 3]])
}

// Whether a file is what import takes: one texture of two dimensions in BC7, no cube, one level at the most.
fn is_texture(dds: &[u8]) -> bool
    ensures { result ≡ is_texture dds.now }
{
    if dds.len() < HEADER {
        return false;
    }
    if number_at(dds, MAGIC) != DDS {
        return false;
    }
    if number_at(dds, HEADER_SIZE) != 124 {
        return false;
    }
    if number_at(dds, FORMAT_SIZE) != 32 {
        return false;
    }
    if number_at(dds, FORMAT_CODE) != DX10 {
        return false;
    }
    let format = number_at(dds, FORMAT);
    if format < BC7 {
        return false;
    }
    if format > BC7_SRGB {
        return false;
    }
    if number_at(dds, DIMENSION) != TWO_DIMENSIONS {
        return false;
    }
    if number_at(dds, ARRAY_SIZE) != 1 {
        return false;
    }
    if number_at(dds, MIP_COUNT) > 1 {
        return false;
    }
    if number_at(dds, MISC) / 4 % 2 != 0 {
        return false;
    }
    true
}

// The format that is written under a colour space, and the colour space that a format says.
fn format_of(colour_space: ColourSpace) -> u32
    ensures { result ≡ format_of colour_space }
{
    match colour_space {
        ColourSpace::Unspecified | ColourSpace::Linear => BC7,
        ColourSpace::Srgb => BC7_SRGB,
    }
}

fn format_says(format: u32) -> ColourSpace
    ensures { result ≡ format_says format }
{
    if format == BC7_SRGB {
        return ColourSpace::Srgb;
    }
    ColourSpace::Linear
}

// The bytes of a file with all blocks of a sheet.
fn file_length(head: Head) -> usize
    requires { Sized head.width head.height }
    ensures { result ≡ file_length (known head) }
{
    HEADER + 16 * blocks_of(head) as usize
}

// The head that a file makes, or the first refusal that applies: 15, 9, 10.
fn read_file(dds: &[u8]) -> Result<Head, Refusal>
    ensures { head_answered result ≡ import_head dds.now }
{
    if !is_texture(dds) {
        return Err(Refusal::NotABc7Texture);
    }
    let height = number_at(dds, HEIGHT);
    let width = number_at(dds, WIDTH);
    let colour_space = format_says(number_at(dds, FORMAT));
    let written = write_head(width, height)?;
    let head = Head {
        form: Form::Rows,
        width,
        height,
        start: u32::from(written.count),
        colour_space,
    };
    if dds.len() != file_length(head) {
        return Err(Refusal::WrongBlockBytes);
    }
    Ok(head)
}

// The 37 numbers of the header that export writes, in their order.
fn numbers_of(head: Head) -> [u32; NUMBERS]
    requires { Sized head.width head.height }
    ensures { result ≡ table 37 (header_number (known head)) }
{
    [
        DDS, // magic
        124, // the header's size
        0x81007, // its flags: caps, height, width, pixel format, linear size
        head.height, // height
        head.width, // width
        16 * blocks_of(head), // linear size
        0, // depth
        1, // mip count
        0, // reserved
        0, // reserved
        0, // reserved
        0, // reserved
        0, // reserved
        0, // reserved
        0, // reserved
        0, // reserved
        0, // reserved
        0, // reserved
        0, // reserved
        32, // the pixel format's size
        4, // its flags: a code
        DX10, // the code
        0, // bit count
        0, // red mask
        0, // green mask
        0, // blue mask
        0, // alpha mask
        0x1000, // caps: a texture
        0, // caps 2
        0, // caps 3
        0, // caps 4
        0, // reserved
        format_of(head.colour_space), // format
        TWO_DIMENSIONS, // dimension
        0, // misc
        1, // array size
        0, // misc 2
    ]
}

// Their bytes.
fn bytes_of(numbers: [u32; NUMBERS]) -> [u8; HEADER]
    ensures { result ≡ table 148 (bytes_in numbers) }
{
    let mut bytes = [0u8; HEADER];
    for (i, n) in numbers.iter().enumerate() {
        bytes[4 * i..4 * i + 4].copy_from_slice(&n.to_le_bytes());
    }
    bytes
}

// So many bytes of a head, and behind them all of a list from a place on: the whole output.
fn fill(head: &[u8], count: usize, from: &[u8], start: usize, out: &mut [u8])
    requires { Fills (length head.now) count (length from.now) start (length out.old) }
    ensures { out.new ≡ take count head.now ++ drop start from.now }
{
    out[..count].copy_from_slice(&head[..count]);
    out[count..].copy_from_slice(&from[start..]);
}

// A file as a sheet of form 1: its head, then the blocks as they stand. The head is answered too, with the colour space that form 1 has
// no room for. A refused call leaves the output as it was.
pub fn import_dds(dds: &[u8], out: &mut [u8]) -> Result<Head, Refusal>
    ensures { Imports dds.now out.old result out.new }
{
    let head = read_file(dds)?;
    if out.len() != whole_length(head) {
        return Err(Refusal::WrongOutputLength);
    }
    let written = sheet_head::bytes_of(head.width, head.height);
    fill(&written.bytes, head.start as usize, dds, HEADER, out);
    Ok(head)
}

// A sheet of form 1 as a file under a colour space: the header, then the blocks as they stand. A refused call leaves the output as it was.
pub fn export_dds(sheet: &[u8], colour_space: ColourSpace, out: &mut [u8]) -> Result<(), Refusal>
    ensures { Exports sheet.now colour_space out.old result out.new }
{
    let head = read_whole_of_form(Form::Rows, sheet)?;
    if out.len() != file_length(head) {
        return Err(Refusal::WrongOutputLength);
    }
    let header = bytes_of(numbers_of(under(colour_space, head)));
    fill(&header, HEADER, sheet, head.start as usize, out);
    Ok(())
}

// The same, for who has the colour space as a number. One that there is not is refused behind 7 and 8 of the sheet's head, and before 9.
pub fn export_numbered(sheet: &[u8], number: u32, out: &mut [u8]) -> Result<(), Refusal>
    ensures { ExportsNumbered sheet.now number out.old result out.new }
{
    match colour_numbered(number) {
        Ok(colour_space) => export_dds(sheet, colour_space, out),
        Err(refusal) => read_of_form_with(Form::Rows, Err(refusal), sheet).and(Ok(())),
    }
}

// The length of the output that importing needs.
pub fn import_length(dds: &[u8]) -> Result<u32, Refusal>
    ensures { ImportNeeds dds.now result }
{
    Ok(whole_length(read_file(dds)?) as u32)
}

// The length of the output that exporting needs.
pub fn export_length(sheet: &[u8]) -> Result<u32, Refusal>
    ensures { ExportNeeds sheet.now result }
{
    Ok(file_length(read_whole_of_form(Form::Rows, sheet)?) as u32)
}
