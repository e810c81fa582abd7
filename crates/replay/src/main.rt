// The test program: calls in on standard input, their answers out on standard output, until the input ends. A letter names
// the call; docs/REPLAY.md has the bytes of each. A call that C has is made through the function for C, so that what is replayed
// is what is shipped; the listing goes through its machine. Here only lengths, kinds, signs and colour spaces that end the run are looked at.
// An answer that can't be written ends the run with that error.

#![tactic(auto)]

ghost use Rattle.std.specs.Prelude.{◌≡◌, ◌+◌, ◌*◌, ◌≤◌, length, IfOk};

use bc7_places::places::PLACES;
use bits::stream::{BitStream, Read, ShortRead};
use listing::list_sheet;
use rinchovek::{
    rinchovek_bc6h_decode_block, rinchovek_bc7_decode_block, rinchovek_bc7_exact_index,
    rinchovek_bc7_is_opaque, rinchovek_bc7_nearest_index, rinchovek_bc7_pack, rinchovek_bc7_pixel,
    rinchovek_bc7_read_line, rinchovek_bc7_replace_line, rinchovek_bc7_unpack,
    rinchovek_dds_export, rinchovek_dds_export_colour, rinchovek_dds_export_length,
    rinchovek_dds_import, rinchovek_dds_import_colour, rinchovek_dds_import_length,
    rinchovek_float_channel, rinchovek_pixel_floats, rinchovek_row_floats, rinchovek_sheet_block,
    rinchovek_sheet_count, rinchovek_sheet_decode_row, rinchovek_sheet_open,
    rinchovek_sheet_replace_block_counted, rinchovek_sheet_replace_line,
    rinchovek_sheet_replace_line_counted, rinchovek_sheet_show_row, rinchovek_sheet_state_colour,
    rinchovek_sheet_to_rows, rinchovek_sheet_to_tiles, rinchovek_sheet_write_head,
};
use std::array::from_fn;
use std::io;

// The longest input or output that a call may name.
const MOST: usize = 65536;

// Why a run ends: the input does, or asks for what there is not; or an answer can't be written.
#[derive(Drop)]
enum Ended {
    Input,
    Output(io::Error),
}

impl From<io::Error> for Ended {
    fn from(e: io::Error) -> Ended {
        Ended::Output(e)
    }
}

// The input's next bytes, as many as the slice has.
fn fill(from: &mut impl io::Read, bytes: &mut [u8]) -> Result<(), Ended> {
    from.read_exact(bytes).map_err(|_| Ended::Input)
}

fn bytes<const N: usize>(from: &mut impl io::Read) -> Result<[u8; N], Ended> {
    let mut taken = [0u8; N];
    fill(from, &mut taken)?;
    Ok(taken)
}

fn byte(from: &mut impl io::Read) -> Result<u8, Ended> {
    let taken: [u8; 1] = bytes(from)?;
    Ok(taken[0])
}

fn number(from: &mut impl io::Read) -> Result<u32, Ended> {
    Ok(u32::from_le_bytes(bytes(from)?))
}

// Numbers that stand side by side, by one read.
fn numbers<const N: usize>(from: &mut impl io::Read) -> Result<[u32; N], Ended>
    requires { N ≤ 10 }
{
    let mut taken = [0u8; 40];
    fill(from, &mut taken[..4 * N])?;
    Ok(from_fn(|i| {
        let at = 4 * i;
        u32::from_le_bytes([taken[at], taken[at + 1], taken[at + 2], taken[at + 3]])
    }))
}

fn write_u32(to: &mut impl io::Write, n: u32) -> io::Result<()> {
    to.write_all(&n.to_le_bytes())
}

fn write_numbers(to: &mut impl io::Write, numbers: &[u32]) -> io::Result<()> {
    for &n in numbers {
        write_u32(to, n)?;
    }
    Ok(())
}

// A refusal, an index, a count or a yes is one byte; a number that needs more, which no call gives, is told from all that are.
fn write_small(to: &mut impl io::Write, n: u32) -> io::Result<()> {
    to.write_all(&[n.min(255) as u8])
}

fn decode_call(from: &mut impl io::Read, to: &mut impl io::Write) -> Result<(), Ended> {
    let block = bytes(from)?;
    let mut pixels = [[0u8; 4]; 16];
    rinchovek_bc7_decode_block(&block, &mut pixels);
    let flat: [u8; 64] = from_fn(|i| pixels[i / 4][i % 4]);
    to.write_all(&flat)?;
    Ok(())
}

// Two bytes for each half, the low byte first.
fn decode_bc6h_call(from: &mut impl io::Read, to: &mut impl io::Write) -> Result<(), Ended> {
    let sign = byte(from)?;
    if 1 < sign {
        return Err(Ended::Input);
    }
    let block = bytes(from)?;
    let mut halves = [[0u16; 3]; 16];
    rinchovek_bc6h_decode_block(&block, sign as u32, &mut halves);
    let flat: [u8; 96] = from_fn(|i| halves[i / 6][i / 2 % 3].to_le_bytes()[i % 2]);
    to.write_all(&flat)?;
    Ok(())
}

fn unpack_call(from: &mut impl io::Read, to: &mut impl io::Write) -> Result<(), Ended> {
    let mut record = [0u8; PLACES];
    write_small(to, rinchovek_bc7_unpack(&bytes(from)?, &mut record))?;
    to.write_all(&record)?;
    Ok(())
}

fn pack_call(from: &mut impl io::Read, to: &mut impl io::Write) -> Result<(), Ended> {
    let record: [u8; PLACES] = bytes(from)?;
    if 3 < record[1] {
        return Err(Ended::Input);
    }
    let mut block = [0u8; 16];
    write_small(to, rinchovek_bc7_pack(&record, &mut block))?;
    to.write_all(&block)?;
    Ok(())
}

fn read_line_call(from: &mut impl io::Read, to: &mut impl io::Write) -> Result<(), Ended> {
    let block = bytes(from)?;
    let line = number(from)?;
    let mut held = [0u8; 26];
    let mut widths = [0u8; 26];
    write_small(
        to,
        rinchovek_bc7_read_line(&block, line, &mut held, &mut widths),
    )?;
    to.write_all(&held)?;
    to.write_all(&widths)?;
    Ok(())
}

fn replace_call(from: &mut impl io::Read, to: &mut impl io::Write) -> Result<(), Ended> {
    let mut block = bytes(from)?;
    let line = number(from)?;
    let given = bytes(from)?;
    write_small(to, rinchovek_bc7_replace_line(&mut block, line, &given))?;
    to.write_all(&block)?;
    Ok(())
}

// The nearest index, or the one that hits: both are asked for in the same bytes.
fn index_call<F: FnOnce(&[u8; 16], u32, u32, &[u8; 4], &mut u32) -> u32>(
    from: &mut impl io::Read,
    to: &mut impl io::Write,
    find: F,
) -> Result<(), Ended>
    requires { F.IsAlwaysCallable find }
{
    let block = bytes(from)?;
    let [line, pixel]: [u32; 2] = numbers(from)?;
    let wanted = bytes(from)?;
    let mut index: u32 = 0;
    write_small(to, find(&block, line, pixel, &wanted, &mut index))?;
    write_small(to, index)?;
    Ok(())
}

fn opacity_call(from: &mut impl io::Read, to: &mut impl io::Write) -> Result<(), Ended> {
    let block = bytes(from)?;
    let [columns, rows]: [u32; 2] = numbers(from)?;
    write_small(to, rinchovek_bc7_is_opaque(&block, columns, rows))?;
    Ok(())
}

fn pixel_call(from: &mut impl io::Read, to: &mut impl io::Write) -> Result<(), Ended> {
    let block = bytes(from)?;
    let pixel = number(from)?;
    let mut rgba = [0u8; 4];
    write_small(to, rinchovek_bc7_pixel(&block, pixel, &mut rgba))?;
    to.write_all(&rgba)?;
    Ok(())
}

fn write_head_call(from: &mut impl io::Read, to: &mut impl io::Write) -> Result<(), Ended> {
    let [width, height]: [u32; 2] = numbers(from)?;
    let mut head = [0u8; 7];
    let mut count: u32 = 0;
    write_small(
        to,
        rinchovek_sheet_write_head(width, height, &mut head, &mut count),
    )?;
    write_small(to, count)?;
    to.write_all(&head)?;
    Ok(())
}

// WITH THE BYTES OF ONE SHEET OR FILE, or of the beginning of a sheet, which come before what the call itself reads. A length of a head is one
// byte, any other four.
fn with_sheet<R: io::Read, W: io::Write, F: FnOnce(&mut R, &mut W, &mut [u8]) -> Result<(), Ended>>(
    from: &mut R,
    to: &mut W,
    n: usize,
    call: F,
) -> Result<(), Ended>
    requires { F.IsAlwaysCallable call }
{
    if MOST < n {
        return Err(Ended::Input);
    }
    let mut room = [0u8; MOST];
    let sheet = &mut room[..n];
    fill(from, sheet)?;
    call(from, to, sheet)
}

fn sheet_call<R: io::Read, W: io::Write, F: FnOnce(&mut R, &mut W, &mut [u8]) -> Result<(), Ended>>(
    from: &mut R,
    to: &mut W,
    call: F,
) -> Result<(), Ended>
    requires { F.IsAlwaysCallable call }
{
    let n = number(from)? as usize;
    with_sheet(from, to, n, call)
}

fn head_call<R: io::Read, W: io::Write, F: FnOnce(&mut R, &mut W, &mut [u8]) -> Result<(), Ended>>(
    from: &mut R,
    to: &mut W,
    call: F,
) -> Result<(), Ended>
    requires { F.IsAlwaysCallable call }
{
    let n = byte(from)? as usize;
    with_sheet(from, to, n, call)
}

// The four numbers of a head, of which the colour space is one byte.
fn write_head(to: &mut impl io::Write, head: [u32; 4]) -> io::Result<()> {
    write_numbers(to, &head[..3])?;
    write_small(to, head[3])
}

fn head_of(to: &mut impl io::Write, sheet: &[u8]) -> Result<(), Ended> {
    let mut numbers = [0u32; 8];
    write_small(to, rinchovek_sheet_open(sheet, &mut numbers))?;
    write_numbers(to, &numbers[..3])?;
    Ok(())
}

fn colour_head_of(to: &mut impl io::Write, sheet: &[u8]) -> Result<(), Ended> {
    let mut numbers = [0u32; 8];
    write_small(to, rinchovek_sheet_open(sheet, &mut numbers))?;
    write_head(to, [numbers[0], numbers[1], numbers[2], numbers[3]])?;
    Ok(())
}

fn open_of(to: &mut impl io::Write, sheet: &[u8]) -> Result<(), Ended> {
    let mut numbers = [0u32; 8];
    write_small(to, rinchovek_sheet_open(sheet, &mut numbers))?;
    write_numbers(to, &numbers)?;
    Ok(())
}

fn block_of(from: &mut impl io::Read, to: &mut impl io::Write, sheet: &[u8]) -> Result<(), Ended> {
    let block = number(from)?;
    let mut stored = [0u8; 16];
    write_small(to, rinchovek_sheet_block(sheet, block, &mut stored))?;
    to.write_all(&stored)?;
    Ok(())
}

fn replace_in(
    from: &mut impl io::Read,
    to: &mut impl io::Write,
    sheet: &mut [u8],
) -> Result<(), Ended> {
    let [block, line]: [u32; 2] = numbers(from)?;
    let given = bytes(from)?;
    write_small(to, rinchovek_sheet_replace_line(sheet, block, line, &given))?;
    to.write_all(sheet)?;
    Ok(())
}

fn count_of(to: &mut impl io::Write, sheet: &[u8]) -> Result<(), Ended> {
    let mut counts = [0u32; 10];
    write_small(to, rinchovek_sheet_count(sheet, &mut counts))?;
    write_numbers(to, &counts)?;
    Ok(())
}

fn replace_line_in(
    from: &mut impl io::Read,
    to: &mut impl io::Write,
    sheet: &mut [u8],
) -> Result<(), Ended> {
    let mut counts: [u32; 10] = numbers(from)?;
    let [block, line]: [u32; 2] = numbers(from)?;
    let given = bytes(from)?;
    write_small(
        to,
        rinchovek_sheet_replace_line_counted(sheet, &mut counts, block, line, &given),
    )?;
    to.write_all(sheet)?;
    write_numbers(to, &counts)?;
    Ok(())
}

fn replace_block_in(
    from: &mut impl io::Read,
    to: &mut impl io::Write,
    sheet: &mut [u8],
) -> Result<(), Ended> {
    let mut counts: [u32; 10] = numbers(from)?;
    let block = number(from)?;
    let given = bytes(from)?;
    write_small(
        to,
        rinchovek_sheet_replace_block_counted(sheet, &mut counts, block, &given),
    )?;
    to.write_all(sheet)?;
    write_numbers(to, &counts)?;
    Ok(())
}

fn state_colour_call(from: &mut impl io::Read, to: &mut impl io::Write) -> Result<(), Ended> {
    let colour_space = number(from)?;
    sheet_call(from, to, |_, to, sheet| {
        write_small(to, rinchovek_sheet_state_colour(sheet, colour_space))?;
        to.write_all(sheet)?;
        Ok(())
    })
}

// The listing has 40 bytes for each block at the most, and two texts more. No sheet is longer than there was room for.
fn list_of(to: &mut impl io::Write, sheet: &[u8]) -> Result<(), Ended> {
    let mut text = [0u8; 163920];
    let count = list_sheet(&sheet[..sheet.len().min(MOST)], &mut text);
    write_u32(to, count as u32)?;
    to.write_all(&text[..count])?;
    Ok(())
}

// The length that importing needs, or exporting.
fn length_of<F: FnOnce(&[u8], &mut u32) -> u32>(
    to: &mut impl io::Write,
    given: &[u8],
    needed: F,
) -> Result<(), Ended>
    requires { F.IsAlwaysCallable needed }
{
    let mut length: u32 = 0;
    write_small(to, needed(given, &mut length))?;
    write_u32(to, length)?;
    Ok(())
}

// WITH BYTES AND AN OUTPUT, whose lengths come first. What stands in the output before is read too; behind what the call answers comes the output.
fn out_call<R: io::Read, W: io::Write, F: FnOnce(&mut W, &[u8], &mut [u8]) -> Result<(), Ended>>(
    from: &mut R,
    to: &mut W,
    call: F,
) -> Result<(), Ended>
    requires { F.IsAlwaysCallable call }
{
    let [n, m]: [u32; 2] = numbers(from)?;
    let n = length(n)?;
    let m = length(m)?;
    let mut given = [0u8; MOST];
    let mut room = [0u8; MOST];
    let out = &mut room[..m];
    fill(from, &mut given[..n])?;
    fill(from, out)?;
    call(to, &given[..n], out)?;
    to.write_all(out)?;
    Ok(())
}

// A length that there is room for.
fn length(n: u32) -> Result<usize, Ended>
    ensures { IfOk result (λ n. n ≤ 65536) }
{
    let n = n as usize;
    if MOST < n {
        return Err(Ended::Input);
    }
    Ok(n)
}

fn decode_row_call(from: &mut impl io::Read, to: &mut impl io::Write) -> Result<(), Ended> {
    let [width, height, row]: [u32; 3] = numbers(from)?;
    out_call(from, to, |to, blocks, out| {
        write_small(
            to,
            rinchovek_sheet_decode_row(width, height, row, blocks, out),
        )?;
        Ok(())
    })
}

fn show_row_call(from: &mut impl io::Read, to: &mut impl io::Write) -> Result<(), Ended> {
    let row = number(from)?;
    out_call(from, to, |to, sheet, out| {
        write_small(to, rinchovek_sheet_show_row(sheet, row, out))?;
        Ok(())
    })
}

fn export_colour_call(from: &mut impl io::Read, to: &mut impl io::Write) -> Result<(), Ended> {
    let colour_space = byte(from)?;
    if 2 < colour_space {
        return Err(Ended::Input);
    }
    out_call(from, to, |to, sheet, dds| {
        write_small(
            to,
            rinchovek_dds_export_colour(sheet, colour_space as u32, dds),
        )?;
        Ok(())
    })
}

fn import_colour_of(to: &mut impl io::Write, dds: &[u8], sheet: &mut [u8]) -> Result<(), Ended> {
    let mut head = [0u32; 4];
    write_small(to, rinchovek_dds_import_colour(dds, sheet, &mut head))?;
    write_head(to, head)?;
    Ok(())
}

// A call that answers nothing but its output and a number.
fn moving_call<F: FnOnce(&[u8], &mut [u8]) -> u32>(
    from: &mut impl io::Read,
    to: &mut impl io::Write,
    move_to: F,
) -> Result<(), Ended>
    requires { F.IsAlwaysCallable move_to }
{
    out_call(from, to, |to, given, out| {
        write_small(to, move_to(given, out))?;
        Ok(())
    })
}

// The answer of a read, written: the refusal, the value, the first bit, the bits that remain; where it was refused, none, and where the stream
// stands. The stream behind it is handed on.
fn written(
    to: &mut impl io::Write,
    stream: BitStream,
    answer: Result<Read, ShortRead>,
) -> io::Result<BitStream> {
    let (refusal, read) = match answer {
        Ok(read) => (0, read),
        Err(short) => (
            short.number(),
            Read {
                value: 0,
                first: short.first,
                remaining: short.remaining,
                stream,
            },
        ),
    };
    write_small(to, refusal as u32)?;
    to.write_all(&read.value.to_le_bytes())?;
    write_small(to, read.first)?;
    write_small(to, read.remaining)?;
    Ok(read.stream)
}

// The read that a byte asks for: 0 is one bit, 1 to 8 are that many, 128 and c are c bits of 1 to 64.
fn read_asked(stream: BitStream, kind: u8) -> Result<Result<Read, ShortRead>, Ended> {
    match kind {
        0 => Ok(stream.consume_bit()),
        1..=8 => Ok(stream.consume_bits(kind as u32)),
        129..=192 => Ok(stream.consume_bits_64(kind as u32 - 128)),
        _ => Err(Ended::Input),
    }
}

fn reads_call(from: &mut impl io::Read, to: &mut impl io::Write) -> Result<(), Ended> {
    let mut stream = BitStream::new(bytes(from)?);
    let n = byte(from)? as usize;
    let mut room = [0u8; 256];
    let kinds = &mut room[..n];
    fill(from, kinds)?;
    for &kind in kinds.iter() {
        stream = written(to, stream, read_asked(stream, kind)?)?;
    }
    Ok(())
}

// The float of these bits. Every pattern of a NaN is the one NaN.
fn float_of(bits: u32) -> f32 {
    if 0x7f80_0000 < bits % 0x8000_0000 {
        return 0.0 / 0.0;
    }
    f32::from_bits(bits)
}

// Its bits again. No call here writes a NaN; one that did would show.
fn bits_of(value: f32) -> u32 {
    if value != value {
        return 0x7fc0_0000;
    }
    f32::to_bits(value)
}

fn pixel_floats_call(from: &mut impl io::Read, to: &mut impl io::Write) -> Result<(), Ended> {
    let pixel = bytes(from)?;
    let mut floats = [0.0f32; 4];
    rinchovek_pixel_floats(&pixel, &mut floats);
    for &channel in &floats {
        write_u32(to, bits_of(channel))?;
    }
    Ok(())
}

fn channel_call(from: &mut impl io::Read, to: &mut impl io::Write) -> Result<(), Ended> {
    let bits = number(from)?;
    let mut channel: u32 = 0;
    write_small(to, rinchovek_float_channel(bits, &mut channel))?;
    write_small(to, channel)?;
    Ok(())
}

// The floats that bytes spell, four bytes each.
fn floats_from(bytes: &[u8], floats: &mut [f32])
    requires { length bytes.now ≡ 4 * length floats.old }
{
    for (i, float) in floats.iter_mut().enumerate() {
        let at = 4 * i;
        *float = float_of(u32::from_le_bytes([
            bytes[at],
            bytes[at + 1],
            bytes[at + 2],
            bytes[at + 3],
        ]));
    }
}

// And the bytes again. A NaN, which has no bits of its own, keeps the bytes that it came from.
fn floats_to(floats: &[f32], bytes: &mut [u8])
    requires { length bytes.old ≡ 4 * length floats.now }
{
    for (i, &float) in floats.iter().enumerate() {
        if float == float {
            let at = 4 * i;
            bytes[at..at + 4].copy_from_slice(&bits_of(float).to_le_bytes());
        }
    }
}

// What stands in the floats before is read too, four bytes each.
fn row_floats_of(
    from: &mut impl io::Read,
    to: &mut impl io::Write,
    row: &mut [u8],
    bytes: &mut [u8],
    floats: &mut [f32],
) -> Result<(), Ended>
    requires { length bytes.old ≡ 4 * length floats.old }
{
    fill(from, row)?;
    fill(from, bytes)?;
    floats_from(bytes, floats);
    write_small(to, rinchovek_row_floats(row, floats))?;
    floats_to(floats, bytes);
    to.write_all(bytes)?;
    Ok(())
}

// How long the row is comes first, and for how many floats there is room.
fn row_floats_call(from: &mut impl io::Read, to: &mut impl io::Write) -> Result<(), Ended> {
    let [n, m]: [u32; 2] = numbers(from)?;
    let n = length(n)?;
    let m = length(m)?;
    let mut row = [0u8; MOST];
    let mut bytes = [0u8; 4 * MOST];
    let mut floats = [0.0f32; MOST];
    row_floats_of(
        from,
        to,
        &mut row[..n],
        &mut bytes[..4 * m],
        &mut floats[..m],
    )
}

// One call, of the letter that names it.
fn call<R: io::Read, W: io::Write>(from: &mut R, to: &mut W, letter: u8) -> Result<(), Ended> {
    match letter {
        b'D' => decode_call(from, to),
        b'G' => decode_bc6h_call(from, to),
        b'U' => unpack_call(from, to),
        b'P' => pack_call(from, to),
        b'R' => replace_call(from, to),
        b'r' => read_line_call(from, to),
        b'N' => index_call(from, to, rinchovek_bc7_nearest_index),
        b'E' => index_call(from, to, rinchovek_bc7_exact_index),
        b'A' => opacity_call(from, to),
        b'Q' => pixel_call(from, to),
        b'B' => reads_call(from, to),
        b'W' => write_head_call(from, to),
        b'H' => head_call(from, to, |_, to, sheet| head_of(to, sheet)),
        b'h' => head_call(from, to, |_, to, sheet| colour_head_of(to, sheet)),
        b'o' => sheet_call(from, to, |_, to, sheet| open_of(to, sheet)),
        b'b' => sheet_call(from, to, |from, to, sheet| block_of(from, to, sheet)),
        b'S' => sheet_call(from, to, |from, to, sheet| replace_in(from, to, sheet)),
        b'c' => state_colour_call(from, to),
        b'C' => sheet_call(from, to, |_, to, sheet| count_of(to, sheet)),
        b'L' => sheet_call(from, to, |from, to, sheet| replace_line_in(from, to, sheet)),
        b'K' => sheet_call(
            from,
            to,
            |from, to, sheet| replace_block_in(from, to, sheet),
        ),
        b'l' => sheet_call(from, to, |_, to, sheet| list_of(to, sheet)),
        b'd' => sheet_call(
            from,
            to,
            |_, to, dds| length_of(to, dds, rinchovek_dds_import_length),
        ),
        b's' => sheet_call(
            from,
            to,
            |_, to, sheet| length_of(to, sheet, rinchovek_dds_export_length),
        ),
        b'O' => decode_row_call(from, to),
        b'V' => show_row_call(from, to),
        b'I' => moving_call(from, to, rinchovek_dds_import),
        b'X' => moving_call(from, to, rinchovek_dds_export),
        b'i' => out_call(from, to, |to, dds, sheet| import_colour_of(to, dds, sheet)),
        b'x' => export_colour_call(from, to),
        b'T' => moving_call(from, to, rinchovek_sheet_to_tiles),
        b'Z' => moving_call(from, to, rinchovek_sheet_to_rows),
        b'F' => pixel_floats_call(from, to),
        b'Y' => channel_call(from, to),
        b'f' => row_floats_call(from, to),
        _ => Err(Ended::Input),
    }
}

fn next_call<R: io::Read, W: io::Write>(from: &mut R, to: &mut W) -> Result<(), Ended> {
    let letter = byte(from)?;
    call(from, to, letter)
}

fn main(rt: HostRuntime) -> io::Result<()> {
    let mut from = rt.stdin();
    let mut to = rt.stdout();
    // a loop has to end: no input is as long as this
    for _ in 0..u64::MAX {
        match next_call(&mut from, &mut to) {
            Ok(()) => (),
            Err(Ended::Input) => return Ok(()),
            Err(Ended::Output(e)) => return Err(e),
        }
    }
    Ok(())
}
