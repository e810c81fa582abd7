// What a listing prints of a sheet and of a block.
ghost use Rattle.std.specs.Prelude.{◌≡◌, ◌+◌, ◌≤◌, length};
ghost use Rattle.listing_rules.specs.Text.{block_text, channels, opacity_mark, sheet_text};
ghost use Rattle.text.specs.Puts.{Puts};

use text::{put, put_number, put_spaced, put_word};

// A pixel's four channels.
fn put_pixel(pixel: [u8; 4], at: usize, out: &mut [u8]) -> usize
    requires { at + 20 ≤ length out.old }
    ensures { Puts 20 out.old at (channels pixel) out.new result }
{
    let green = put_spaced(pixel[0], at, out);
    let blue = put_spaced(pixel[1], green, out);
    let alpha = put_spaced(pixel[2], blue, out);
    put_spaced(pixel[3], alpha, out)
}

// The first text of a listing: `sheet`, width and height.
pub fn sheet_text(width: u32, height: u32, at: usize, out: &mut [u8]) -> usize
    requires { at + 40 ≤ length out.old }
    ensures { Puts 40 out.old at (sheet_text width height) out.new result }
{
    let wide = put_number(width, put_word(b"sheet ", at, out), out);
    let high = put_number(height, put(b' ', wide, out), out);
    put(b'\n', high, out)
}

fn opacity_mark(opaque: bool) -> u8
    ensures { result ≡ opacity_mark opaque }
{
    if opaque { b'o' } else { b'-' }
}

// The text of a block: its number, its mode, the four channels of its pixel 0, and its opacity mark.
pub fn block_text(
    number: u32,
    mode: u8,
    pixel: [u8; 4],
    opaque: bool,
    at: usize,
    out: &mut [u8],
) -> usize
    requires { at + 40 ≤ length out.old }
    ensures { Puts 40 out.old at (block_text number mode pixel opaque) out.new result }
{
    let numbered = put_number(number, at, out);
    let drawn = put_pixel(pixel, put_spaced(mode, numbered, out), out);
    let marked = put(opacity_mark(opaque), put(b' ', drawn, out), out);
    put(b'\n', marked, out)
}
