// Which index of a line draws a wanted colour at a pixel: the nearest one, and the one that hits it. The line is read as it stands;
// then every index of its width is tried.

#![tactic(auto)]

ghost use Rattle.std.specs.Prelude.{◌≡◌, true, ◌+◌, ◌-◌, ◌*◌, ◌^◌, ◌≤◌, ◌<◌};
ghost use Rattle.bcn_format.specs.Drawing.{drawn, promoted};
ghost use Rattle.bc7_format.specs.Lines.{rotated as rotatedChannel};
ghost use Rattle.bc7_format.specs.Modes.{mode_of};
ghost use Rattle.bc7_format.specs.Splits.{rotation as rotation_in, split_of};
ghost use Rattle.nearest_rules.specs.Nearest.{squared as squaredDifference};
ghost use Rattle.nearest_rules.specs.Promises.{FindsExact, FindsNearest};
ghost use Rattle.nearest.specs.Trying.{AtEndpoint, Between, DrawnOfBytes, IsBelow, IsChannel, Measurable, ToPromote, Readable, Searchable};
ghost use Rattle.nearest.specs.Trying.{Searched, SearchedIn, Tries, Tryable, channel_far, distance_at, tried_of};

use bc7_modes::{mode_of, mode_row};
use bc7_places::splits::{read_lead, rotation_of};
use line::read_line;
use line_rules::LineRead;
use refusals::Refusal;
use weights::weight_64;

// A shown channel of a pixel: what the line's endpoints have there as eight bits, and what is wanted.
#[derive(Clone, Copy)]
pub struct Channel {
    pub first: u32,
    pub second: u32,
    pub wanted: u32,
}

// The channels of a shown pixel. One that the line doesn't draw doesn't count.
#[derive(Clone, Copy)]
pub struct Shown {
    pub red: Option<Channel>,
    pub green: Option<Channel>,
    pub blue: Option<Channel>,
    pub alpha: Option<Channel>,
}

// The nearest index, and how far it is.
#[derive(Clone, Copy)]
pub struct Nearest {
    pub index: u8,
    pub distance: u32,
}

// A value of some bits as eight: shifted left, and the empty places filled from its top.
fn promote(value: u32, bits: u32) -> u32
    requires { ToPromote value bits }
    ensures { IsBelow 256 (promoted bits value) result }
{
    let top = value << (8 - bits);
    top + (top >> bits)
}

// The channel between two endpoints at a weight of 64.
fn interpolate(first: u32, second: u32, weight: u32) -> u32
    requires { Between first second weight }
    ensures { IsBelow 256 (drawn first second weight) result }
{
    ((64 - weight) * first + weight * second + 32) / 64
}

fn squared(a: u32, b: u32) -> u32
    requires { (a < 256) × (b < 256) }
    ensures { IsBelow 65536 (squaredDifference a b) result }
{
    if a < b {
        return (b - a) * (b - a);
    }
    (a - b) * (a - b)
}

// The channel before rotation that is shown as this one.
fn rotated(rotation: u8, channel: usize) -> usize
    ensures { result ≡ rotatedChannel rotation channel }
{
    if rotation == 0 {
        return channel;
    }
    let exchanged = (rotation - 1) as usize;
    if channel == 3 {
        return exchanged;
    }
    if channel == exchanged {
        return 3;
    }
    channel
}

// How far a channel is at a weight.
fn far(channel: Option<Channel>, weight: u32) -> u32
    requires { DrawnOfBytes channel × (weight ≤ 64) }
    ensures { IsBelow 65536 (channel_far channel weight) result }
{
    match channel {
        Some(x) => squared(interpolate(x.first, x.second, weight), x.wanted),
        None => 0,
    }
}

// The distance of an index: the sum over the four channels.
fn distance(channels: Shown, bits: u32, index: u32) -> u32
    requires { Measurable channels bits index }
    ensures { result ≡ distance_at channels bits index }
{
    let at = weight_64(bits, index);
    far(channels.red, at)
        + far(channels.green, at)
        + far(channels.blue, at)
        + far(channels.alpha, at)
}

// Every index is tried, the lowest first, so that of equal ones the lowest stays. The index is what is looked for.
fn search(channels: Shown, bits: u32) -> Nearest
    requires { Searchable channels bits }
    ensures { Searched channels bits result }
{
    let mut nearest = Nearest {
        index: 0,
        distance: distance(channels, bits, 0),
    };
    for i in 1..1u32 << bits {
        let next = distance(channels, bits, i);
        if next < nearest.distance {
            nearest = Nearest {
                index: i as u8,
                distance: next,
            };
        }
    }
    nearest
}

// The value of an endpoint as eight bits, its p bit, where it has one, as the low bit.
fn eight(value: u8, p: u8, width: u8, p_width: u8) -> u32
    requires { AtEndpoint value p width p_width }
    ensures { IsBelow 256 (promoted (width + p_width) (value * 2 ^ p_width + p)) result }
{
    promote(
        ((value as u32) << (p_width as u32)) + p as u32,
        (width + p_width) as u32,
    )
}

// A channel (before rotation) of a line that was read. One of no width isn't drawn by the line.
fn channel_of(read: LineRead, channel: usize, wanted: u8) -> Option<Channel>
    requires { Readable read.line read.widths channel }
    ensures { IsChannel read.line read.widths channel wanted result }
{
    let width = read.widths.endpoints[channel];
    if width == 0 {
        return None;
    }
    let p_width = read.widths.p[0];
    Some(Channel {
        first: eight(read.line.endpoints[channel], read.line.p[0], width, p_width),
        second: eight(
            read.line.endpoints[4 + channel],
            read.line.p[1],
            width,
            p_width,
        ),
        wanted: wanted as u32,
    })
}

// The rotation of a block that isn't reserved: 0 where its mode has none.
fn rotation_in(block: [u8; 16]) -> u8
    requires { mode_of block < 8 }
    ensures { result ≡ rotation_in (split_of block) }
{
    let mode = mode_of(block);
    let lead = read_lead(block, mode, mode_row(mode));
    rotation_of(lead.split)
}

// The wanted channels are in the order of a shown pixel; the line's are before rotation.
fn nearest_of(read: LineRead, rotation: u8, bits: u8, wanted: [u8; 4]) -> Nearest
    requires { Tryable read.line read.widths rotation bits }
    ensures { SearchedIn read.line read.widths rotation wanted bits result }
{
    let channels = Shown {
        red: channel_of(read, rotated(rotation, 0), wanted[0]),
        green: channel_of(read, rotated(rotation, 1), wanted[1]),
        blue: channel_of(read, rotated(rotation, 2), wanted[2]),
        alpha: channel_of(read, rotated(rotation, 3), wanted[3]),
    };
    search(channels, bits as u32)
}

// The line's widths say whether it has the pixel, and which channels it draws.
fn try_indexes(block: [u8; 16], line: u32, pixel: u32, wanted: [u8; 4]) -> Result<Nearest, Refusal>
    ensures { Tries block line pixel wanted (tried_of result) }
{
    let read = read_line(block, line)?;
    if pixel >= 16 {
        return Err(Refusal::PixelNotInLine);
    }
    let bits = read.widths.indexes[pixel as usize];
    if bits == 0 {
        return Err(Refusal::PixelNotInLine);
    }
    Ok(nearest_of(read, rotation_in(block), bits, wanted))
}

// Of every index of the line's full width, the one that draws nearest to the wanted colour at the pixel, the lowest of several; or the
// first refusal that applies: 1, 2, 13.
pub fn nearest_index(block: [u8; 16], line: u32, pixel: u32, wanted: [u8; 4]) -> Result<u8, Refusal>
    ensures { FindsNearest block line pixel wanted result }
{
    let nearest = try_indexes(block, line, pixel, wanted)?;
    Ok(nearest.index)
}

// The index that draws the wanted colour, the lowest of several; or the first refusal that applies: 1, 2, 13, 14.
pub fn exact_index(block: [u8; 16], line: u32, pixel: u32, wanted: [u8; 4]) -> Result<u8, Refusal>
    ensures { FindsExact block line pixel wanted result }
{
    let nearest = try_indexes(block, line, pixel, wanted)?;
    if nearest.distance != 0 {
        return Err(Refusal::NoExactIndex);
    }
    Ok(nearest.index)
}
