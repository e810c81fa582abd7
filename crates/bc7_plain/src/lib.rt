// A SECOND DECODER, written straight from the format's page and slow: one pixel at a time, each bit found by its number, weights of 64, the
// partition's string walked for subset and anchors. It names no other crate with code, so that what it has in common with the decoder are
// the sixteen bytes and the definition of the format. In the order of the page: bits, mode, split, where a field starts, endpoint,
// promotion, index, weight, channel, rotation.

#![tactic(auto)]

ghost use Rattle.std.specs.Prelude.{◌≡◌, ◌+◌, ◌*◌, ◌<◌, option_map, unwrap_or};
ghost use Rattle.laws.specs.Tables.{table};
ghost use Rattle.bcn_format.specs.Block.{field, number};
ghost use Rattle.bcn_format.specs.Drawing.{Weighed, drawn, promoted, weight_of};
ghost use Rattle.bc7_fields.specs.Fields.{end_byte, lead_end, p_start, value_start};
ghost use Rattle.bc7_format.specs.Lines.{rotated};
ghost use Rattle.bc7_format.specs.Modes.{alpha_bits, channel_bits, colour_bits, endpoint_count, index_bits, mode_of};
ghost use Rattle.pixel_rules.specs.Plain.{channel_in, first_start, index_in, plain_channel, set_for, set_start};
ghost use Rattle.pixel_rules.specs.Promises.{ReadsPixel};
ghost use Rattle.bc7_plain.specs.Asked.{Bits, Byte, ChannelAsked, Column, Has, IndexAsked};
ghost use Rattle.bc7_plain.specs.Asked.{TwoBytes, PixelAsked, Promoted, Rotatable, SetAsked};
ghost use Rattle.bc7_plain.specs.Asked.{ShortField, SplitRead};

use refusals::Refusal;
use strings::{anchors_before, is_anchor, string_of, subset};

mod strings;

// The bit with this number: of byte number / 8 the bit number % 8, the lowest first.
fn bit(block: [u8; 16], at: usize) -> usize
    requires { at < 128 }
    ensures { result ≡ field (number block) at 1 }
{
    ((block[at / 8] >> (at % 8)) % 2) as usize
}

// A field: the sum of its bits, each worth twice the one below it. The highest is taken first.
fn bits(block: [u8; 16], start: usize, width: usize) -> usize
    requires { ShortField start width }
    ensures { result ≡ field (number block) start width }
{
    let mut sum = 0;
    // A bit is found by its number.
    for next in (0..width).rev() {
        sum = 2 * sum + bit(block, start + next);
    }
    sum
}

// A mode, which the table has a row for.
#[derive(Clone, Copy)]
struct Mode {
    number: usize,
    ghost in_table: { number < 8 },
}

// The mode: how many zero bits come before the first one. A block whose first eight are zero is reserved, and has none.
fn mode_of(block: [u8; 16]) -> Option<Mode>
    ensures { unwrap_or (option_map (λ (m : Mode). m.number) result) 8 ≡ mode_of block }
{
    // The number is what is looked for.
    for number in 0..8 {
        if bit(block, number) == 1 {
            return Some(Mode { number });
        }
    }
    None
}

// The table of modes as it is printed: a row for each mode, and the names of its columns.
const MODES: [[u8; 10]; 8] = [
    [3, 4, 0, 0, 4, 0, 1, 0, 3, 0],
    [2, 6, 0, 0, 6, 0, 0, 1, 3, 0],
    [3, 6, 0, 0, 5, 0, 0, 0, 2, 0],
    [2, 6, 0, 0, 7, 0, 1, 0, 2, 0],
    [1, 0, 2, 1, 5, 6, 0, 0, 2, 3],
    [1, 0, 2, 0, 7, 8, 0, 0, 2, 2],
    [1, 0, 0, 0, 7, 7, 1, 0, 4, 0],
    [2, 6, 0, 0, 5, 5, 1, 0, 2, 0],
];

const SUBSETS: usize = 0;

const PARTITION: usize = 1;

const ROTATION: usize = 2;

const INDEX_MODE: usize = 3;

const COLOUR: usize = 4;

const ALPHA: usize = 5;

const P_OF_ENDPOINT: usize = 6;

const P_OF_SUBSET: usize = 7;

const INDEX: usize = 8;

const SECOND_INDEX: usize = 9;

fn column(mode: Mode, name: usize) -> usize
    requires { name < 10 }
    ensures { Column mode.number name result }
{
    MODES[mode.number][name] as usize
}

// The split: what stands behind the marker. What a mode hasn't got has no bits, and is 0.
#[derive(Clone, Copy)]
struct SplitBits {
    partition: usize,
    rotation: usize,
    index_mode: usize,
}

fn split_of(block: [u8; 16], mode: Mode) -> SplitBits
    ensures { SplitRead mode.number (number block) result.partition result.rotation result.index_mode }
{
    let partition_bits = column(mode, PARTITION);
    let rotation_bits = column(mode, ROTATION);
    let rotation_start = mode.number + 1 + partition_bits;
    SplitBits {
        partition: bits(block, mode.number + 1, partition_bits),
        rotation: bits(block, rotation_start, rotation_bits),
        index_mode: bits(
            block,
            rotation_start + rotation_bits,
            column(mode, INDEX_MODE),
        ),
    }
}

// How many bits a value of a channel has, and an index of the first set or the second.
fn channel_bits(mode: Mode, channel: usize) -> usize
    requires { channel < 4 }
    ensures { Bits (channel_bits mode.number channel) result }
{
    if channel == 3 {
        return column(mode, ALPHA);
    }
    column(mode, COLOUR)
}

fn index_bits(mode: Mode, set: usize) -> usize
    requires { set < 2 }
    ensures { Bits (index_bits mode.number set) result }
{
    if set == 0 {
        return column(mode, INDEX);
    }
    column(mode, SECOND_INDEX)
}

// WHERE A FIELD STARTS. Behind the marker stand partition, rotation and index mode; then the values, channel by channel, endpoint by endpoint.
fn lead_end(mode: Mode) -> usize
    ensures { Bits (lead_end mode.number) result }
{
    mode.number + 1 + column(mode, PARTITION) + column(mode, ROTATION) + column(mode, INDEX_MODE)
}

fn endpoints(mode: Mode) -> usize
    ensures { Bits (endpoint_count mode.number) result }
{
    2 * column(mode, SUBSETS)
}

fn value_start(mode: Mode, channel: usize, endpoint: usize) -> usize
    requires { Has mode.number channel endpoint }
    ensures { result ≡ value_start mode.number channel endpoint }
{
    lead_end(mode)
        + endpoints(mode) * (column(mode, COLOUR) * channel)
        + channel_bits(mode, channel) * endpoint
}

// Then the p bits, one for each endpoint, or one for both of a subset.
fn values_end(mode: Mode) -> usize
    ensures { Bits (lead_end mode.number + endpoint_count mode.number * (3 * colour_bits mode.number + alpha_bits mode.number)) result }
{
    lead_end(mode) + endpoints(mode) * (3 * column(mode, COLOUR) + column(mode, ALPHA))
}

fn p_start(mode: Mode, endpoint: usize) -> usize
    requires { endpoint < 6 }
    ensures { result ≡ p_start mode.number endpoint }
{
    if column(mode, P_OF_SUBSET) == 1 {
        return values_end(mode) + endpoint / 2;
    }
    values_end(mode) + endpoint
}

// Then the first indexes, and behind all sixteen of them the second.
fn first_start(mode: Mode) -> usize
    ensures { Bits (first_start mode.number) result }
{
    let ps = endpoints(mode) * column(mode, P_OF_ENDPOINT)
        + column(mode, SUBSETS) * column(mode, P_OF_SUBSET);
    values_end(mode) + ps
}

fn set_start(mode: Mode, string: &[u8], set: usize) -> usize
    requires { SetAsked mode.number string.now set }
    ensures { Bits (set_start mode.number string.now set) result }
{
    if set == 0 {
        return first_start(mode);
    }
    first_start(mode) + (16 * index_bits(mode, 0) - anchors_before(string, 16))
}

// A value of so many bits as eight: shifted to the top, and the empty places filled from its top.
fn promotion(width: usize, value: usize) -> usize
    requires { Promoted width value }
    ensures { Byte (promoted width value) result }
{
    let top = value << (8 - width);
    top + (top >> width)
}

// A channel of an endpoint: its value with the p bit below, where the mode has one. What a mode doesn't store is 255.
fn endpoint_of(block: [u8; 16], mode: Mode, endpoint: usize, channel: usize) -> usize
    requires { Has mode.number channel endpoint }
    ensures { Byte (end_byte mode.number (number block) endpoint channel) result }
{
    let width = channel_bits(mode, channel);
    if width == 0 {
        return 255;
    }
    let value = bits(block, value_start(mode, channel, endpoint), width);
    if column(mode, P_OF_ENDPOINT) + column(mode, P_OF_SUBSET) == 0 {
        return promotion(width, value);
    }
    promotion(width + 1, value * 2 + bit(block, p_start(mode, endpoint)))
}

// The index set that serves a channel: where there are two, alpha takes one and the colours the other, and the index mode says which.
fn set_of(mode: Mode, index_mode: usize, channel: usize) -> usize
    requires { index_mode < 2 }
    ensures { result ≡ set_for mode.number index_mode channel }
{
    if column(mode, ROTATION) == 0 {
        return 0;
    }
    if channel == 3 {
        return 1 - index_mode;
    }
    index_mode
}

// The index of a pixel: behind those of the pixels before, of which an anchor's has a bit less.
fn index_of(block: [u8; 16], mode: Mode, string: &[u8], set: usize, pixel: usize) -> usize
    requires { IndexAsked mode.number string.now set pixel }
    ensures { result ≡ index_in mode.number string.now (number block) set pixel }
{
    let width = index_bits(mode, set);
    let start = set_start(mode, string, set) + (pixel * width - anchors_before(string, pixel));
    if is_anchor(string, pixel) {
        return bits(block, start, width - 1);
    }
    bits(block, start, width)
}

// The weight of an index, of 64: the last has the whole, and each index an equal part of it, rounded. It is computed here too, so that no table of
// weights stands in the code.
fn weight(width: usize, index: usize) -> usize
    requires { Weighed width index }
    ensures { result ≡ weight_of width index }
{
    let last = (1usize << width) - 1;
    (64 * index + last / 2) / last
}

// A channel between two endpoints.
fn mixed(first: usize, second: usize, weight: usize) -> u8
    requires { TwoBytes first second weight }
    ensures { result ≡ drawn first second weight }
{
    (((64 - weight) * first + weight * second + 32) / 64) as u8
}

// A channel of a pixel, before rotation.
fn channel_of(
    block: [u8; 16],
    mode: Mode,
    index_mode: usize,
    string: &[u8],
    pixel: usize,
    channel: usize,
) -> u8
    requires { ChannelAsked mode.number index_mode string.now pixel channel }
    ensures { result ≡ channel_in mode.number index_mode string.now (number block) pixel channel }
{
    let set = set_of(mode, index_mode, channel);
    let part = weight(
        index_bits(mode, set),
        index_of(block, mode, string, set, pixel),
    );
    let pair = 2 * subset(string, pixel);
    mixed(
        endpoint_of(block, mode, pair, channel),
        endpoint_of(block, mode, pair + 1, channel),
        part,
    )
}

// The channel that is shown as this one: rotation 1, 2, 3 exchanges alpha with red, green, blue.
fn rotation_of(rotation: usize, channel: usize) -> usize
    requires { Rotatable rotation channel }
    ensures { result ≡ rotated rotation channel }
{
    if rotation == 0 {
        return channel;
    }
    if channel == 3 {
        return rotation - 1;
    }
    if channel == rotation - 1 {
        return 3;
    }
    channel
}

// A pixel as it is shown.
fn shown(
    block: [u8; 16],
    mode: Mode,
    rotation: usize,
    index_mode: usize,
    string: &[u8],
    pixel: usize,
) -> [u8; 4]
    requires { PixelAsked mode.number rotation index_mode string.now pixel }
    ensures { result ≡ table 4 (λ c. channel_in mode.number index_mode string.now (number block) pixel (rotated rotation c)) }
{
    [
        channel_of(
            block,
            mode,
            index_mode,
            string,
            pixel,
            rotation_of(rotation, 0),
        ),
        channel_of(
            block,
            mode,
            index_mode,
            string,
            pixel,
            rotation_of(rotation, 1),
        ),
        channel_of(
            block,
            mode,
            index_mode,
            string,
            pixel,
            rotation_of(rotation, 2),
        ),
        channel_of(
            block,
            mode,
            index_mode,
            string,
            pixel,
            rotation_of(rotation, 3),
        ),
    ]
}

// A pixel of a block that isn't reserved, by the string of its partition.
fn read(block: [u8; 16], mode: Mode, pixel: usize) -> [u8; 4]
    requires { pixel < 16 }
    ensures { result ≡ table 4 (plain_channel mode.number (number block) pixel) }
{
    let split = split_of(block, mode);
    let string = string_of(column(mode, SUBSETS), split.partition);
    shown(block, mode, split.rotation, split.index_mode, string, pixel)
}

// One pixel of a block: red, green, blue, alpha. Any sixteen bytes are a block; a reserved one shows 0 0 0 0. Pixel 16 and up is refused.
pub fn pixel_of(block: [u8; 16], pixel: u32) -> Result<[u8; 4], Refusal>
    ensures { ReadsPixel block pixel result }
{
    if 16 <= pixel {
        return Err(Refusal::NoSuchPixel);
    }
    match mode_of(block) {
        Some(mode) => Ok(read(block, mode, pixel as usize)),
        None => Ok([0; 4]),
    }
}
