// Pixels as floats, for blending, and the way back from one float to its channel.

#![tactic(auto)]

ghost use Rattle.std.specs.Prelude.{◌≡◌};
ghost use Rattle.float_rules.specs.Promises.{FindsChannel, FindsChannelOf, FloatsChannel, FloatsPixel, FloatsRow};
ghost use Rattle.floats.specs.Candidates.{candidate_of};

use float_rules::FloatPixel;
use refusals::Refusal;

// One division, rounded once. A product with 1 / 255 would be rounded twice, and is another float for many channels.
pub fn channel_float(channel: u8) -> f32
    ensures { FloatsChannel channel result }
{
    (channel as f32) / 255.0
}

pub fn pixel_floats(pixel: [u8; 4]) -> FloatPixel
    ensures { FloatsPixel pixel result }
{
    FloatPixel {
        red: channel_float(pixel[0]),
        green: channel_float(pixel[1]),
        blue: channel_float(pixel[2]),
        alpha: channel_float(pixel[3]),
    }
}

// The one channel whose float can have these bits: 255 times their value, cut to a whole number, for no channel's float is rounded down. The
// value is a significand of 24 bits, of which the highest isn't stored, divided by a power of two. Below 1 / 256 and above 1 there is no
// channel but 0, whose float is 0.
fn candidate(bits: u32) -> u8
    ensures { result ≡ candidate_of bits }
{
    if bits < 0x3b80_0000 {
        return 0;
    }
    if 0x3f80_0000 < bits {
        return 0;
    }
    let significand = (bits % 0x80_0000 + 0x80_0000) as u64;
    (((255 * significand) >> (150 - bits / 0x80_0000)) % 256) as u8
}

// The channel whose float has these bits. Its candidate's float is made again, and every bit is compared.
pub fn channel_of_bits(bits: u32) -> Result<u8, Refusal>
    ensures { FindsChannel bits result }
{
    let channel = candidate(bits);
    if f32::to_bits(channel_float(channel)) != bits {
        return Err(Refusal::NotAChannel);
    }
    Ok(channel)
}

// The same of a float. A NaN, which alone differs from itself, is no channel's.
pub fn channel_of(value: f32) -> Result<u8, Refusal>
    ensures { FindsChannelOf value result }
{
    if value != value {
        return Err(Refusal::NotAChannel);
    }
    channel_of_bits(f32::to_bits(value))
}

// Every channel of a row, or of any run of bytes, as a float.
pub fn row_floats(pixels: &[u8], floats: &mut [f32]) -> Result<(), Refusal>
    ensures { FloatsRow pixels.now floats.old result floats.new }
{
    let count = pixels.len();
    if count != floats.len() {
        return Err(Refusal::WrongOutputLength);
    }
    // Tried `pixels.iter().enumerate()`: it takes seven instructions a channel, where this takes two and a half, for the compiler takes four at once.
    for i in 0..count {
        floats[i] = channel_float(pixels[i]);
    }
    Ok(())
}
