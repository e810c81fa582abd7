// The reader lent, as in the Rust: each function moves its caller's stream forward, or leaves it where the read is refused. It takes the
// stream out, calls the function by value of `bits`, stores the stream that comes back, and hands on what was read; its promise names
// what that function answers. The decoder reads by value.

#![tactic(auto)]

ghost use Rattle.std.specs.Prelude.{◌≡◌, ◌+◌, ◌≤◌, ◌<◌};
ghost use Rattle.bcn_format.specs.Block.{number};
ghost use Rattle.bits.specs.Stream.{answer_of, read_of, skipped};
ghost use Rattle.bits_lent.specs.Opening.{LentRead, Opens, answers_of, opening_at};

use bits::stream::{BitStream, Read, ShortRead};

pub fn skip(stream: &mut BitStream, count: u32)
    requires { stream.old.at + count ≤ 128 }
    ensures { stream.new ≡ skipped stream.old count }
{
    *stream = (*stream).skip(count);
}

pub fn consume_bit(stream: &mut BitStream) -> Result<Read, ShortRead>
    ensures { LentRead (read_of stream.old 1) (answer_of stream.old result) stream.new }
{
    let read = (*stream).consume_bit()?;
    *stream = read.stream;
    Ok(read)
}

pub fn consume_bits(stream: &mut BitStream, count: u32) -> Result<Read, ShortRead>
    requires { (0 < count) × (count ≤ 8) }
    ensures { LentRead (read_of stream.old count) (answer_of stream.old result) stream.new }
{
    let read = (*stream).consume_bits(count)?;
    *stream = read.stream;
    Ok(read)
}

pub fn consume_bits_64(stream: &mut BitStream, count: u32) -> Result<Read, ShortRead>
    requires { (0 < count) × (count ≤ 64) }
    ensures { LentRead (read_of stream.old count) (answer_of stream.old result) stream.new }
{
    let read = (*stream).consume_bits_64(count)?;
    *stream = read.stream;
    Ok(read)
}

// How a mode 4 block opens, past its marker: the reads of the rotation, the index mode, and the eight endpoint values as one word, the
// first lowest.
#[derive(Clone, Copy)]
pub struct Opening {
    pub rotation: Result<Read, ShortRead>,
    pub index_mode: Result<Read, ShortRead>,
    pub endpoints: Result<Read, ShortRead>,
}

// The stream behind a read: where it stood, if that was refused.
fn behind(stream: BitStream, read: Result<Read, ShortRead>) -> BitStream
    ensures { result ≡ (answer_of stream read).stream }
{
    match read {
        Ok(read) => read.stream,
        Err(_) => stream,
    }
}

// By value.
pub fn read_opening(start: BitStream) -> Opening
    requires { start.at + 5 ≤ 128 }
    ensures { answers_of start result ≡ opening_at start }
{
    let s = start.skip(5);
    let rotation = s.consume_bits(2);
    let t = behind(s, rotation);
    let index_mode = t.consume_bit();
    let u = behind(t, index_mode);
    let endpoints = u.consume_bits_64(42);
    Opening {
        rotation,
        index_mode,
        endpoints,
    }
}

// The same, through a reader in a local that is lent four times. Whoever wants the lent form calls this, and needs no proof
// about a reference.
pub fn read_opening_lent(start: BitStream) -> Opening
    requires { start.at + 5 ≤ 128 }
    ensures { answers_of start result ≡ opening_at start }
{
    let mut stream = start;
    skip(&mut stream, 5);
    let rotation = consume_bits(&mut stream, 2);
    let index_mode = consume_bit(&mut stream);
    let endpoints = consume_bits_64(&mut stream, 42);
    Opening {
        rotation,
        index_mode,
        endpoints,
    }
}

pub fn mode_4_opening(block: [u8; 16]) -> Opening
    ensures { Opens (number block) result }
{
    read_opening_lent(BitStream::new(block))
}
