// The reader: both halves of a block stand still, and a position moves over them. A read takes the stream by value, and hands it back in
// its answer.
ghost use Rattle.std.specs.Prelude.{◌≡◌, [], ◌∷◌, Err, ◌+◌, ◌*◌, ◌/◌, ◌%◌, ◌^◌, ◌≤◌, ◌<◌, replicate};
ghost use Rattle.laws.specs.Digits.{join};
ghost use Rattle.bcn_format.specs.Block.{number};
ghost use Rattle.bits.specs.Stream.{answer_of, answered, On, Reads, Room, short_number, short_read, skipped, Taken};

// Bits count from the lowest of `low`, which is byte 0's, to the highest of `high`.
#[derive(Clone, Copy)]
pub struct BitStream {
    pub low: u64,
    pub high: u64,
    pub at: u32,
}

// What a read gives: the value; the number of its first bit; how many of the 128 bits remain afterwards; and the stream behind it.
#[derive(Clone, Copy)]
pub struct Read {
    pub value: u64,
    pub first: u32,
    pub remaining: u32,
    pub stream: BitStream,
}

// A read wants more bits than remain: where it would have started, and how many remain, as before it. The stream that it was asked of stands
// where it stood.
#[derive(Clone, Copy, PartialEq, Eq)]
pub struct ShortRead {
    pub first: u32,
    pub remaining: u32,
}

impl ShortRead {
    // Its number among the refusals.
    pub fn number(self) -> u8
        ensures { result ≡ short_number }
    {
        22
    }
}

// Eight bytes as a word, the first lowest.
pub fn word(b0: u8, b1: u8, b2: u8, b3: u8, b4: u8, b5: u8, b6: u8, b7: u8) -> u64
    ensures { result ≡ join (replicate 8 8) (b0 ∷ b1 ∷ b2 ∷ b3 ∷ b4 ∷ b5 ∷ b6 ∷ b7 ∷ []) }
{
    u64::from_le_bytes([b0, b1, b2, b3, b4, b5, b6, b7])
}

// The 64 bits of a block from a position on, zeros above its last. Below 64 they are what is left of `low` and, on top of it, `high`
// moved up by 64 - at. That would be a shift by 64 at position 0, which isn't defined; a shift by 1 and then by 63 - at is, and
// leaves nothing there.
fn window(low: u64, high: u64, at: u32) -> u64
    ensures { at < 128 → result ≡ (high * 2 ^ 64 + low) / 2 ^ at % 2 ^ 64 }
{
    if at < 64 {
        (low >> at) | ((high << 1) << (63 - at))
    } else {
        high >> (at % 64)
    }
}

impl BitStream {
    pub fn new(block: [u8; 16]) -> Self
        ensures { On (number block) 0 result }
    {
        BitStream {
            low: word(
                block[0], block[1], block[2], block[3], block[4], block[5], block[6], block[7],
            ),
            high: word(
                block[8], block[9], block[10], block[11], block[12], block[13], block[14],
                block[15],
            ),
            at: 0,
        }
    }

    // The next eight bits. In the Rust the stream stays where it is; here the caller still has it, beside the one in the answer.
    pub fn low_u8(self) -> Read
        requires { Room self 8 }
        ensures { Taken self 8 result }
    {
        self.take(8)
    }

    pub fn skip(self, count: u32) -> Self
        requires { self.at + count ≤ 128 }
        ensures { result ≡ skipped self count }
    {
        BitStream {
            low: self.low,
            high: self.high,
            at: self.at + count,
        }
    }

    // For whoever knows where the stream stands: it asks for its bits, so that it is never refused and compares nothing. Fewer than 64,
    // and none where a width comes from a table in which it may be 0.
    pub fn take(self, count: u32) -> Read
        requires { Room self count }
        ensures { Taken self count result }
    {
        self.accepted(
            count,
            window(self.low, self.high, self.at) % (1u64 << count),
        )
    }

    // For whoever doesn't: the same where the bits are there, else refused.
    fn consume(self, count: u32) -> Result<Read, ShortRead>
        requires { count < 64 }
        ensures { Reads self count result }
    {
        if self.at as u64 + count as u64 > 128 {
            return Err(self.short());
        }
        Ok(self.take(count))
    }

    pub fn consume_bit(self) -> Result<Read, ShortRead>
        ensures { Reads self 1 result }
    {
        self.consume(1)
    }

    pub fn consume_bits(self, count: u32) -> Result<Read, ShortRead>
        requires { (0 < count) × (count ≤ 8) }
        ensures { Reads self count result }
    {
        self.consume(count)
    }

    pub fn consume_bits_64(self, count: u32) -> Result<Read, ShortRead>
        requires { (0 < count) × (count ≤ 64) }
        ensures { Reads self count result }
    {
        if count < 64 {
            return self.consume(count);
        }
        if self.at > 64 {
            return Err(self.short());
        }
        Ok(self.accepted(64, window(self.low, self.high, self.at)))
    }

    // What a read gives that fits. Nothing of it costs anything where it isn't looked at.
    fn accepted(self, count: u32, value: u64) -> Read
        requires { self.at + count ≤ 128 }
        ensures { result ≡ answered self count value }
    {
        Read {
            value,
            first: self.at,
            remaining: 128 - (self.at + count),
            stream: self.skip(count),
        }
    }

    // And one that doesn't.
    fn short(self) -> ShortRead
        ensures { answer_of self (Err result) ≡ short_read self }
    {
        let first = self.at;
        ShortRead {
            first,
            remaining: 128u32.saturating_sub(first),
        }
    }
}
