// The writer, the reader's inverse: two halves and the position that the next value goes to.
ghost use Rattle.std.specs.Prelude.{◌≡◌};
ghost use Rattle.bcn_format.specs.Block.{bytes_of};
ghost use Rattle.bits.specs.Writer.{Pushable, pushed, writer_of, written};

#[derive(Clone, Copy)]
pub struct BitWriter {
    pub low: u64,
    pub high: u64,
    pub at: u32,
}

impl BitWriter {
    pub fn new() -> Self
        ensures { result ≡ writer_of 0 0 }
    {
        BitWriter {
            low: 0,
            high: 0,
            at: 0,
        }
    }

    // A value of `count` bits, put on top of what is written. What is past bit 63 goes to `high`, moved down by 64 - at, in two shifts
    // as in the reader's window.
    pub fn push(self, value: u64, count: u32) -> Self
        requires { Pushable self value count }
        ensures { result ≡ pushed self value count }
    {
        let at = self.at;
        if at < 64 {
            BitWriter {
                low: self.low | (value << at),
                high: self.high | ((value >> 1) >> (63 - at)),
                at: at + count,
            }
        } else if at < 128 {
            BitWriter {
                low: self.low,
                high: self.high | (value << (at - 64)),
                at: at + count,
            }
        } else {
            self
        }
    }

    // The bytes, those of `low` first.
    pub fn finish(self) -> [u8; 16]
        ensures { result ≡ bytes_of (written self) }
    {
        let mut bytes = [0u8; 16];
        bytes[..8].copy_from_slice(&self.low.to_le_bytes());
        bytes[8..].copy_from_slice(&self.high.to_le_bytes());
        bytes
    }
}
