// Do values fit their widths? Eight bytes at a time under one mask, where they stand together.
ghost use Rattle.std.specs.Prelude.{◌≡◌, ◌/◌, ◌%◌, ◌^◌, ◌<◌, ◌≤◌, eqb, ltb, get_or, replicate};
ghost use Rattle.laws.specs.Digits.{split};
ghost use Rattle.laws.specs.Tables.{below, pick};
ghost use Rattle.bc7_places.specs.Places.{ByteWidths};

use bits::stream::BitStream;

// What a value has above its width: nothing, where it fits. A sum of these is 0 where all fit.
pub fn above(value: u8, width: u32) -> u64
    requires { width < 64 }
    ensures { result ≡ value / 2 ^ width }
{
    (value as u64) >> width
}

// Do eight bytes, two endpoints of red, green, blue and alpha, fit these widths? One mask holds the bits that none may have: a
// byte of width w may not have those of 256 - 2 ^ w, and the products lay that out at the bytes of either width.
pub fn pair_fits(bytes: u64, colour: u32, alpha: u32) -> bool
    requires { ByteWidths colour alpha }
    ensures { result ≡ below 8 (λ i. ltb (get_or (split (replicate 8 8) bytes) i 0) (2 ^ pick (eqb (i % 4) 3) alpha colour)) }
{
    let over = (256 - (1u64 << colour)) * 0x0001_0101_0001_0101
        + (256 - (1u64 << alpha)) * 0x0100_0000_0100_0000;
    bytes & over == 0
}

// Do sixteen indexes fit a width?
pub fn indexes_fit(indexes: [u8; 16], width: u32) -> bool
    requires { width ≤ 8 }
    ensures { result ≡ below 16 (λ q. ltb (get_or indexes q 0) (2 ^ width)) }
{
    let bytes = BitStream::new(indexes);
    pair_fits(bytes.low, width, width) && pair_fits(bytes.high, width, width)
}
