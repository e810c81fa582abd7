// The partitions as document 002 prints them: sixteen digits, a pixel's subset each, and a dash before a pixel that is an anchor. Pixel 0 is
// always one and has no dash. Nothing is made of them beforehand: each question walks the string.
ghost use Rattle.std.specs.Prelude.{◌≡◌, ◌<◌};
ghost use Rattle.pixel_rules.specs.Strings.{anchors_before, is_anchor_in, letters, place_in, string_for, subset_spelt};
ghost use Rattle.bc7_plain.specs.Asked.{PixelOfString, PixelsBefore};

const ONE: [u8; 16] = *b"0000000000000000";

const TWO: [[u8; 17]; 64] = [
    *b"001100110011001-1",
    *b"000100010001000-1",
    *b"011101110111011-1",
    *b"000100110011011-1",
    *b"000000010001001-1",
    *b"001101110111111-1",
    *b"000100110111111-1",
    *b"000000010011011-1",
    *b"000000000001001-1",
    *b"001101111111111-1",
    *b"000000010111111-1",
    *b"000000000001011-1",
    *b"000101111111111-1",
    *b"000000001111111-1",
    *b"000011111111111-1",
    *b"000000000000111-1",
    *b"000010001110111-1",
    *b"01-11000100000000",
    *b"00000000-10001110",
    *b"01-11001100010000",
    *b"00-11000100000000",
    *b"00001000-11001110",
    *b"00000000-10001100",
    *b"011100110011000-1",
    *b"00-11000100010000",
    *b"00001000-10001100",
    *b"01-10011001100110",
    *b"00-11011001101100",
    *b"00010111-11101000",
    *b"00001111-11110000",
    *b"01-11000110001110",
    *b"00-11100110011100",
    *b"010101010101010-1",
    *b"000011110000111-1",
    *b"010110-1001011010",
    *b"00110011-11001100",
    *b"00-11110000111100",
    *b"01010101-10101010",
    *b"011010010110100-1",
    *b"010110101010010-1",
    *b"01-11001111001110",
    *b"00010011-11001000",
    *b"00-11001001001100",
    *b"00-11101111011100",
    *b"01-10100110010110",
    *b"001111001100001-1",
    *b"011001101001100-1",
    *b"000001-1001100000",
    *b"010011-1001000000",
    *b"00-10011100100000",
    *b"000000-1001110010",
    *b"00000100-11100100",
    *b"011011001001001-1",
    *b"001101101100100-1",
    *b"01-10001110011100",
    *b"00-11100111000110",
    *b"011011001100100-1",
    *b"011000110011100-1",
    *b"011111101000000-1",
    *b"000110001110011-1",
    *b"000011110011001-1",
    *b"00-11001111110000",
    *b"00-10001011101110",
    *b"010001000111011-1",
];

const THREE: [[u8; 18]; 64] = [
    *b"001-100110221222-2",
    *b"000-10011-22112221",
    *b"00002001-2211221-1",
    *b"022-200220011011-1",
    *b"00000000-1122112-2",
    *b"001-100110022002-2",
    *b"002-200221111111-1",
    *b"00110011-2211221-1",
    *b"00000000-1111222-2",
    *b"00001111-1111222-2",
    *b"000011-112222222-2",
    *b"001200-120012001-2",
    *b"011201-120112011-2",
    *b"01220-1220122012-2",
    *b"001-101121122122-2",
    *b"001-12001-22002220",
    *b"000-100110112112-2",
    *b"011-10011-20012200",
    *b"00001122-1122112-2",
    *b"002-200220022111-1",
    *b"011-101110222022-2",
    *b"000-10001-22212221",
    *b"000000-110122012-2",
    *b"00001100-22-102210",
    *b"012-20-12200110000",
    *b"00120012-1122222-2",
    *b"011012-21-12210110",
    *b"000001-1012-211221",
    *b"00221102-1102002-2",
    *b"01100-1102002222-2",
    *b"0011012201-22001-1",
    *b"00002000-2211222-1",
    *b"00000002-1122122-2",
    *b"022-200220012001-1",
    *b"001-100120022022-2",
    *b"01200-12001-200120",
    *b"000011-1122-220000",
    *b"01201201-20-120120",
    *b"01202012-1-2010120",
    *b"0011220011-22001-1",
    *b"001111-222200001-1",
    *b"010-101012222222-2",
    *b"00000000-2121212-1",
    *b"00221-1220022112-2",
    *b"002-200110022001-1",
    *b"022012-210220122-1",
    *b"010122-222222010-1",
    *b"00002121-2121212-1",
    *b"010-101010101222-2",
    *b"022-201110222011-1",
    *b"00021-1120002111-2",
    *b"00002-1122112211-2",
    *b"02220-1110111022-2",
    *b"00021112-1112000-2",
    *b"01100-1100110222-2",
    *b"0000000021-12211-2",
    *b"01100-1102222222-2",
    *b"0022001100-11002-2",
    *b"00221122-1122002-2",
    *b"0000000000002-11-2",
    *b"000-200010002000-1",
    *b"022212220222-122-2",
    *b"010-122222222222-2",
    *b"011-12011-22012220",
];

// The string of a partition: of one subset, of two or of three.
pub fn string_of(subsets: usize, partition: usize) -> &'static [u8]
    requires { partition < 64 }
    ensures { result.now ≡ letters (string_for subsets partition) }
{
    if subsets == 1 {
        return &ONE;
    }
    if subsets == 2 {
        return &TWO[partition];
    }
    &THREE[partition]
}

// Where the digit of a pixel stands: dashes are passed, and count for no pixel.
fn place(string: &[u8], pixel: usize) -> usize
    ensures { result ≡ place_in string.now pixel }
{
    let mut left = pixel;
    for (k, &letter) in string.iter().enumerate() {
        if letter != b'-' {
            if left == 0 {
                return k;
            }
            left -= 1;
        }
    }
    string.len()
}

// The subset of a pixel: its digit.
pub fn subset(string: &[u8], pixel: usize) -> usize
    requires { PixelOfString string.now pixel }
    ensures { result ≡ subset_spelt string.now pixel }
{
    let k = place(string, pixel);
    (string[k] - b'0') as usize
}

// Is a pixel an anchor: pixel 0, or one with a dash before its digit?
pub fn is_anchor(string: &[u8], pixel: usize) -> bool
    requires { PixelOfString string.now pixel }
    ensures { result ≡ is_anchor_in string.now pixel }
{
    if pixel == 0 {
        return true;
    }
    let k = place(string, pixel);
    string[k - 1] == b'-'
}

// How many anchors come before a pixel: pixel 0, and one for each dash up to the digit of the pixel before.
pub fn anchors_before(string: &[u8], pixel: usize) -> usize
    requires { PixelsBefore string.now pixel }
    ensures { result ≡ anchors_before string.now pixel }
{
    if pixel == 0 {
        return 0;
    }
    // Counted by a loop: as a chain of filter() and count() it is compiled wrong for wasm32 (docs/DECISIONS.md).
    let end = place(string, pixel - 1);
    let mut found: usize = 1;
    let mut k: usize = 0;
    while k < end {
        if string[k] == b'-' {
            found += 1;
        }
        k += 1;
    }
    found
}
