// Texts written straight to a place of the output: words, numbers in decimal, single spaces, and a refusal. Each function answers the place
// behind what it wrote, and no other byte changes. What a listing prints of a sheet is said in `listing`, and what a bit chart in `chart`.

#![tactic(auto)]

ghost use Rattle.std.specs.Prelude.{[], ◌∷◌, ◌+◌, ◌%◌, ◌<◌, ◌≤◌, length};
ghost use Rattle.laws.specs.Text.{decimal, last_four, refused_text, spaced};
ghost use Rattle.text.specs.Puts.{Puts};

// One byte.
pub fn put(byte: u8, at: usize, out: &mut [u8]) -> usize
    requires { at + 1 ≤ length out.old }
    ensures { Puts 1 out.old at (byte ∷ []) out.new result }
{
    out[at] = byte;
    at + 1
}

// A word.
pub fn put_word(word: &[u8], at: usize, out: &mut [u8]) -> usize
    requires { at + length word.now ≤ length out.old }
    ensures { Puts (length word.now) out.old at word.now out.new result }
{
    let end = at + word.len();
    out[at..end].copy_from_slice(word);
    end
}

// The last decimal digit of a number.
fn put_digit(n: u32, at: usize, out: &mut [u8]) -> usize
    requires { at + 1 ≤ length out.old }
    ensures { Puts 1 out.old at ((48 + n % 10) ∷ []) out.new result }
{
    put(b'0' + (n % 10) as u8, at, out)
}

// The last four decimal digits of a number, zeros in front too.
fn put_last_four(n: u32, at: usize, out: &mut [u8]) -> usize
    requires { at + 4 ≤ length out.old }
    ensures { Puts 4 out.old at (last_four n) out.new result }
{
    let hundreds = put_digit(n / 1000, at, out);
    let tens = put_digit(n / 100, hundreds, out);
    let ones = put_digit(n / 10, tens, out);
    put_digit(n, ones, out)
}

// A number of at most four digits, with no zero in front.
pub fn put_few(n: u32, at: usize, out: &mut [u8]) -> usize
    requires { (n < 10000) × (at + 4 ≤ length out.old) }
    ensures { Puts 4 out.old at (decimal n) out.new result }
{
    if n < 10 {
        return put_digit(n, at, out);
    }
    if n < 100 {
        let ones = put_digit(n / 10, at, out);
        return put_digit(n, ones, out);
    }
    if n < 1000 {
        let tens = put_digit(n / 100, at, out);
        let ones = put_digit(n / 10, tens, out);
        return put_digit(n, ones, out);
    }
    put_last_four(n, at, out)
}

// A number, four digits at a time: a number of 32 bits has at most ten.
pub fn put_number(n: u32, at: usize, out: &mut [u8]) -> usize
    requires { at + 12 ≤ length out.old }
    ensures { Puts 12 out.old at (decimal n) out.new result }
{
    if n < 10000 {
        return put_few(n, at, out);
    }
    let above = n / 10000;
    if above < 10000 {
        let low = put_few(above, at, out);
        return put_last_four(n, low, out);
    }
    let middle = put_few(above / 10000, at, out);
    let low = put_last_four(above, middle, out);
    put_last_four(n, low, out)
}

// A space and a byte in decimal.
pub fn put_spaced(n: u8, at: usize, out: &mut [u8]) -> usize
    requires { at + 5 ≤ length out.old }
    ensures { Puts 5 out.old at (spaced n) out.new result }
{
    let next = put(b' ', at, out);
    put_few(n as u32, next, out)
}

// The text of a refusal.
pub fn refused_text(refusal: u8, at: usize, out: &mut [u8]) -> usize
    requires { at + 40 ≤ length out.old }
    ensures { Puts 40 out.old at (refused_text refusal) out.new result }
{
    let said = put_spaced(refusal, put_word(b"refused", at, out), out);
    put(b'\n', said, out)
}
