// The head of a sheet: numbers in groups of seven bits, and the form, width, height and colour space that they spell. The forms and the
// largest side of a sheet are named here, and nowhere else in the code.

#![tactic(auto)]

ghost use Rattle.std.specs.Prelude.{◌≡◌, ◌≤◌, ◌<◌, drop, IfErr, IfOk};
ghost use Rattle.refusals.specs.Answers.{number_of};
ghost use Rattle.head_rules.specs.Answers.{bytes_known, head_answered, known, no_head, number_answered, number_known};
ghost use Rattle.head_rules.specs.Numbers.{number_bytes, numbers_end, raised, read_groups, read_number};
ghost use Rattle.head_rules.specs.Heads.{ReadsHead, Sized, WritesHead, form_number, head_bytes, read_head, read_of_form, seven_of};
ghost use Rattle.head_rules.specs.Heads.{read_of_form_with, size_refusal, with_bytes, write_form};
ghost use Rattle.head_rules.specs.Whole.{whole_head};
ghost use Rattle.sheet_head.specs.Promised.{Pushes, TakesNumber};

use crate::geometry::whole_length;
use crate::reader::{has_ended, start, take_number};
use head_rules::{Form, FormBytes, Head, HeadBytes, HeadReader, Number};
use refusal_numbers::number;
use refusals::Refusal;

pub mod colours;
pub mod geometry;
pub mod reader;

// The form of a sheet whose blocks stand row by row, and of one whose blocks stand in tiles.
const ROWS: u32 = 1;

const TILES: u32 = 2;

// The largest width and height.
const LIMIT: u32 = 16384;

fn wide(x: u8) -> u32
    ensures { result ≡ x }
{
    x as u32
}

// A byte's seven bits below the number that the next bytes spell. Where that is 0 its only group is empty, so that the form is not the
// shortest.
fn raise(byte: u8, above: Number) -> Result<Number, Refusal>
    requires { above.value < 16384 }
    ensures { number_answered result ≡ raised byte (number_known above) }
{
    if above.value == 0 {
        return Err(Refusal::BadNumber);
    }
    Ok(Number {
        value: above.value * 128 + wide(byte % 128),
        next: above.next,
    })
}

// The number at a place, in one group, in at most two, in at most three. Written out, for a function that calls itself is not
// inlined, and one with the count of groups as a const parameter would have to compute the next.
fn one_group(s: &[u8], at: usize) -> Result<Number, Refusal>
    ensures { number_answered result ≡ read_groups 1 at (drop at s.now) }
{
    if at >= s.len() {
        return Err(Refusal::BadNumber);
    }
    let byte = s[at];
    if byte < 128 {
        return Ok(Number {
            value: wide(byte),
            next: at + 1,
        });
    }
    Err(Refusal::BadNumber)
}

fn two_groups(s: &[u8], at: usize) -> Result<Number, Refusal>
    ensures { number_answered result ≡ read_groups 2 at (drop at s.now) }
{
    if at >= s.len() {
        return Err(Refusal::BadNumber);
    }
    let byte = s[at];
    if byte < 128 {
        return Ok(Number {
            value: wide(byte),
            next: at + 1,
        });
    }
    raise(byte, one_group(s, at + 1)?)
}

fn read_number(s: &[u8], at: usize) -> Result<Number, Refusal>
    ensures { number_answered result ≡ read_number s.now at }
{
    if at >= s.len() {
        return Err(Refusal::BadNumber);
    }
    let byte = s[at];
    if byte < 128 {
        return Ok(Number {
            value: wide(byte),
            next: at + 1,
        });
    }
    raise(byte, two_groups(s, at + 1)?)
}

// 9, where the width or the height is none.
pub fn check_size(width: u32, height: u32) -> Result<(), Refusal>
    ensures { number_of result ≡ size_refusal width height }
{
    if width < 1 || width > LIMIT || height < 1 || height > LIMIT {
        return Err(Refusal::BadSide);
    }
    Ok(())
}

// The next number of a sheet, taken by the reader of its head.
fn next_number(sheet: &[u8], reader: HeadReader) -> Result<HeadReader, Refusal>
    requires { reader.head.start ≤ 9 }
    ensures { TakesNumber sheet.now reader result }
{
    if has_ended(reader) {
        return Ok(reader);
    }
    let number = read_number(sheet, reader.head.start as usize)?;
    take_number(reader, number.value, number.next as u32)
}

// The head that the bytes of a sheet start with: three numbers, and one more in form 2. They are read in a loop, for then the compiler lays
// its rounds out, each for its stage: a head is read in a third of what four calls take. A reader that has ended answers at once: handed on
// through another round as a `Result`, it makes a head take a quarter more.
pub fn read_head(sheet: &[u8]) -> Result<Head, Refusal>
    ensures { ReadsHead sheet.now result }
{
    let mut reader = start();
    for i in 0..4usize {
        if has_ended(reader) {
            return Ok(reader.head);
        }
        reader = next_number(sheet, reader)?;
    }
    Ok(reader.head)
}

// The number of a form: a function and no `From`, for the form is declared in head_rules, which holds no code.
pub fn number_of_form(form: Form) -> u32
    ensures { result ≡ form_number form }
{
    match form {
        Form::Rows => ROWS,
        Form::Tiles => TILES,
    }
}

// The same for a call that takes one form only: 8 for the other, before anything behind it.
pub fn read_of_form(form: Form, sheet: &[u8]) -> Result<Head, Refusal>
    ensures { head_answered result ≡ read_of_form form sheet.now }
{
    let number = read_number(sheet, 0)?;
    if number.value != number_of_form(form) {
        return Err(Refusal::UnknownForm);
    }
    read_head(sheet)
}

// The same for a call that has a test of its own to look at behind the head's other refusals and before 9, the last of them.
pub fn read_of_form_with(
    form: Form,
    own: Result<(), Refusal>,
    sheet: &[u8],
) -> Result<Head, Refusal>
    ensures { head_answered result ≡ read_of_form_with (number_of own) form sheet.now }
{
    match read_of_form(form, sheet) {
        Ok(head) => own.and(Ok(head)),
        Err(refusal) => match refusal {
            Refusal::BadSide => own.and(Err(refusal)),
            _ => Err(refusal),
        },
    }
}

// The same where that test answers a number, 0 for none, which need be no refusal's.
pub fn read_of_form_numbered(form: Form, own: u8, sheet: &[u8]) -> Result<Head, u8>
    ensures head { IfOk result (λ head. known head ≡ read_of_form_with own form sheet.now) }
    ensures number { IfErr result (λ given. no_head given ≡ read_of_form_with own form sheet.now) }
{
    match read_of_form(form, sheet) {
        Ok(head) => { if own == 0 { Ok(head) } else { Err(own) } }
        Err(refusal) => {
            if own == 0 {
                return Err(number(refusal));
            }
            match refusal {
                Refusal::BadSide => Err(own),
                _ => Err(number(refusal)),
            }
        }
    }
}

// The head of a sheet that is there whole, with every block that its head says and no byte more; or the first refusal that applies: the
// head's, 10. `head` is what was read of that sheet.
pub fn whole(head: Result<Head, Refusal>, sheet: &[u8]) -> Result<Head, Refusal>
    requires { (head_answered head).refusal ≡ 0 → Sized (head_answered head).width (head_answered head).height }
    ensures { head_answered result ≡ whole_head (head_answered head) sheet.now }
{
    match head {
        Ok(read) => {
            if sheet.len() != whole_length(read) {
                return Err(Refusal::WrongBlockBytes);
            }
            Ok(read)
        }
        Err(refusal) => Err(refusal),
    }
}

// The head of a sheet that is there whole, or the first refusal that applies: the head's, 10; and the same for a call that takes one form
// only.
pub fn read_whole(sheet: &[u8]) -> Result<Head, Refusal>
    ensures { head_answered result ≡ whole_head (read_head sheet.now) sheet.now }
{
    whole(read_head(sheet), sheet)
}

pub fn read_whole_of_form(form: Form, sheet: &[u8]) -> Result<Head, Refusal>
    ensures { head_answered result ≡ whole_head (read_of_form form sheet.now) sheet.now }
{
    whole(read_of_form(form, sheet), sheet)
}

// One byte more.
fn push(h: HeadBytes, byte: u8) -> HeadBytes
    requires { h.count < 7 }
    ensures { Pushes h byte result }
{
    let mut bytes = h.bytes;
    let at = h.count as usize;
    bytes[at] = byte;
    HeadBytes {
        bytes,
        count: h.count + 1,
    }
}

// A number's bytes more.
fn write_number(h: HeadBytes, n: u32) -> HeadBytes
    requires { (h.count ≤ 4) × (n < numbers_end) }
    ensures { bytes_known result ≡ with_bytes (bytes_known h) (number_bytes n) }
{
    if n < 128 {
        return push(h, n as u8);
    }
    let one = push(h, (n % 128 + 128) as u8);
    let above = n / 128;
    if above < 128 {
        return push(one, above as u8);
    }
    let two = push(one, (above % 128 + 128) as u8);
    push(two, (above / 128) as u8)
}

// The head of a sheet, to be written before its blocks.
pub fn write_head(width: u32, height: u32) -> Result<HeadBytes, Refusal>
    ensures { WritesHead width height result }
{
    check_size(width, height)?;
    Ok(bytes_of(width, height))
}

// The bytes of the head of a sheet that has a size.
pub fn bytes_of(width: u32, height: u32) -> HeadBytes
    requires { Sized width height }
    ensures { bytes_known result ≡ seven_of (head_bytes width height) }
{
    let none = HeadBytes {
        bytes: [0u8; 7],
        count: 0,
    };
    write_number(write_number(write_number(none, ROWS), width), height)
}

// The head in a form that says no colour space: in form 2 its number is 0, the zero behind.
pub fn write_form(form: Form, width: u32, height: u32) -> FormBytes
    requires { Sized width height }
    ensures { result ≡ write_form form width height }
{
    let written = bytes_of(width, height);
    let b = written.bytes;
    match form {
        Form::Rows => FormBytes {
            bytes: [b[0], b[1], b[2], b[3], b[4], b[5], b[6], 0],
            count: written.count,
        },
        Form::Tiles => FormBytes {
            bytes: [TILES as u8, b[1], b[2], b[3], b[4], b[5], b[6], 0],
            count: written.count + 1,
        },
    }
}
