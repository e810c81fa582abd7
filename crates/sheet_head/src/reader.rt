// The head of a sheet as a machine: it takes a byte, or a whole number, and answers its next state. What comes byte by byte and
// what is there whole are read by the same states; another number in a head is another stage.
ghost use Rattle.std.specs.Prelude.{◌≡◌, ◌<◌, ◌≤◌};
ghost use Rattle.head_rules.specs.declared.ColourSpace.TheVariants.{Unspecified};
ghost use Rattle.head_rules.specs.Answers.{known, reader_answered, reader_known};
ghost use Rattle.head_rules.specs.Heads.{head_in};
ghost use Rattle.head_rules.specs.Reader.{Going, at_form, awaiting, byte_taken, colour_taken, empty_above, form_taken, group_taken, has_ended};
ghost use Rattle.head_rules.specs.Reader.{height_taken, last_taken, number_in, size_taken};
ghost use Rattle.sheet_head.specs.Asked.{LastAsked};
ghost use Rattle.sheet_head.specs.Promised.{CountsGroup};

use crate::colours::colour_numbered;
use crate::{ROWS, TILES, check_size, wide};
use head_rules::{ColourSpace, Form, Head, HeadReader, Stage};
use refusals::Refusal;

// Before a number.
fn at_stage(stage: Stage, head: Head) -> HeadReader
    ensures { reader_known result ≡ awaiting stage (known head) }
{
    HeadReader {
        stage,
        low: 0,
        groups: 0,
        head,
    }
}

// What is known of a head before the number of its colour space.
fn sides_known(form: Form, width: u32, height: u32, start: u32) -> Head
    ensures { known result ≡ head_in form Unspecified 0 width height start }
{
    Head {
        form,
        width,
        height,
        start,
        colour_space: ColourSpace::Unspecified,
    }
}

// Before the first byte.
pub fn start() -> HeadReader
    ensures { reader_known result ≡ at_form }
{
    at_stage(Stage::Form, sides_known(Form::Rows, 0, 0, 0))
}

// Whether no byte more is wanted.
pub fn has_ended(reader: HeadReader) -> bool
    ensures { result ≡ has_ended (reader_known reader) }
{
    match reader.stage {
        Stage::Form | Stage::Width | Stage::Height | Stage::Colour => false,
        Stage::Ended => true,
    }
}

fn take_form(n: u32, next: u32) -> Result<HeadReader, Refusal>
    ensures { reader_answered result ≡ form_taken n next }
{
    let form = match n {
        ROWS => Form::Rows,
        TILES => Form::Tiles,
        _ => return Err(Refusal::UnknownForm),
    };
    Ok(at_stage(Stage::Width, sides_known(form, 0, 0, next)))
}

// All numbers of a head have come.
fn take_size(head: Head) -> Result<HeadReader, Refusal>
    ensures { reader_answered result ≡ size_taken (known head) }
{
    check_size(head.width, head.height)?;
    Ok(at_stage(Stage::Ended, head))
}

// The height is the last in form 1, and not in form 2.
fn take_height(form: Form, width: u32, n: u32, next: u32) -> Result<HeadReader, Refusal>
    ensures { reader_answered result ≡ height_taken form width n next }
{
    let head = sides_known(form, width, n, next);
    match form {
        Form::Rows => take_size(head),
        Form::Tiles => Ok(at_stage(Stage::Colour, head)),
    }
}

fn take_colour(head: Head, n: u32, next: u32) -> Result<HeadReader, Refusal>
    ensures { reader_answered result ≡ colour_taken (known head) n next }
{
    let colour_space = colour_numbered(n)?;
    take_size(Head {
        start: next,
        colour_space,
        ..head
    })
}

// A number has come whole, and this is the place behind it. Refused is what is no number of its kind.
pub fn take_number(reader: HeadReader, n: u32, next: u32) -> Result<HeadReader, Refusal>
    ensures { reader_answered result ≡ number_in reader.stage (known reader.head) n next }
{
    let head = reader.head;
    match reader.stage {
        Stage::Form => take_form(n, next),
        Stage::Width => Ok(at_stage(Stage::Height, sides_known(head.form, n, 0, next))),
        Stage::Height => take_height(head.form, head.width, n, next),
        Stage::Colour => take_colour(head, n, next),
        Stage::Ended => Ok(at_stage(Stage::Ended, head)),
    }
}

// What seven bits count behind so many groups.
fn group(bits: u32, groups: u8) -> u32
    requires { (bits < 128) × (groups ≤ 2) }
    ensures { CountsGroup bits groups result }
{
    match groups {
        0 => bits,
        1 => bits * 128,
        _ => bits * 16384,
    }
}

// An empty group above others: there is a shorter form.
fn empty_above(byte: u8, groups: u8) -> bool
    ensures { result ≡ empty_above byte groups }
{
    groups > 0 && byte == 0
}

// A byte below 128 has come, the last of its number.
fn take_last(reader: HeadReader, byte: u8) -> Result<HeadReader, Refusal>
    requires { LastAsked (reader_known reader) byte }
    ensures { reader_answered result ≡ last_taken (reader_known reader) byte }
{
    if empty_above(byte, reader.groups) {
        return Err(Refusal::BadNumber);
    }
    let n = reader.low + group(wide(byte), reader.groups);
    take_number(reader, n, reader.head.start + wide(reader.groups) + 1)
}

// Any other byte: a group of seven bits, and more are to come.
fn take_group(reader: HeadReader, byte: u8) -> Result<HeadReader, Refusal>
    requires { Going (reader_known reader) }
    ensures { reader_answered result ≡ group_taken (reader_known reader) byte }
{
    if reader.groups == 2 {
        return Err(Refusal::BadNumber);
    }
    Ok(HeadReader {
        low: reader.low + group(wide(byte % 128), reader.groups),
        groups: reader.groups + 1,
        ..reader
    })
}

// A byte has come. An input that ends within a head is refused with 7, as the reader can't say.
pub fn take_byte(reader: HeadReader, byte: u8) -> Result<HeadReader, Refusal>
    requires { Going (reader_known reader) }
    ensures { reader_answered result ≡ byte_taken (reader_known reader) byte }
{
    if byte < 128 {
        return take_last(reader, byte);
    }
    take_group(reader, byte)
}
