// What the programs that read standard input and write standard output share: an input and an output read and written whole, in as many reads and
// writes as it takes, also where a signal interrupts one; and how a run ends. What the system reads and writes is what it says; how many bytes, and
// that every loop ends, is proved. Where the bytes of an input or an output are known, as in memory, it is proved too which are read and written.

#![tactic(auto)]

ghost use Rattle.std.specs.Prelude.{◌≡◌, ◌<◌, ◌≤◌, length, take, IfOk, OnErr, OnOk};
ghost use Rattle.std.specs.Io.KnownBytes.{Appends, Consumes, IsAtEnd, Keeps};
ghost use Rattle.pipes.specs.Moving.{ReadsWanted};

use std::env::{Env, FillError};
use std::io;
use std::io::{Eprint, ErrorKind, Read, Write};
use std::process::ExitCode;

// How often a read or a write is tried again that a signal interrupts: a loop has to end.
const TRIES: u32 = 4294967295;

// How many bytes one read moved: none, where the input has ended.
fn read_some<R: Read>(from: &mut R, buffer: &mut [u8]) -> io::Result<usize>
    ensures few { IfOk result (λ count. count ≤ length buffer.new) }
    ensures next { IfOk result (λ count. Consumes (R.remaining from.old) (R.remaining from.new) (take count buffer.new)) }
    ensures err { OnErr result (Keeps (R.remaining from.old) (R.remaining from.new)) }
    ensures end { IfOk result (λ count. count ≡ 0 → 0 < length buffer.old → IsAtEnd (R.remaining from.new)) }
{
    for _ in 0..TRIES {
        match from.read(buffer) {
            Ok(count) => return Ok(count),
            Err(e) => {
                if e.kind() != ErrorKind::Interrupted {
                    return Err(e);
                }
            }
        }
    }
    Err(io::Error::from(ErrorKind::Interrupted))
}

// The next n bytes of the input to the start of the buffer, in as many reads as it takes; fewer where the input ends.
pub fn read_wanted<R: Read>(from: &mut R, n: usize, buffer: &mut [u8]) -> io::Result<usize>
    requires { n ≤ length buffer.old }
    ensures wanted { ReadsWanted n buffer.old buffer.new result }
    ensures next { IfOk result (λ count. Consumes (R.remaining from.old) (R.remaining from.new) (take count buffer.new)) }
    ensures end { IfOk result (λ count. count < n → IsAtEnd (R.remaining from.new)) }
{
    let mut done: usize = 0;
    while done < n {
        let count = read_some(from, &mut buffer[done..n])?;
        if count == 0 {
            break;
        }
        done += count;
    }
    Ok(done)
}

// How many bytes one write moved.
fn write_some<W: Write>(to: &mut W, text: &[u8]) -> io::Result<usize>
    ensures few { IfOk result (λ put. put ≤ length text.now) }
    ensures ok { IfOk result (λ put. Appends (W.contents to.old) (W.contents to.new) (take put text.now)) }
    ensures err { OnErr result (Keeps (W.contents to.old) (W.contents to.new)) }
{
    for _ in 0..TRIES {
        match to.write(text) {
            Ok(put) => return Ok(put),
            Err(e) => {
                if e.kind() != ErrorKind::Interrupted {
                    return Err(e);
                }
            }
        }
    }
    Err(io::Error::from(ErrorKind::Interrupted))
}

// The first n bytes of a text, in as many writes as it takes. Whether they took them.
pub fn write_whole<W: Write>(to: &mut W, n: usize, text: &[u8]) -> io::Result<()>
    requires { n ≤ length text.now }
    ensures { OnOk result (Appends (W.contents to.old) (W.contents to.new) (take n text.now)) }
{
    let mut done: usize = 0;
    while done < n {
        let put = write_some(to, &text[done..n])?;
        if put == 0 {
            return Err(io::Error::from(ErrorKind::WriteZero));
        }
        done += put;
    }
    Ok(())
}

// Why a run ends before its answer is out.
#[derive(Clone, Copy, PartialEq, Eq)]
pub enum Failure {
    CannotRead,
    CannotWrite,
    NobodyReads,
}

impl Failure {
    pub fn of_reading(_: io::Error) -> Failure {
        Failure::CannotRead
    }

    // Where nobody reads the pipe any more that is written to, that is no fault of the writer.
    pub fn of_writing(e: io::Error) -> Failure {
        match e.kind() {
            ErrorKind::BrokenPipe => Failure::NobodyReads,
            _ => Failure::CannotWrite,
        }
    }
}

// Whether the program was started with an argument. It may be longer than the one byte that it is asked for.
fn has_argument(rt: &impl Env) -> bool {
    let mut byte = [0u8; 1];
    !matches!(rt.arg(1, &mut byte), Err(FillError::NotPresent))
}

// What a run said of its input.
#[derive(Clone, Copy, PartialEq, Eq)]
pub enum Verdict {
    Accepted,
    Refused,
}

// How a program ends: with status 0, also where the input was refused, or could not be read, or the answer not written, which it says on standard
// error. That the input was refused it says there only where it was started with an argument, whatever it is, so that the one who started it can tell.
// Where nobody reads any more, it says nothing, and ends with the status that a shell gives a program that the signal 13 ended.
pub fn end<R: Env + Eprint>(rt: &R, program: &str, run: Result<Verdict, Failure>) -> ExitCode {
    let _ = match run {
        Ok(Verdict::Accepted) => Ok(()),
        Ok(Verdict::Refused) => {
            if has_argument(rt) {
                rt.eprintln("refused")
            } else {
                Ok(())
            }
        }
        Err(Failure::CannotRead) => eprintln!(rt; "{program}: cannot read"),
        Err(Failure::CannotWrite) => eprintln!(rt; "{program}: cannot write"),
        Err(Failure::NobodyReads) => return ExitCode::from(128 + 13),
    };
    ExitCode::SUCCESS
}
