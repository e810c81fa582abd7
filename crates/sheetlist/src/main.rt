// The program `sheetlist`: the listing of a sheet that comes on standard input. It reads what the machine of the library
// `listing` wants, hands it over, and writes what the machine says; what is wanted and what is printed is decided there. How it ends is `pipes::end`.

#![tactic(auto)]

ghost use Rattle.std.specs.Prelude.{length};
ghost use Rattle.sheetlist.specs.Asked.{RoomAsked};

use listing_rules::Phase;
use pipes::{Failure, Verdict, read_wanted, write_whole};
use std::io::{Read, Write};
use std::process::ExitCode;

fn list_with<R: Read, W: Write>(
    from: &mut R,
    to: &mut W,
    buffer: &mut [u8],
    text: &mut [u8],
) -> Result<Verdict, Failure>
    requires { RoomAsked (length buffer.old) (length text.old) }
{
    let mut machine = listing::start();
    while 0 < listing::wanted(machine) {
        let count = read_wanted(from, listing::wanted(machine), buffer).map_err(
            Failure::of_reading,
        )?;
        let said = listing::list(machine, &buffer[..count], 0, text);
        write_whole(to, said, text).map_err(Failure::of_writing)?;
        machine = listing::next(machine, &buffer[..count]);
    }
    match machine.phase {
        Phase::Listed => Ok(Verdict::Accepted),
        _ => Ok(Verdict::Refused),
    }
}

// A buffer of 16,384 zero bytes, for the 1,024 blocks of a run, which is as much as the machine ever wants; and room for what it says of
// that: 1,024 texts of 40 bytes, the first text and a refusal.
fn list_input<R: Read, W: Write>(from: &mut R, to: &mut W) -> Result<Verdict, Failure> {
    let mut buffer = [0u8; 16384];
    let mut text = [0u8; 41040];
    list_with(from, to, &mut buffer, &mut text)
}

fn main(rt: HostRuntime) -> ExitCode {
    let run = list_input(&mut rt.stdin(), &mut rt.stdout());
    pipes::end(&rt, "sheetlist", run)
}
