// The program `bitchart`: the bit chart of a block that comes on standard input. It reads what the library `chart` wants, hands over what
// came, and writes the answer; what is wanted and what is printed is decided there. How it ends is `pipes::end`.

#![tactic(auto)]

ghost use Rattle.std.specs.Prelude.{◌≤◌, length};
ghost use Rattle.chart_rules.specs.Charts.{wanted_bytes};

use pipes::{Failure, Verdict, read_wanted, write_whole};
use std::io::{Read, Write};
use std::process::ExitCode;

fn chart_with<R: Read, W: Write>(
    from: &mut R,
    to: &mut W,
    buffer: &mut [u8],
) -> Result<Verdict, Failure>
    requires { wanted_bytes ≤ length buffer.old }
{
    let count = read_wanted(from, chart::wanted(), buffer).map_err(Failure::of_reading)?;
    let chart = chart::chart(&buffer[..count]);
    write_whole(to, chart.length, &chart.text).map_err(Failure::of_writing)?;
    if chart.refusal.is_some() {
        return Ok(Verdict::Refused);
    }
    Ok(Verdict::Accepted)
}

fn main(rt: HostRuntime) -> ExitCode {
    let mut buffer = [0u8; 17];
    let run = chart_with(&mut rt.stdin(), &mut rt.stdout(), &mut buffer);
    pipes::end(&rt, "bitchart", run)
}
