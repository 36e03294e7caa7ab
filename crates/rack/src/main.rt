// "The program reads up to 16,385 bytes and prints the record, or `(bad K L)`": the library makes what is printed. A text that can't be read
// to its end is not run, and that, or a record that can't be written, is said on standard error, and ends the program with status 1.
#![tactic(auto)]

ghost use Rattle.std.specs.Prelude.{◌≡◌};
ghost use Rattle.std.specs.Process.{exit_status};

mod input;
mod output;

use std::io;
use std::process::ExitCode;

fn main(rt: HostRuntime) -> ExitCode {
    let mut text = [0u8; run::TEXT_LIMIT + 1];
    let n = match input::read_text(&mut rt.stdin(), &mut text) {
        Ok(n) => n,
        Err(e) => return failed(&rt, "reading the trace", e),
    };
    let mut rack = [0u8; layout::shape::RACK_BYTES];
    let mut space = [0u8; run::RECORD_SPACE];
    let k = run::show(&mut rack, &text[..n], &mut space);
    match output::write_text(&mut rt.stdout(), &space[..k]) {
        Ok(()) => ExitCode::SUCCESS,
        Err(e) => failed(&rt, "writing the record", e),
    }
}

// Says on standard error what failed, and why.
fn failed(rt: &impl Eprint, what: &str, why: io::Error) -> ExitCode
    ensures { exit_status result ≡ 1 }
{
    let _ = eprintln!(rt; "rack: {what}: {why}");
    ExitCode::FAILURE
}
