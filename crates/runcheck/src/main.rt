// Judges the run on standard input, and prints its verdict on standard output.
#![tactic(auto)]

mod input;
mod print;

use std::io;
use std::process::ExitCode;

// Says on standard error which stream failed and why, and answers the exit status. Where that fails too, there is nowhere to say so.
fn fail(rt: &impl Eprint, stream: &str, error: io::Error) -> ExitCode {
    let _ = eprintln!(rt; "runcheck: {stream}: {error}");
    ExitCode::FAILURE
}

fn main(rt: HostRuntime) -> ExitCode {
    let mut kept = input::room();
    let length = match input::read_all(&mut rt.stdin(), &mut kept) {
        Ok(length) => length,
        Err(error) => return fail(&rt, "standard input", error),
    };
    match print::verdict(&rt, runs::judge(&kept[..length])) {
        Ok(()) => ExitCode::SUCCESS,
        Err(error) => fail(&rt, "standard output", error),
    }
}
