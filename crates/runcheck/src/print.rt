// The verdict as seven lines of text.
use cluster::State;
use parts::refusal::Refusal;
use runs::Verdict;
use std::io;

// Bytes in hexadecimal, two digits for each, in capitals.
fn hex(out: &impl Print, bytes: &[u8]) -> io::Result<()> {
    for byte in bytes {
        print!(out; "{byte:02X}")?;
    }
    Ok(())
}

// The image of the state; `none` where there is none to write, as of the all-zero state.
fn image(out: &impl Print, s: State) -> io::Result<()> {
    let mut space = [0u8; images::LONGEST];
    match images::write_image(s, &mut space) {
        Ok(length) => hex(out, &space[..length]),
        Err(_) => print!(out; "none"),
    }
}

// The seven lines of a verdict. Functions and no `Display`: each line, and each byte of the state, is a write of its own, so a reader
// that leaves at any of them is noticed.
pub(crate) fn verdict(out: &impl Print, v: Verdict) -> io::Result<()> {
    println!(out; "accepted {}", v.tally.accepted)?;
    println!(out; "refusal {}", v.refusal.map_or(0, Refusal::number))?;
    println!(out; "at {}", v.at)?;
    println!(out; "weak {}", v.tally.weak.unwrap_or(0))?;
    println!(out; "strong {}", v.tally.strong.unwrap_or(0))?;
    println!(out; "exposed {}", v.tally.exposed)?;
    print!(out; "state ")?;
    image(out, v.state)?;
    println!(out)
}
