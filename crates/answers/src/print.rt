// The answers as lines of text.
use cluster::{Refused, RefusedAction, State, ValidState};
use flat::write::put_state;
use parts::refusal::Refusal;
use questions::{Difference, Operands};
use std::io::{Cursor, Write};
use std::{fmt, io, str};

// Room for the longest line: `write`, two numbers of at most three digits and 255 bytes, with a space before each of the three, and
// the line's end.
const LINE: usize = 525;

// How many bytes are made text at a time.
const PART: usize = 128;

// A line, by one write. It is put together first: what is printed as it is formatted goes through a buffer byte by byte.
fn line<T: fmt::Display + Drop>(out: &impl Print, text: T) -> io::Result<()> {
    let mut line = Cursor::new([0u8; LINE]);
    writeln!(line, "{text}")?;
    let end = line.position().min(LINE as u64) as usize;
    out.write_all(&line.get_ref()[..end])
}

// The two hexadecimal digits of a byte, in capitals.
fn digits(byte: u8) -> [u8; 2] {
    let all = b"0123456789ABCDEF";
    [all[(byte / 16) as usize], all[(byte % 16) as usize]]
}

// Bytes in hexadecimal, two digits for each, in capitals.
#[derive(Clone, Copy)]
struct Hex<'a>(&'a [u8]);

impl fmt::Display for Hex<'_> {
    fn fmt<W: fmt::Write>(&self, f: &mut fmt::Formatter<W>) -> fmt::Result {
        for bytes in self.0.chunks(PART) {
            let mut text = [0u8; 2 * PART];
            for (pair, byte) in text.chunks_exact_mut(2).zip(bytes) {
                pair.copy_from_slice(&digits(*byte));
            }
            let text = &text[..2 * bytes.len().min(PART)];
            f.write_str(str::from_utf8(text).map_err(|_| fmt::Error)?)?;
        }
        Ok(())
    }
}

// The flat form of a state, in hexadecimal.
#[derive(Clone, Copy)]
struct Flat(State);

impl fmt::Display for Flat {
    fn fmt<W: fmt::Write>(&self, f: &mut fmt::Formatter<W>) -> fmt::Result {
        let mut bytes = [0u8; flat::WIDTH];
        put_state(&mut bytes, 0, &self.0);
        write!(f, "{}", Hex(&bytes))
    }
}

// What an action answers.
pub(crate) fn act(out: &impl Print, answer: Result<State, RefusedAction>) -> io::Result<()> {
    match answer {
        Ok(next) => line(out, format_args!("act 0 0 {}", Flat(next))),
        Err(r) => line(
            out,
            format_args!(
                "act {} {} {}",
                r.refusal.number(),
                r.member.unwrap_or(0),
                Flat(r.state)
            ),
        ),
    }
}

// A state that is answered, or that goes with a refusal.
pub(crate) fn outcome(
    out: &impl Print,
    name: &str,
    answer: Result<State, Refused>,
) -> io::Result<()> {
    match answer {
        Ok(s) => line(out, format_args!("{name} 0 {}", Flat(s))),
        Err(r) => line(
            out,
            format_args!("{name} {} {}", r.refusal.number(), Flat(r.state)),
        ),
    }
}

// Which state rule is broken, if any.
pub(crate) fn rule(out: &impl Print, answer: Result<ValidState, Refusal>) -> io::Result<()> {
    line(
        out,
        format_args!("rule {}", answer.err().map_or(0, Refusal::number)),
    )
}

// What weak or strong ISR answers.
pub(crate) fn isr(
    out: &impl Print,
    name: &str,
    answer: Result<Option<Difference>, Refusal>,
) -> io::Result<()> {
    match answer {
        Ok(None) => line(out, format_args!("{name} 0 1 0 0 0")),
        Ok(Some(d)) => line(
            out,
            format_args!("{name} 0 0 {} {} {}", d.leader, d.member, d.offset),
        ),
        Err(refusal) => line(out, format_args!("{name} {} 0 0 0 0", refusal.number())),
    }
}

// What an offer answers.
pub(crate) fn offer(out: &impl Print, answer: Result<Operands, Refusal>) -> io::Result<()> {
    match answer {
        Ok(o) => line(out, format_args!("offer 0 {} {} {}", o.a, o.b, o.e)),
        Err(refusal) => line(out, format_args!("offer {} 0 0 0", refusal.number())),
    }
}

// What writing an image answers, and the buffer afterwards.
pub(crate) fn image(
    out: &impl Print,
    answer: Result<usize, Refusal>,
    buffer: &[u8],
) -> io::Result<()> {
    let (number, length) = match answer {
        Ok(length) => (0, length),
        Err(refusal) => (refusal.number(), 0),
    };
    if buffer.is_empty() {
        return line(out, format_args!("write {number} {length}"));
    }
    line(out, format_args!("write {number} {length} {}", Hex(buffer)))
}

// The answer to a question whose first byte is above 9.
pub(crate) fn unknown(out: &impl Print) -> io::Result<()> {
    line(out, format_args!("unknown"))
}
