// Answers the questions on standard input, each by a line on standard output: what the library answers, and what stands beside a
// refusal, which the C interface does not show.
//
// The first byte of a question says what is asked, and so how many bytes the question has. Behind it stand:
//
// - 0, 227 bytes: R, L, M, X, and 222 bytes that are not looked at. `fresh NUMBER STATE`
// - 1, 227 bytes: a flat state. `rule NUMBER`, 41 to 47 for the first state rule that it breaks, 0 where it breaks none
// - 2, 231 bytes: kind, a, b, e, and a flat state. `act NUMBER MEMBER STATE`
// - 3, 232 bytes: five places, and a flat state. `rename NUMBER STATE`
// - 4, 227 bytes: a flat state. `representative NUMBER STATE`
// - 5, 227 bytes: a flat state. `weak NUMBER HOLDS LEADER MEMBER OFFSET`
// - 6, 227 bytes: a flat state. `strong NUMBER HOLDS LEADER MEMBER OFFSET`
// - 7, 228 bytes: kind, and a flat state. `offer NUMBER A B E`
// - 8, 228 bytes: n, and a flat state, to be written into a buffer of n bytes that all hold 238. `write NUMBER LENGTH BYTES`
// - 9, 2 + n bytes: n, and n bytes to be read as an image. `read NUMBER STATE`
// - any other, 227 bytes that are not looked at. `unknown`
//
// NUMBER is 0 for accepted, or why it is refused. MEMBER of an action is the member that its answer names, else 0. STATE is the
// flat form of the state that the answer holds, accepted or refused. HOLDS is 1 where the property holds, else 0. LENGTH is the
// image's length as it is answered, and BYTES is the whole buffer afterwards; where n is 0 the line ends behind LENGTH, with no
// space. STATE and BYTES have two hexadecimal digits for each byte, in capitals; all else is decimal. A last question that is not
// whole is not answered.
#![tactic(auto)]

mod print;

ghost use Rattle.std.specs.Prelude.{◌≤◌};

use cluster::{Action, State, limits_at};
use flat::read::state_of;
use questions::Property;
use std::io;
use std::io::Read;
use std::process::ExitCode;

// The most bytes that a question has.
const LONGEST: usize = 257;

// How many bytes a question has, by its first two, which every question has; 2 as long as these are not there.
fn question_length(question: &[u8; LONGEST], at: usize) -> usize
    ensures { result ≤ 257 }
{
    if at < 2 {
        return 2;
    }
    match question[0] {
        2 => flat::WIDTH + 5,
        3 => flat::WIDTH + 6,
        7 | 8 => flat::WIDTH + 2,
        9 => question[1] as usize + 2,
        _ => flat::WIDTH + 1,
    }
}

// Kind, a, b and e.
fn action_of(question: &[u8; LONGEST]) -> Action {
    let &[_, kind, a, b, e, ..] = question;
    Action { kind, a, b, e }
}

// The five places.
fn places_of(question: &[u8; LONGEST]) -> [u8; 5] {
    let &[_, a, b, c, d, e, ..] = question;
    [a, b, c, d, e]
}

// What writing the image of a state into a buffer of n bytes answers, which all hold 238, and leaves there.
fn write(out: &impl Print, s: State, n: u8) -> io::Result<()> {
    let mut buffer = [238u8; 255];
    let space = &mut buffer[..n as usize];
    let answer = images::write_image(s, space);
    print::image(out, answer, space)
}

// What reading the bytes of a question as an image answers.
fn read(out: &impl Print, question: &[u8; LONGEST]) -> io::Result<()> {
    let end = question[1] as usize + 2;
    print::outcome(out, "read", images::read_image(&question[2..end]))
}

// Answers a question by its first byte, as the list above has it.
fn answer(out: &impl Print, question: &[u8; LONGEST]) -> io::Result<()> {
    match question[0] {
        0 => print::outcome(out, "fresh", State::fresh(limits_at(question, 1))),
        1 => print::rule(out, state_of(&question[1..]).validate()),
        2 => print::act(out, state_of(&question[5..]).act(action_of(question))),
        3 => print::outcome(
            out,
            "rename",
            renamings::rename(state_of(&question[6..]), places_of(question)),
        ),
        4 => print::outcome(
            out,
            "representative",
            representatives::representative(state_of(&question[1..])),
        ),
        5 => print::isr(
            out,
            "weak",
            questions::ask_isr(Property::WeakIsr, state_of(&question[1..])),
        ),
        6 => print::isr(
            out,
            "strong",
            questions::ask_isr(Property::StrongIsr, state_of(&question[1..])),
        ),
        7 => print::offer(out, questions::offer(state_of(&question[2..]), question[1])),
        8 => write(out, state_of(&question[2..]), question[1]),
        9 => read(out, question),
        _ => print::unknown(out),
    }
}

// Says on standard error which stream failed and why, and answers the exit status. Where that fails too, there is nowhere to say so.
fn fail(rt: &impl Eprint, stream: &str, error: io::Error) -> ExitCode {
    let _ = eprintln!(rt; "answers: {stream}: {error}");
    ExitCode::FAILURE
}

// Reads to the end of the input, and answers each question once it is whole. A proved loop has to end, so it counts its turns, to a
// number that no input reaches. How far a turn goes is what the read answers, so the place in the question is kept beside it.
fn answer_all(rt: &(impl Print + Eprint), input: &mut impl Read) -> ExitCode {
    let mut question = [0u8; LONGEST];
    let mut at: usize = 0;
    let mut end: usize = 2;
    for _ in 0..u64::MAX {
        let more = match input.read(&mut question[at..end]) {
            Ok(more) => more,
            Err(error) => return fail(rt, "standard input", error),
        };
        if more == 0 {
            return ExitCode::SUCCESS;
        }
        at += more;
        end = question_length(&question, at);
        if end <= at {
            if let Err(error) = answer(rt, &question) {
                return fail(rt, "standard output", error);
            }
            at = 0;
            end = 2;
        }
    }
    ExitCode::SUCCESS
}

fn main(rt: HostRuntime) -> ExitCode {
    answer_all(&rt, &mut rt.stdin())
}
