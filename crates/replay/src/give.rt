// What an answer puts at the front of the buffer: nothing where it is refused or the buffer is too short.
ghost use Rattle.std.specs.Prelude.{◌≡◌, ◌+◌, ◌*◌, ◌≤◌, length};
ghost use Rattle.logic.specs.Stores.{Stored};
ghost use Rattle.parts.specs.Refusal.{answer_number};
ghost use Rattle.cluster.specs.Answer.{outcome_of};
ghost use Rattle.questions.specs.Answer.{isr_answer_of, offer_answer_of};
ghost use Rattle.runs.specs.Answer.{verdict_of};
ghost use Rattle.flat.specs.Flat.{flat};
ghost use Rattle.replay.specs.Interface.{Replies, gives, outcome_reply, isr_reply, offer_reply, number_bytes, verdict_bytes};
ghost use Rattle.replay.specs.InterfaceLaws.{bytes_of_numbers};

use cluster::{Refused, State};
use flat::WIDTH;
use flat::write::put_state;
use parts::bytes::{put_bytes, put_each};
use parts::refusal::Refusal;
use questions::{Difference, Operands};
use runs::Verdict;

// How many bytes a number and a verdict have.
const NUMBER_WIDTH: usize = 4;

const VERDICT_WIDTH: usize = 250;

// The number that C sees: 0 where the answer was given, else why it was not.
pub(crate) fn number(answer: Result<(), Refusal>) -> u8
    ensures { result ≡ answer_number answer }
{
    answer.err().map_or(0, Refusal::number)
}

// A few bytes.
fn give_bytes(bytes: &[u8], out: &mut [u8]) -> Result<(), Refusal>
    ensures { Replies (gives bytes.now) out.old (answer_number result) out.new }
{
    if out.len() < bytes.len() {
        return Err(Refusal::BufferShort);
    }
    put_bytes(out, 0, bytes);
    Ok(())
}

// A state.
pub(crate) fn give_state(s: &State, out: &mut [u8]) -> Result<(), Refusal>
    ensures { Replies (gives (flat s.now)) out.old (answer_number result) out.new }
{
    if out.len() < WIDTH {
        return Err(Refusal::BufferShort);
    }
    put_state(out, 0, s);
    Ok(())
}

// The state of an answer, where that is not refused.
#[tactic(auto, unfolding(crate::specs::Interface::state_reply, logic::specs::Refuse::by_refusal))]
pub(crate) fn give_outcome(answer: &Result<State, Refused>, out: &mut [u8]) -> Result<(), Refusal>
    ensures { Replies (outcome_reply (outcome_of answer.now)) out.old (answer_number result) out.new }
{
    match answer {
        Ok(s) => give_state(s, out),
        Err(refused) => Err(refused.refusal),
    }
}

// Weak or strong ISR: 1 and zeros where it holds, else 0, leader, member and offset.
#[tactic(auto, unfolding(crate::specs::Interface::isr_reply, logic::specs::Refuse::by_refusal))]
pub(crate) fn give_isr(
    answer: Result<Option<Difference>, Refusal>,
    out: &mut [u8],
) -> Result<(), Refusal>
    ensures { Replies (isr_reply (isr_answer_of answer)) out.old (answer_number result) out.new }
{
    match answer {
        Ok(None) => give_bytes(&[1, 0, 0, 0], out),
        Ok(Some(d)) => give_bytes(&[0, d.leader, d.member, d.offset], out),
        Err(refusal) => Err(refusal),
    }
}

// An offer: its operands.
#[tactic(auto, unfolding(crate::specs::Interface::offer_reply, logic::specs::Refuse::by_refusal))]
pub(crate) fn give_offer(answer: Result<Operands, Refusal>, out: &mut [u8]) -> Result<(), Refusal>
    ensures { Replies (offer_reply (offer_answer_of answer)) out.old (answer_number result) out.new }
{
    match answer {
        Ok(offer) => give_bytes(&[offer.a, offer.b, offer.e], out),
        Err(refusal) => Err(refusal),
    }
}

// A number: its four low bytes, the lowest first.
fn put_number(out: &mut [u8], at: usize, n: usize) -> usize
    requires { at + length (number_bytes n) ≤ length out.old }
    ensures { Stored out.old at (number_bytes n) out.new result }
{
    put_bytes(out, at, &n.to_le_bytes()[..NUMBER_WIDTH])
}

// Numbers, each as its four low bytes, the lowest first. The caller shows that the buffer has room for them.
fn put_numbers(out: &mut [u8], at: usize, numbers: &[usize]) -> usize
    requires { at + 4 * length numbers.now ≤ length out.old }
    ensures { Stored out.old at (bytes_of_numbers numbers.now) out.new result }
{
    put_each(out, at, numbers, put_number)
}

// A verdict: its six numbers and its state. It has no number of its own that refuses.
pub(crate) fn give_verdict(v: &Verdict, out: &mut [u8]) -> Result<(), Refusal>
    ensures { Replies (gives (verdict_bytes (verdict_of v.now))) out.old (answer_number result) out.new }
{
    if out.len() < VERDICT_WIDTH {
        return Err(Refusal::BufferShort);
    }
    let numbers = [
        v.tally.accepted,
        v.refusal.map_or(0, Refusal::number) as usize,
        v.at,
        v.tally.weak.unwrap_or(0),
        v.tally.strong.unwrap_or(0),
        v.tally.exposed as usize,
    ];
    let state = put_numbers(out, 0, &numbers);
    put_state(out, state, &v.state);
    Ok(())
}
