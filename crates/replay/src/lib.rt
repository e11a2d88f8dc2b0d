// The C interface, for C, Rust or anything that calls C: ten functions on bytes. In C a slice is a pointer and then a length. A
// state is its flat form, 226 bytes. Each function returns a number, 0 for accepted (`replay_act`: and 256 times the member named;
// `replay_write_image`: and 256 times a length): first 21 or 23 where `state` has not 226 bytes, then the numbers of the library's
// answer, last 24 where `out` is shorter than the answer. Accepted, the answer stands at the front of `out`; refused, `out` is as
// it was.
#![tactic(auto)]

mod give;
mod reply;
mod take;

ghost use Rattle.std.specs.Prelude.{◌≡◌};
ghost use Rattle.replay.specs.Interface.{Replies, number_and_length, number_and_member, member_named_by, out_after, replay_fresh, replay_act, replay_weak, replay_strong, replay_offer, replay_write_image, replay_read_image, replay_rename, replay_representative, replay_judge};

use cluster::{Action, Limits, State};
use flat::read::state_of;
use give::number;
use questions::Property;

// The fresh state of a configuration.
#[tactic(auto, unfolding(crate::specs::Interface::replay_fresh))]
pub fn replay_fresh(r: u8, l: u8, m: u8, x: u8, out: &mut [u8]) -> u8
    ensures { Replies (replay_fresh r l m x) out.old result out.new }
{
    let limits = Limits {
        replica_count: r,
        log_size: l,
        max_records: m,
        max_leader_epoch: x,
    };
    number(give::give_outcome(&State::fresh(limits), out))
}

// The state after an action. Returns the number and 256 times the member that the answer names, which is 0 beside any other number
// than 48 and 49.
pub fn replay_act(state: &[u8], kind: u8, a: u8, b: u8, e: u8, out: &mut [u8]) -> u32
    ensures { (result ≡ number_and_member (replay_act state.now kind a b e) (member_named_by state.now kind a b e) out.old) × (out.new ≡ out_after (replay_act state.now kind a b e) out.old) }
{
    if let Err(refusal) = take::check_width(state) {
        return refusal.number() as u32;
    }
    match state_of(state).act(Action { kind, a, b, e }) {
        Ok(next) => number(give::give_state(&next, out)) as u32,
        Err(r) => (r.refusal.number() as u32) + 256 * (r.member.unwrap_or(0) as u32),
    }
}

// Whether weak ISR holds, or its smallest failure.
#[tactic(auto, unfolding(crate::specs::Interface::replay_weak))]
pub fn replay_weak(state: &[u8], out: &mut [u8]) -> u8
    ensures { Replies (replay_weak state.now) out.old result out.new }
{
    number(reply::isr(Property::WeakIsr, state, out))
}

// Whether strong ISR holds, or its smallest failure.
#[tactic(auto, unfolding(crate::specs::Interface::replay_strong))]
pub fn replay_strong(state: &[u8], out: &mut [u8]) -> u8
    ensures { Replies (replay_strong state.now) out.old result out.new }
{
    number(reply::isr(Property::StrongIsr, state, out))
}

// The operands of the smallest accepted action of a kind.
pub fn replay_offer(state: &[u8], kind: u8, out: &mut [u8]) -> u8
    ensures { Replies (replay_offer state.now kind) out.old result out.new }
{
    number(reply::offer(state, kind, out))
}

// The image of a state. Returns the number and 256 times the image's length, which is 0 when refused.
pub fn replay_write_image(state: &[u8], out: &mut [u8]) -> u32
    ensures { (result ≡ number_and_length (replay_write_image state.now) out.old) × (out.new ≡ out_after (replay_write_image state.now) out.old) }
{
    if let Err(refusal) = take::check_width(state) {
        return refusal.number() as u32;
    }
    match images::write_image(state_of(state), out) {
        Ok(length) => 256 * (length as u32),
        Err(refusal) => refusal.number() as u32,
    }
}

// The state of an image. None is made where the image is refused by its bytes.
pub fn replay_read_image(bytes: &[u8], out: &mut [u8]) -> u8
    ensures { Replies (replay_read_image bytes.now) out.old result out.new }
{
    number(reply::read_image(bytes, out))
}

// The state under a renaming.
pub fn replay_rename(state: &[u8], places: &[u8], out: &mut [u8]) -> u8
    ensures { Replies (replay_rename state.now places.now) out.old result out.new }
{
    number(reply::rename(state, places, out))
}

// The representative of a state.
pub fn replay_representative(state: &[u8], out: &mut [u8]) -> u8
    ensures { Replies (replay_representative state.now) out.old result out.new }
{
    number(reply::representative(state, out))
}

// The verdict of a run. It refuses only by 24: the refusal of a run is a field of its verdict.
#[tactic(auto, unfolding(crate::specs::Interface::replay_judge))]
pub fn replay_judge(run: &[u8], out: &mut [u8]) -> u8
    ensures { Replies (replay_judge run.now) out.old result out.new }
{
    number(give::give_verdict(&runs::judge(run), out))
}
