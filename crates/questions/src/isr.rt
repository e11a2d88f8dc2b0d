// What weak and strong ISR ask of a leader and a member, and what a leader exposes. Each function takes the few numbers that it
// needs and no state, since it is called in loops.
ghost use Rattle.std.specs.Prelude.{◌≡◌, cond, eqb};
ghost use Rattle.parts.specs.Isr.{member};
ghost use Rattle.parts.specs.Leader.{names};
ghost use Rattle.questions.specs.IsrLaws.{isr_by_property};

use crate::Property;
use replica::Replica;

// The ISR whose members are asked about: the leader's own, or the quorum's.
#[tactic(auto, unfolding(crate::specs::IsrLaws::isr_by_property))]
pub(crate) fn isr_asked(property: Property, own: u8, quorum: u8) -> u8
    ensures { result ≡ isr_by_property property own quorum }
{
    match property {
        Property::WeakIsr => own,
        Property::StrongIsr => quorum,
    }
}

// The given number where the replica named r presumes leadership, which is where its own leader is r; else 0.
pub(crate) fn where_presuming(p: Replica, r: u8, number: u8) -> u8
    ensures { result ≡ cond (names p.leader r) number 0 }
{
    if p.leader == Some(r) { number } else { 0 }
}

// How many offsets of leader r and replica m are compared: those below the leader's high watermark, where m is in the ISR asked
// about; else none. None of r itself, whose log agrees with itself.
pub(crate) fn offsets_asked(isr: u8, r: u8, m: u8, hw: u8) -> u8
    ensures { result ≡ cond (eqb m r) 0 (cond (member isr m) hw 0) }
{
    if m != r && parts::is_member(isr, m) {
        hw
    } else {
        0
    }
}
