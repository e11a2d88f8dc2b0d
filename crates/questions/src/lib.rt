// Three questions about a state: weak ISR, strong ISR, and what action it offers; what it exposes; and what an action leaves in doubt
// of weak and strong ISR.
#![tactic(auto)]

pub mod doubt;
mod isr;
mod search;

ghost use Rattle.std.specs.Prelude.{◌≡◌};
ghost use Rattle.questions.specs.Answer.{isr_answer_of, offer_answer_of};
ghost use Rattle.questions.specs.Isr.{check_isr, ask_isr};
ghost use Rattle.questions.specs.Exposed.{exposed};
ghost use Rattle.questions.specs.Offer.{offer};

use cluster::{Kind, LAST_KIND, State, ValidState};
use parts::refusal::Refusal;

// A property of the ISRs of a state. Weak ISR: each presuming replica and each member of its own ISR hold the same records below that
// replica's high watermark. Strong ISR: the same of each member of the quorum's ISR.
#[derive(Clone, Copy)]
pub enum Property {
    WeakIsr,
    StrongIsr,
}

// Where such a property fails: this leader and this member do not hold the same record at this offset.
#[derive(Clone, Copy)]
pub struct Difference {
    pub leader: u8,
    pub member: u8,
    pub offset: u8,
}

// The operands of an action.
#[derive(Clone, Copy)]
pub struct Operands {
    pub a: u8,
    pub b: u8,
    pub e: u8,
}

// What a property answers on a state that meets the rules: none where it holds, else the smallest leader, member and offset at which
// it fails. What the inner loops need is taken out of the state before them: a leader that does not presume has no members to look
// at, and a replica that is not in the ISR asked about has no offsets.
#[tactic(auto, using(logic::proofs::SearchLaws::first_none, logic::proofs::SearchLaws::first_more, logic::proofs::SearchLaws::passing_no, cluster::specs::ActLaws::hw_small), unfolding(crate::specs::Isr::differ_at, replica::specs::Log::hold_same_record))]
fn check_isr(property: Property, s: ValidState) -> Option<Difference>
    ensures { isr_answer_of (Ok result) ≡ check_isr property s.state }
{
    let n = s.state.limits.replica_count;
    let mut difference = None;
    'leaders: for leader in 0..n {
        let p = s.state.replicas[leader as usize];
        let isr = isr::isr_asked(property, p.isr, s.state.quorum.isr);
        for member in 0..isr::where_presuming(p, leader, n) {
            let q = s.state.replicas[member as usize];
            for offset in 0..isr::offsets_asked(isr, leader, member, p.hw) {
                let x = offset as usize;
                if !p.log[x].same_below_ends(q.log[x], offset, p.end, q.end) {
                    difference = Some(Difference {
                        leader,
                        member,
                        offset,
                    });
                    break 'leaders;
                }
            }
        }
    }
    difference
}

// What a property answers on any state: none where it holds, or the smallest failure; refused where the state breaks a rule.
#[tactic(auto, using(crate::specs::IsrTheorems::check_is_ask, crate::specs::IsrLaws::isr_invalid))]
pub fn ask_isr(property: Property, s: State) -> Result<Option<Difference>, Refusal>
    ensures { isr_answer_of result ≡ ask_isr property s }
{
    Ok(check_isr(property, s.validate()?))
}

// Exposed: the greatest high watermark of any replica that presumes leadership, and 0 where none does.
#[tactic(auto, using(logic::specs::Greatest::greatest_none), unfolding(crate::specs::Exposed::exposed))]
pub fn exposed(s: ValidState) -> u8
    ensures { result ≡ exposed s.state }
{
    let mut most: u8 = 0;
    for r in 0..s.state.limits.replica_count {
        let p = s.state.replicas[r as usize];
        most = most.max(isr::where_presuming(p, r, p.hw));
    }
    most
}

// The operands of the smallest accepted action of a kind, by (a, b, e); refused where the state breaks a rule, then where the kind is
// unknown, then where no operands are accepted. They are looked for on the tidy state, as `act` judges an action.
#[tactic(auto, using(crate::specs::OfferLaws::offer_invalid, crate::specs::OfferLaws::offer_no_kind, crate::specs::OfferLaws::offer_found))]
pub fn offer(s: State, kind: u8) -> Result<Operands, Refusal>
    ensures { offer_answer_of result ≡ offer s kind }
{
    let valid = s.validate()?;
    if LAST_KIND < kind {
        return Err(Refusal::UnknownKind);
    }
    let tidy = valid.tidy();
    let bounds = Kind::from(kind).operand_bounds(tidy.state.limits);
    search::offer_within(tidy, kind, bounds).ok_or(Refusal::NoOffer)
}
