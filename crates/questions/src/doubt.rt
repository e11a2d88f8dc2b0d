// What an action leaves in doubt: for which leaders, members and offsets weak or strong ISR, where it held before the action, may
// fail after it. The judge of a run asks about these alone.
ghost use Rattle.std.specs.Prelude.{◌≡◌, true, cond, ◌≤◌, ◌<◌};
ghost use Rattle.logic.specs.Tests.{all_below};
ghost use Rattle.parts.specs.Isr.{member};
ghost use Rattle.parts.specs.Leader.{names, leader_below};
ghost use Rattle.cluster.specs.State.{next_leader_epoch_of, request_at, replica_at};
ghost use Rattle.questions.specs.Doubt.{doubt_of, no_doubt, led_doubt, cut_doubt, shrink_doubt, expand_doubt, raised_doubt, doubt_after_action, agree_from, holds_in_doubt, ReadsWithin, holds_after_action, exposes_more};

use crate::{Property, isr};
use cluster::{Action, Kind, State, ValidState};
use replica::Replica;

// The five replicas, as a set.
const ALL_FIVE: u8 = 31;

// These leaders, each against the members that are not known to agree with it, from this offset on.
#[derive(Clone, Copy)]
pub(crate) struct Doubt {
    pub(crate) leaders: u8,
    pub(crate) agreeing: u8,
    pub(crate) from: u8,
}

impl Doubt {
    fn of(leaders: u8, agreeing: u8, from: u8) -> Doubt
        ensures { result ≡ doubt_of leaders agreeing from }
    {
        Doubt {
            leaders,
            agreeing,
            from,
        }
    }

    // Nothing is in doubt.
    fn none() -> Doubt
        ensures { result ≡ no_doubt }
    {
        Doubt::of(0, 0, 0)
    }

    // Kind 2: the leader that a request names, against every member. The caller shows that it is one of five.
    #[tactic(auto, unfolding(crate::specs::Doubt::led_doubt))]
    fn after_lead(leader: Option<u8>) -> Doubt
        requires { leader_below 5 leader ≡ true }
        ensures { result ≡ led_doubt leader }
    {
        match leader {
            None => Doubt::none(),
            Some(b) => Doubt::of(parts::including_member(0, b), 0, 0),
        }
    }

    // Kind 5, weak ISR: nothing. Strong ISR: every leader against the members that the quorum's ISR gained, and nothing where it only
    // lost b. The caller shows that the ISR and b are within five replicas.
    #[tactic(auto, unfolding(crate::specs::Doubt::shrink_doubt))]
    fn after_shrink(property: Property, before: u8, now: u8, b: u8) -> Doubt
        requires bound { now < 32 }
        requires b_bound { b < 5 }
        ensures { result ≡ shrink_doubt property before now b }
    {
        match property {
            Property::WeakIsr => Doubt::none(),
            Property::StrongIsr => {
                if parts::including_member(now, b) == before {
                    Doubt::none()
                } else {
                    Doubt::of(ALL_FIVE, before, 0)
                }
            }
        }
    }

    // Kind 6, weak ISR: a against b. Strong ISR: every leader against the members that the quorum's ISR gained. The caller shows that a
    // is below 5.
    #[tactic(auto, unfolding(crate::specs::Doubt::expand_doubt))]
    fn after_expand(property: Property, before: u8, a: u8, b: u8) -> Doubt
        requires { a < 5 }
        ensures { result ≡ expand_doubt property before a b }
    {
        match property {
            Property::WeakIsr => Doubt::of(
                parts::including_member(0, a),
                parts::without_member(ALL_FIVE, b),
                0,
            ),
            Property::StrongIsr => Doubt::of(ALL_FIVE, before, 0),
        }
    }

    // The given number where the replica named r is one of the leaders and presumes leadership; else 0.
    fn where_in_doubt(self, p: Replica, r: u8, number: u8) -> u8
        ensures { result ≡ cond (member self.leaders r) (cond (names p.leader r) number 0) 0 }
    {
        if parts::is_member(self.leaders, r) {
            isr::where_presuming(p, r, number)
        } else {
            0
        }
    }

    // The given number where m is not known to agree and is in the ISR; else 0.
    fn where_unknown(self, isr: u8, m: u8, number: u8) -> u8
        ensures { result ≡ cond (member self.agreeing m) 0 (cond (member isr m) number 0) }
    {
        if !parts::is_member(self.agreeing, m) && parts::is_member(isr, m) {
            number
        } else {
            0
        }
    }
}

// Whether two logs hold the same records from one offset up to another, which is left out. The caller shows that the arrays have them.
fn logs_agree(p: Replica, q: Replica, from: u8, to: u8) -> bool
    requires { to ≤ 16 }
    ensures { result ≡ all_below to (agree_from from p q) }
{
    (from..to).all(|x| p.log[x as usize].same_below_ends(q.log[x as usize], x, p.end, q.end))
}

// The narrow test: whether a property holds of all that is in doubt.
#[tactic(auto, using(logic::specs::Tests::all_none, logic::specs::Tests::all_more, crate::specs::DoubtCode::pair_is, crate::specs::DoubtCode::members_past, crate::specs::DoubtCode::pair_fails, cluster::specs::ActLaws::hw_small), unfolding(crate::specs::Doubt::holds_in_doubt))]
fn holds_in_doubt(doubt: Doubt, property: Property, s: ValidState) -> bool
    ensures { result ≡ holds_in_doubt doubt property s.state }
{
    let n = s.state.limits.replica_count;
    for r in 0..n {
        let p = s.state.replicas[r as usize];
        let isr = isr::isr_asked(property, p.isr, s.state.quorum.isr);
        for m in 0..doubt.where_in_doubt(p, r, n) {
            let q = s.state.replicas[m as usize];
            if !logs_agree(p, q, doubt.from, doubt.where_unknown(isr, m, p.hw)) {
                return false;
            }
        }
    }
    true
}

// Kind 2: the leader that request e names, against every member. The caller shows that request e was sent.
#[tactic(auto, using(cluster::specs::ActLaws::request_leader_below))]
fn doubt_after_lead(s: ValidState, e: u8) -> Doubt
    requires { e < next_leader_epoch_of s.state }
    ensures { result ≡ led_doubt (request_at s.state e).leader }
{
    Doubt::after_lead(s.state.requests[e as usize].leader)
}

// Kind 3: every leader against a, from the end of a's log after the cut on. The caller shows that a is below 5.
fn doubt_after_cut(s: State, a: u8) -> Doubt
    requires { a < 5 }
    ensures { result ≡ cut_doubt s a }
{
    let end = s.replicas[a as usize].end;
    Doubt::of(ALL_FIVE, parts::without_member(ALL_FIVE, a), end)
}

// Kind 7: a against every member, from the high watermark that it had on, the last offset below the one that it has. The caller shows
// that a is below 5 and that its high watermark is not 0.
fn doubt_after_raise(s: State, a: u8) -> Doubt
    requires a_bound { a < 5 }
    requires bound { 1 ≤ (replica_at s a).hw }
    ensures { result ≡ raised_doubt s a }
{
    let hw = s.replicas[a as usize].hw;
    Doubt::of(parts::including_member(0, a), 0, hw - 1)
}

// What an action leaves in doubt, by the quorum's ISR before it and the state after it. The caller shows that what is read of that
// state is there.
#[tactic(auto, unfolding(crate::specs::Doubt::doubt_after, cluster::specs::Act::uses))]
fn doubt_after(property: Property, before: u8, s: ValidState, action: Action) -> Doubt
    requires { ReadsWithin s.state action }
    ensures { result ≡ doubt_after_action property before s.state action }
{
    match Kind::from(action.kind) {
        Kind::BecomeLeader => doubt_after_lead(s, action.e),
        Kind::BecomeFollower => doubt_after_cut(s.state, action.a),
        Kind::LeaderShrinkIsr => {
            Doubt::after_shrink(property, before, s.state.quorum.isr, action.b)
        }
        Kind::LeaderExpandIsr => Doubt::after_expand(property, before, action.a, action.b),
        Kind::LeaderIncHighWatermark => doubt_after_raise(s.state, action.a),
        Kind::ControllerShrinkIsr
        | Kind::ControllerElectLeader
        | Kind::LeaderWrite
        | Kind::FollowerReplicate
        | Kind::Unknown => Doubt::none(),
    }
}

// Whether a property that held before an action holds of the state that the action led to: the narrow test of it, which decides that
// (`holds_after`). The caller shows that what the test reads of the state is there.
#[tactic(auto, using(crate::specs::DoubtCode::no_leader_in_doubt))]
pub fn holds_after(property: Property, before: u8, s: ValidState, action: Action) -> bool
    requires { ReadsWithin s.state action }
    ensures { result ≡ holds_after_action property before s.state action }
{
    let doubt = doubt_after(property, before, s, action);
    doubt.leaders == 0 || holds_in_doubt(doubt, property, s)
}

// Whether an action of this kind can expose more than was exposed before.
#[tactic(auto, unfolding(crate::specs::Doubt::exposing))]
pub fn exposes_more(kind: u8) -> bool
    ensures { result ≡ exposes_more kind }
{
    matches!(
        Kind::from(kind),
        Kind::BecomeLeader | Kind::LeaderIncHighWatermark
    )
}
