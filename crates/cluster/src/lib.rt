// The state of one partition: its limits, its quorum, its requests and its replicas, and the nine actions on it.
#![tactic(auto)]

mod act;
mod controller;
mod fields;
mod follower;
mod kinds;
mod leader;
mod leadership;
mod requests;
pub mod rules;
mod tidy;
mod valid;

ghost use Rattle.std.specs.Prelude.{◌≡◌, ◌+◌, ◌≤◌, length, IfOk};
ghost use Rattle.parts.specs.Refusal.{answer_number};
ghost use Rattle.cluster.specs.Answer.{outcome_of};
ghost use Rattle.cluster.specs.State.{limits_at, zero_state, tidy};
ghost use Rattle.cluster.specs.Rules.{state_refusal};
ghost use Rattle.cluster.specs.Fresh.{fresh};

use parts::refusal::Refusal;
use replica::Replica;
use rules::SizedState;
pub use valid::ValidState;

// A configuration: R replicas, logs of L records, M record ids, leader epochs 0 to X.
#[derive(Clone, Copy)]
pub struct Limits {
    pub replica_count: u8,
    pub log_size: u8,
    pub max_records: u8,
    pub max_leader_epoch: u8,
}

// The quorum: the last leader epoch (-1 for none), the leader or none, and the ISR.
#[derive(Clone, Copy)]
pub struct Quorum {
    pub epoch: i8,
    pub leader: Option<u8>,
    pub isr: u8,
}

// The LeaderAndIsr request of one epoch; its place among the requests is the epoch.
#[derive(Clone, Copy)]
pub struct Request {
    pub leader: Option<u8>,
    pub isr: u8,
}

// A state. Requests from the next leader epoch on, replicas from the count on, and records past a log's end are unused
// room and no part of it.
#[derive(Clone, Copy)]
pub struct State {
    pub limits: Limits,
    pub next_leader_epoch: u8,
    pub next_record_id: u8,
    pub quorum: Quorum,
    pub requests: [Request; 16],
    pub replicas: [Replica; 5],
}

// An action: its kind, 0 to 8, and its operands, two replicas and an epoch. Every four bytes are one.
#[derive(Clone, Copy)]
pub struct Action {
    pub kind: u8,
    pub a: u8,
    pub b: u8,
    pub e: u8,
}

// The greatest number of a kind: a greater one is of no kind.
pub const LAST_KIND: u8 = 8;

// The kind of an action, by the source's names (kind 3 has a shorter one), and one for every other number.
#[derive(Clone, Copy)]
pub enum Kind {
    ControllerShrinkIsr,
    ControllerElectLeader,
    BecomeLeader,
    BecomeFollower,
    LeaderWrite,
    LeaderShrinkIsr,
    LeaderExpandIsr,
    LeaderIncHighWatermark,
    FollowerReplicate,
    Unknown,
}

// Which of its operands a, b and e an action uses.
#[derive(Clone, Copy)]
pub struct Uses {
    pub a: bool,
    pub b: bool,
    pub e: bool,
}

// The bounds of an action's operands: each is below its own.
#[derive(Clone, Copy)]
pub struct Bounds {
    pub a: u8,
    pub b: u8,
    pub e: u8,
}

// What raising a leader's high watermark asks of every member of its ISR: that the member's leader is that one, and that the member
// has the offset of that leader's high watermark.
#[derive(Clone, Copy)]
pub enum MemberTest {
    IsFollowing,
    HasOffset,
}

// A refused action: why, beside 48 and 49 the smallest member of the ISR with that fault, and the state as given.
#[derive(Clone, Copy)]
pub struct RefusedAction {
    pub refusal: Refusal,
    pub member: Option<u8>,
    pub state: State,
}

// A refused fresh state, reading, renaming or representative: why, and the state that goes with it.
#[derive(Clone, Copy)]
pub struct Refused {
    pub refusal: Refusal,
    pub state: State,
}

// R, L, M and X: the four bytes from a place on. The caller shows that they are there.
pub fn limits_at(bytes: &[u8], at: usize) -> Limits
    requires { at + 4 ≤ length bytes.now }
    ensures { result ≡ limits_at at bytes.now }
{
    Limits {
        replica_count: bytes[at],
        log_size: bytes[at + 1],
        max_records: bytes[at + 2],
        max_leader_epoch: bytes[at + 3],
    }
}

impl State {
    // All zeros.
    pub fn zero() -> State
        ensures { result ≡ zero_state }
    {
        State {
            limits: Limits {
                replica_count: 0,
                log_size: 0,
                max_records: 0,
                max_leader_epoch: 0,
            },
            next_leader_epoch: 0,
            next_record_id: 0,
            quorum: Quorum {
                epoch: 0,
                leader: None,
                isr: 0,
            },
            requests: [Request {
                leader: None,
                isr: 0,
            }; 16],
            replicas: [Replica::zero(); 5],
        }
    }

    // The fresh state of a configuration; refused, all zeros, where R, L, M or X is out of range.
    #[tactic(auto, using(crate::specs::RuleLaws::ranges_of, crate::specs::FreshLaws::fresh_out))]
    pub fn fresh(limits: Limits) -> Result<State, Refused>
        ensures { outcome_of result ≡ fresh limits }
    {
        if !rules::limits_in_range(limits) {
            return Err(Refused {
                refusal: Refusal::BadConfiguration,
                state: State::zero(),
            });
        }
        // A fresh replica in all five places; tidying puts zeros past the count.
        let replica = Replica {
            epoch: -1,
            ..Replica::zero()
        };
        let all = State {
            limits,
            quorum: Quorum {
                epoch: -1,
                leader: None,
                isr: parts::full_isr(limits.replica_count),
            },
            replicas: [replica; 5],
            ..State::zero()
        };
        Ok(tidy::tidy_replicas(all))
    }

    // The state with zeros in its unused room.
    pub fn tidy(self) -> State
        ensures { result ≡ tidy self }
    {
        tidy::tidy_replicas(tidy::tidy_requests(self))
    }

    // Whether the state meets the rules; refused by the first state rule that it breaks, S1 to S7. Where it breaks some and S1 to S6
    // hold, it is S7.
    #[tactic(auto, using(crate::specs::RuleLaws::bounded_of, crate::specs::RuleLaws::logs_bounded_of, crate::specs::RuleLaws::met_refusal, crate::specs::RuleLaws::only_seventh), unfolding(crate::specs::Rules::state_refusal, logic::specs::Refuse::refuse_unless, logic::specs::Refuse::refuse))]
    pub(crate) fn check_rules(self) -> Result<(), Refusal>
        ensures { answer_number result ≡ state_refusal self }
    {
        let Some(sized) = SizedState::new(self) else {
            return Err(Refusal::BreaksS1);
        };
        if rules::meets_rules(sized) {
            return Ok(());
        }
        if !rules::rule_2(sized) {
            return Err(Refusal::BreaksS2);
        }
        if !rules::rule_3(sized) {
            return Err(Refusal::BreaksS3);
        }
        if !rules::rule_4(sized) {
            return Err(Refusal::BreaksS4);
        }
        if !rules::rule_5(sized) {
            return Err(Refusal::BreaksS5);
        }
        if !rules::rule_6(sized) {
            return Err(Refusal::BreaksS6);
        }
        Err(Refusal::BreaksS7)
    }

    // The state as one that meets the rules; refused by the first state rule that it breaks. The test answers no state, so that none is
    // copied out of it.
    #[inline(always)]
    #[tactic(auto, using(crate::specs::RuleLaws::refusal_met))]
    pub fn validate(self) -> Result<ValidState, Refusal>
        ensures number { answer_number result ≡ state_refusal self }
        ensures state { IfOk result (λ valid. valid.state ≡ self) }
    {
        self.check_rules()?;
        Ok(ValidState::new(self))
    }
}
