// Kinds 2 and 3: what a replica does with a request. The caller shows that a is one of the replicas; the caller of an effect shows
// also that the action is accepted. The private functions ask of their callers that the arrays have the replica and the epoch.
ghost use Rattle.std.specs.Prelude.{◌≡◌, true, ◌<◌};
ghost use Rattle.parts.specs.Refusal.{accepted, answer_number};
ghost use Rattle.parts.specs.Leader.{leader_below};
ghost use Rattle.cluster.specs.State.{replica_count_of};
ghost use Rattle.cluster.specs.Actions.{leader_refusal, become_leader_refusal, lead_by, become_leader, become_follower_refusal, become_follower_at, become_follower_and_truncate_to_hw};

use crate::{State, ValidState};
use parts::refusal::Refusal;

impl State {
    // Whether the leader that a request names may lead at epoch e.
    #[tactic(auto, unfolding(crate::specs::Actions::leader_refusal, logic::specs::Refuse::refuse))]
    fn check_leader(self, e: u8, leader: Option<u8>) -> Result<(), Refusal>
        requires e_bound { e < 16 }
        requires leader_bound { leader_below 5 leader ≡ true }
        ensures { answer_number result ≡ leader_refusal self e leader }
    {
        let Some(b) = leader else {
            return Err(Refusal::WrongLeader);
        };
        if self.epoch_not_above(b, e) {
            return Err(Refusal::EpochNotHigher);
        }
        Ok(())
    }

    // The state in which this leader has taken epoch e, itself as leader, and the ISR of request e; the state itself where it is none.
    // Called with the leader that request e names.
    #[tactic(auto, unfolding(crate::specs::Actions::lead_by, crate::specs::State::with_replica))]
    fn lead_by(self, e: u8, leader: Option<u8>) -> State
        requires e_bound { e < 16 }
        requires leader_bound { leader_below 5 leader ≡ true }
        ensures { result ≡ lead_by self e leader }
    {
        let mut next = self;
        if let Some(b) = leader {
            let isr = next.requests[e as usize].isr;
            let p = next.replicas[b as usize];
            next.replicas[b as usize] = p.with_request(parts::epoch_of(e), leader, isr);
        }
        next
    }

    // The state in which a has taken request e. Where that names a leader, a's log is cut to the offset; in either case a's high
    // watermark is the smaller of itself and the offset.
    #[tactic(auto, unfolding(crate::specs::Actions::become_follower_at, crate::specs::State::with_replica))]
    fn become_follower_at(self, a: u8, e: u8, truncation_offset: u8) -> State
        requires a_bound { a < 5 }
        requires e_bound { e < 16 }
        ensures { result ≡ become_follower_at self a e truncation_offset }
    {
        let mut next = self;
        let q = next.requests[e as usize];
        let p = next.replicas[a as usize];
        next.replicas[a as usize] = p.become_follower_and_truncate_to(
            parts::epoch_of(e),
            q.leader,
            q.isr,
            truncation_offset,
        );
        next
    }
}

impl ValidState {
    // Kind 2: whether the leader that request e names may lead by it.
    #[tactic(auto, using(crate::specs::ActLaws::there_small, crate::specs::ActLaws::there_leader), unfolding(crate::specs::Actions::become_leader_refusal, logic::specs::Refuse::refuse))]
    pub(crate) fn check_become_leader(self, e: u8) -> Result<(), Refusal>
        ensures { answer_number result ≡ become_leader_refusal self.state e }
    {
        if self.state.request_missing(e) {
            return Err(Refusal::NoRequest);
        }
        self.state.check_leader(e, self.state.request_at(e).leader)
    }

    // Kind 2: the leader of request e takes its epoch and ISR, and itself as leader; its high watermark stays.
    #[tactic(auto, using(crate::specs::ActLaws::leads_small, crate::specs::ActLaws::leads_below), unfolding(crate::specs::Actions::become_leader))]
    pub(crate) fn become_leader(self, e: u8) -> State
        requires { become_leader_refusal self.state e ≡ accepted }
        ensures { result ≡ become_leader self.state e }
    {
        self.state.lead_by(e, self.state.request_at(e).leader)
    }

    // Kind 3: whether a may follow by request e.
    #[tactic(auto, using(crate::specs::ActLaws::there_small), unfolding(crate::specs::Actions::become_follower_refusal, logic::specs::Refuse::refuse))]
    pub(crate) fn check_become_follower(self, a: u8, e: u8) -> Result<(), Refusal>
        requires { a < replica_count_of self.state.limits }
        ensures { answer_number result ≡ become_follower_refusal self.state a e }
    {
        if self.state.request_missing(e) {
            return Err(Refusal::NoRequest);
        }
        if self.state.request_at(e).leader == Some(a) {
            return Err(Refusal::WrongLeader);
        }
        if self.state.epoch_not_above(a, e) {
            return Err(Refusal::EpochNotHigher);
        }
        Ok(())
    }

    // Kind 3: a takes request e; where that names a leader, a's log is cut to a's high watermark.
    #[tactic(auto, using(crate::specs::ActLaws::follows_small), unfolding(crate::specs::Actions::become_follower_and_truncate_to_hw))]
    pub(crate) fn become_follower_and_truncate_to_hw(self, a: u8, e: u8) -> State
        requires a_bound { a < replica_count_of self.state.limits }
        requires is_accepted { become_follower_refusal self.state a e ≡ accepted }
        ensures { result ≡ become_follower_and_truncate_to_hw self.state a e }
    {
        let hw = self.state.replica_at(a).hw;
        self.state.become_follower_at(a, e, hw)
    }
}
