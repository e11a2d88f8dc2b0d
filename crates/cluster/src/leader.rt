// Kinds 4 to 7: what a leader does. The caller shows that a and b are among the state's replicas; the caller of a write shows also
// that it is accepted. What the other private functions ask is in their `requires`.
ghost use Rattle.std.specs.Prelude.{◌≡◌, ◌<◌};
ghost use Rattle.parts.specs.Refusal.{accepted, answer_number};
ghost use Rattle.cluster.specs.State.{replica_count_of, replica_at};
ghost use Rattle.cluster.specs.Actions.{leader_write_refusal, leader_write, quorum_update_leader_and_isr, leader_shrink_isr_refusal, leader_shrink_isr, leader_expand_isr_refusal, leader_expand_isr, member_passes, first_not_passing, leader_inc_high_watermark_refusal, leader_inc_high_watermark};
ghost use Rattle.cluster.specs.ActLaws.{changed_isr, member_refusal, members_refusal};

use crate::{MemberTest, State, ValidState};
use parts::refusal::Refusal;
use replica::Record;

// An ISR that b has joined, or left. The caller shows that the ISR and b are within five replicas.
fn changed_isr(joins: bool, isr: u8, b: u8) -> u8
    requires isr_bound { isr < 32 }
    requires b_bound { b < 5 }
    ensures { result ≡ changed_isr joins isr b }
{
    if joins {
        return parts::including_member(isr, b);
    }
    parts::without_member(isr, b)
}

impl State {
    // Whether m, if it is in a's ISR, passes a test: it has a as leader, or has the offset of a's high watermark.
    #[tactic(auto, unfolding(crate::specs::Actions::member_passes, crate::specs::Actions::passes_test, crate::specs::Actions::replica_is_following))]
    fn member_passes(self, test: MemberTest, a: u8, m: u8) -> bool
        requires a_bound { a < 5 }
        requires m_bound { m < 5 }
        ensures { result ≡ member_passes test self a m }
    {
        let p = self.replica_at(a);
        let q = self.replica_at(m);
        !parts::is_member(p.isr, m)
            || match test {
                MemberTest::IsFollowing => q.leader == Some(a),
                MemberTest::HasOffset => p.hw < q.end,
            }
    }

    // What a member m of a's ISR gives: 48 where its leader isn't a, 49 where it lacks the offset of a's high watermark; 0 where it
    // has neither fault, or is no member.
    #[tactic(auto, unfolding(crate::specs::ActLaws::member_refusal, crate::specs::Actions::member_passes, crate::specs::Actions::passes_test, crate::specs::Actions::replica_is_following, logic::specs::Refuse::refuse))]
    fn check_member(self, a: u8, m: u8) -> Result<(), Refusal>
        requires a_bound { a < 5 }
        requires m_bound { m < 5 }
        ensures { answer_number result ≡ member_refusal self a m }
    {
        let p = self.replica_at(a);
        if !parts::is_member(p.isr, m) {
            return Ok(());
        }
        let q = self.replica_at(m);
        if q.leader != Some(a) {
            return Err(Refusal::MemberNotFollowing);
        }
        if q.end <= p.hw {
            return Err(Refusal::MemberLacksOffset);
        }
        Ok(())
    }
}

impl ValidState {
    // Kind 4: whether a may write.
    #[tactic(auto, unfolding(crate::specs::Actions::leader_write_refusal, logic::specs::Refuse::refuse))]
    pub(crate) fn check_leader_write(self, a: u8) -> Result<(), Refusal>
        requires { a < replica_count_of self.state.limits }
        ensures { answer_number result ≡ leader_write_refusal self.state a }
    {
        let limits = self.state.limits;
        if !self.state.replica_presumes_leadership(a) {
            return Err(Refusal::NotPresuming);
        }
        if limits.max_records <= self.state.next_record_id {
            return Err(Refusal::NoIdLeft);
        }
        if limits.log_size <= self.state.replica_at(a).end {
            return Err(Refusal::LogFull);
        }
        Ok(())
    }

    // Kind 4: a record with the next id and a's epoch at a's end; the next id plus 1.
    #[tactic(auto, using(crate::specs::ActLaws::write_room, crate::specs::ActLaws::ids_small), unfolding(crate::specs::Actions::leader_write, crate::specs::State::with_next_record_id, crate::specs::State::with_replica))]
    pub(crate) fn leader_write(self, a: u8) -> State
        requires a_bound { a < replica_count_of self.state.limits }
        requires is_accepted { leader_write_refusal self.state a ≡ accepted }
        ensures { result ≡ leader_write self.state a }
    {
        let mut next = self.state;
        let p = next.replicas[a as usize];
        let id = next.next_record_id;
        next.replicas[a as usize] = p.append(Record { id, epoch: p.epoch });
        next.next_record_id = id + 1;
        next
    }

    // The state in which a follower has joined or left the ISR of a leader: it is put into the leader and into the quorum, and no
    // request is stored.
    #[tactic(auto, using(crate::specs::ActLaws::isr_small), unfolding(crate::specs::Actions::quorum_update_leader_and_isr, crate::specs::State::with_quorum_isr, crate::specs::State::with_replica, replica::specs::Change::with_isr))]
    fn quorum_update_leader_and_isr(self, leader: u8, follower: u8, joins: bool) -> State
        requires leader_bound { leader < replica_count_of self.state.limits }
        requires follower_bound { follower < replica_count_of self.state.limits }
        ensures { result ≡ quorum_update_leader_and_isr self.state leader (changed_isr joins (replica_at self.state leader).isr follower) }
    {
        let mut next = self.state;
        let isr = changed_isr(joins, next.replicas[leader as usize].isr, follower);
        next.replicas[leader as usize].isr = isr;
        next.quorum.isr = isr;
        next
    }

    // Kind 5: whether a may take b out of its ISR.
    #[tactic(auto, unfolding(crate::specs::Actions::leader_shrink_isr_refusal, logic::specs::Refuse::refuse))]
    pub(crate) fn check_leader_shrink_isr(self, a: u8, b: u8) -> Result<(), Refusal>
        requires a_bound { a < replica_count_of self.state.limits }
        requires b_bound { b < replica_count_of self.state.limits }
        ensures { answer_number result ≡ leader_shrink_isr_refusal self.state a b }
    {
        if a == b {
            return Err(Refusal::SameReplica);
        }
        if !self.state.is_true_leader(a) {
            return Err(Refusal::NotTrueLeader);
        }
        let p = self.state.replica_at(a);
        if !parts::is_member(p.isr, b) {
            return Err(Refusal::NotInIsr);
        }
        if self.state.is_follower_caught_up(a, b, p.end) {
            return Err(Refusal::CaughtUp);
        }
        Ok(())
    }

    // Kind 5: b leaves a's ISR.
    #[tactic(auto, unfolding(crate::specs::Actions::leader_shrink_isr))]
    pub(crate) fn leader_shrink_isr(self, a: u8, b: u8) -> State
        requires a_bound { a < replica_count_of self.state.limits }
        requires b_bound { b < replica_count_of self.state.limits }
        ensures { result ≡ leader_shrink_isr self.state a b }
    {
        self.quorum_update_leader_and_isr(a, b, false)
    }

    // Kind 6: whether a may take b into its ISR.
    #[tactic(auto, unfolding(crate::specs::Actions::leader_expand_isr_refusal, logic::specs::Refuse::refuse))]
    pub(crate) fn check_leader_expand_isr(self, a: u8, b: u8) -> Result<(), Refusal>
        requires a_bound { a < replica_count_of self.state.limits }
        requires b_bound { b < replica_count_of self.state.limits }
        ensures { answer_number result ≡ leader_expand_isr_refusal self.state a b }
    {
        if !self.state.is_true_leader(a) {
            return Err(Refusal::NotTrueLeader);
        }
        let p = self.state.replica_at(a);
        if parts::is_member(p.isr, b) {
            return Err(Refusal::AlreadySo);
        }
        if !self.state.is_follower_caught_up(a, b, p.hw) {
            return Err(Refusal::NotCaughtUp);
        }
        Ok(())
    }

    // Kind 6: b joins a's ISR.
    #[tactic(auto, unfolding(crate::specs::Actions::leader_expand_isr))]
    pub(crate) fn leader_expand_isr(self, a: u8, b: u8) -> State
        requires a_bound { a < replica_count_of self.state.limits }
        requires b_bound { b < replica_count_of self.state.limits }
        ensures { result ≡ leader_expand_isr self.state a b }
    {
        self.quorum_update_leader_and_isr(a, b, true)
    }

    // The smallest member of a's ISR that does not pass a test; R where each passes.
    #[tactic(auto, using(logic::specs::Tests::all_none, logic::specs::Tests::all_next, logic::specs::Tests::fails_first, logic::specs::Tests::fails_nowhere))]
    pub(crate) fn first_not_passing(self, test: MemberTest, a: u8) -> u8
        requires { a < 5 }
        ensures { result ≡ first_not_passing test self.state a }
    {
        let n = self.state.limits.replica_count;
        for m in 0..n {
            if !self.state.member_passes(test, a, m) {
                return m;
            }
        }
        n
    }

    // What the members of a's ISR give: 48 where one gives it, whatever the others do, else 49 where one gives that, else 0. One pass
    // asks both of each member.
    #[tactic(auto, using(logic::specs::Tests::all_none, logic::specs::Tests::all_next, crate::specs::ActLaws::member_decides), unfolding(crate::specs::ActLaws::member_refusal, logic::specs::Refuse::refuse))]
    fn check_members(self, a: u8) -> Result<(), Refusal>
        requires { a < 5 }
        ensures { answer_number result ≡ members_refusal self.state a }
    {
        let mut lacking = false;
        for m in 0..self.state.limits.replica_count {
            if let Err(refusal) = self.state.check_member(a, m) {
                match refusal {
                    Refusal::MemberLacksOffset => lacking = true,
                    _ => return Err(refusal),
                }
            }
        }
        if lacking {
            return Err(Refusal::MemberLacksOffset);
        }
        Ok(())
    }

    // Kind 7: whether a's high watermark may be raised.
    #[tactic(auto, unfolding(crate::specs::Actions::leader_inc_high_watermark_refusal, logic::specs::Refuse::refuse))]
    pub(crate) fn check_leader_inc_high_watermark(self, a: u8) -> Result<(), Refusal>
        requires { a < replica_count_of self.state.limits }
        ensures { answer_number result ≡ leader_inc_high_watermark_refusal self.state a }
    {
        if !self.state.replica_presumes_leadership(a) {
            return Err(Refusal::NotPresuming);
        }
        self.check_members(a)
    }

    // Kind 7: a's high watermark plus 1.
    #[tactic(auto, using(crate::specs::ActLaws::hw_small), unfolding(crate::specs::Actions::leader_inc_high_watermark, crate::specs::State::with_replica))]
    pub(crate) fn leader_inc_high_watermark(self, a: u8) -> State
        requires { a < replica_count_of self.state.limits }
        ensures { result ≡ leader_inc_high_watermark self.state a }
    {
        let mut next = self.state;
        let p = next.replicas[a as usize];
        next.replicas[a as usize] = p.with_hw(p.hw + 1);
        next
    }
}
