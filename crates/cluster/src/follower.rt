// Kind 8: what a follower does. The caller shows that a and b are among the state's replicas; the caller of the effect shows also
// that the action is accepted.
ghost use Rattle.std.specs.Prelude.{◌≡◌, ◌<◌};
ghost use Rattle.parts.specs.Refusal.{accepted, answer_number};
ghost use Rattle.cluster.specs.State.{replica_count_of};
ghost use Rattle.cluster.specs.Actions.{follower_replicate_refusal, follower_replicate};

use crate::{State, ValidState};
use parts::refusal::Refusal;

impl ValidState {
    // Kind 8: whether a may replicate from b.
    #[tactic(auto, unfolding(crate::specs::Actions::follower_replicate_refusal, logic::specs::Refuse::refuse))]
    pub(crate) fn check_follower_replicate(self, a: u8, b: u8) -> Result<(), Refusal>
        requires a_bound { a < replica_count_of self.state.limits }
        requires b_bound { b < replica_count_of self.state.limits }
        ensures { answer_number result ≡ follower_replicate_refusal self.state a b }
    {
        if !self.state.replica_presumes_leadership(b) {
            return Err(Refusal::NotPresuming);
        }
        if !self.state.replica_is_following(a, b) {
            return Err(Refusal::NotFollowing);
        }
        if self.state.replica_at(b).end <= self.state.replica_at(a).end {
            return Err(Refusal::NothingToReplicate);
        }
        Ok(())
    }

    // Kind 8: b's record at a's end is added to a, and a's high watermark is the smaller of b's and a's new end.
    #[tactic(auto, using(crate::specs::ActLaws::replicate_room), unfolding(crate::specs::Actions::follower_replicate, crate::specs::State::with_replica))]
    pub(crate) fn follower_replicate(self, a: u8, b: u8) -> State
        requires a_bound { a < replica_count_of self.state.limits }
        requires b_bound { b < replica_count_of self.state.limits }
        requires is_accepted { follower_replicate_refusal self.state a b ≡ accepted }
        ensures { result ≡ follower_replicate self.state a b }
    {
        let mut next = self.state;
        let p = next.replicas[a as usize];
        let q = next.replicas[b as usize];
        let hw = q.hw.min(p.end + 1);
        next.replicas[a as usize] = p.append(q.record_at(p.end)).with_hw(hw);
        next
    }
}
