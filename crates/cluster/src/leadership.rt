// The tests that the actions share, those of the source by its names. The caller shows that the replica that is asked about has a
// place in the array, that an epoch compared with its own is below 16, and that X is in range where it is read.
ghost use Rattle.std.specs.Prelude.{◌≡◌, ◌<◌, ◌≤◌};
ghost use Rattle.cluster.specs.State.{max_leader_epoch_of};
ghost use Rattle.cluster.specs.Actions.{replica_presumes_leadership, replica_is_following, is_true_leader, is_follower_caught_up, epochs_used_up, request_missing, epoch_not_above};

use crate::State;

impl State {
    // Whether a replica's own leader is itself. The caller shows that it is below 5.
    #[tactic(auto, unfolding(crate::specs::Actions::replica_presumes_leadership, crate::specs::Actions::replica_is_following))]
    pub(crate) fn replica_presumes_leadership(self, replica: u8) -> bool
        requires { replica < 5 }
        ensures { result ≡ replica_presumes_leadership self replica }
    {
        self.replica_is_following(replica, replica)
    }

    // Whether a follower's leader is that one.
    #[tactic(auto, unfolding(crate::specs::Actions::replica_is_following))]
    pub(crate) fn replica_is_following(self, follower: u8, leader: u8) -> bool
        requires { follower < 5 }
        ensures { result ≡ replica_is_following self follower leader }
    {
        self.replica_at(follower).leader == Some(leader)
    }

    // Whether a replica presumes, the quorum names it, and its epoch is the quorum's.
    #[tactic(auto, unfolding(crate::specs::Actions::is_true_leader, logic::specs::Tests::every, parts::specs::Epoch::same_epoch))]
    pub(crate) fn is_true_leader(self, leader: u8) -> bool
        requires { leader < 5 }
        ensures { result ≡ is_true_leader self leader }
    {
        self.replica_presumes_leadership(leader)
            && self.quorum.leader == Some(leader)
            && self.replica_at(leader).epoch == self.quorum.epoch
    }

    // Whether a follower has that leader and an end of at least that offset. No records are compared.
    #[tactic(auto, unfolding(crate::specs::Actions::is_follower_caught_up))]
    pub(crate) fn is_follower_caught_up(self, leader: u8, follower: u8, end_offset: u8) -> bool
        requires { follower < 5 }
        ensures { result ≡ is_follower_caught_up self leader follower end_offset }
    {
        self.replica_is_following(follower, leader) && end_offset <= self.replica_at(follower).end
    }

    // Whether no epoch is left: the next one is X+1.
    #[tactic(auto, unfolding(crate::specs::Actions::epochs_used_up))]
    pub(crate) fn epochs_used_up(self) -> bool
        requires { max_leader_epoch_of self.limits ≤ 15 }
        ensures { result ≡ epochs_used_up self }
    {
        self.next_leader_epoch == self.limits.max_leader_epoch + 1
    }

    // Whether there is no request of epoch e.
    #[tactic(auto, unfolding(crate::specs::Actions::request_missing))]
    pub(crate) fn request_missing(self, e: u8) -> bool
        ensures { result ≡ request_missing self e }
    {
        self.next_leader_epoch <= e
    }

    // Whether e is not above the epoch of the replica named i: it is lower, or equal.
    #[tactic(auto, unfolding(crate::specs::Actions::epoch_not_above))]
    pub(crate) fn epoch_not_above(self, i: u8, e: u8) -> bool
        requires i_bound { i < 5 }
        requires e_bound { e < 16 }
        ensures { result ≡ epoch_not_above self i e }
    {
        !parts::higher_epoch(parts::epoch_of(e), self.replica_at(i).epoch)
    }
}
