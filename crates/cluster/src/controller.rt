// Kinds 0 and 1: what the controller does. The caller of an effect shows that the action is accepted.
ghost use Rattle.std.specs.Prelude.{◌≡◌, ◌<◌};
ghost use Rattle.parts.specs.Refusal.{accepted, answer_number};
ghost use Rattle.cluster.specs.State.{next_leader_epoch_of, controller_update_isr};
ghost use Rattle.cluster.specs.Actions.{controller_shrink_isr_refusal, controller_shrink_isr, controller_elect_leader_refusal, controller_elect_leader};

use crate::{Quorum, Request, State, ValidState};
use parts::refusal::Refusal;

impl State {
    // The state with a new quorum at the next epoch, stored as that epoch's request, and the next epoch raised. The caller
    // shows that there is room for the request.
    #[tactic(auto, unfolding(crate::specs::State::controller_update_isr))]
    fn controller_update_isr(self, leader: Option<u8>, isr: u8) -> State
        requires { next_leader_epoch_of self < 16 }
        ensures { result ≡ controller_update_isr self leader isr }
    {
        let epoch = self.next_leader_epoch;
        let mut next = self;
        next.quorum = Quorum {
            epoch: parts::epoch_of(epoch),
            leader,
            isr,
        };
        next.requests[epoch as usize] = Request { leader, isr };
        next.next_leader_epoch = epoch + 1;
        next
    }
}

impl ValidState {
    // Kind 0: whether a may be taken out of the quorum's ISR.
    #[tactic(auto, unfolding(crate::specs::Actions::controller_shrink_isr_refusal, logic::specs::Refuse::refuse))]
    pub(crate) fn check_controller_shrink_isr(self, a: u8) -> Result<(), Refusal>
        ensures { answer_number result ≡ controller_shrink_isr_refusal self.state a }
    {
        if !parts::is_member(self.state.quorum.isr, a) {
            return Err(Refusal::NotInIsr);
        }
        if self.state.epochs_used_up() {
            return Err(Refusal::NoEpochLeft);
        }
        Ok(())
    }

    // Kind 0: a new quorum, in whose ISR a is no longer, and which a does not lead. Where a leads and is alone, the ISR
    // keeps it.
    #[tactic(auto, using(crate::specs::ActLaws::shrink_room, crate::specs::ActLaws::shrink_member), unfolding(crate::specs::Actions::controller_shrink_isr, crate::specs::Actions::shrink_by))]
    pub(crate) fn controller_shrink_isr(self, a: u8) -> State
        requires { controller_shrink_isr_refusal self.state a ≡ accepted }
        ensures { result ≡ controller_shrink_isr self.state a }
    {
        let q = self.state.quorum;
        let rest = parts::without_member(q.isr, a);
        if q.leader != Some(a) {
            return self.state.controller_update_isr(q.leader, rest);
        }
        if parts::is_alone(q.isr, a) {
            return self.state.controller_update_isr(None, q.isr);
        }
        self.state.controller_update_isr(None, rest)
    }

    // Kind 1: whether a may be elected.
    #[tactic(auto, unfolding(crate::specs::Actions::controller_elect_leader_refusal, logic::specs::Refuse::refuse))]
    pub(crate) fn check_controller_elect_leader(self, a: u8) -> Result<(), Refusal>
        ensures { answer_number result ≡ controller_elect_leader_refusal self.state a }
    {
        let q = self.state.quorum;
        if !parts::is_member(q.isr, a) {
            return Err(Refusal::NotInIsr);
        }
        if q.leader == Some(a) {
            return Err(Refusal::AlreadySo);
        }
        if self.state.epochs_used_up() {
            return Err(Refusal::NoEpochLeft);
        }
        Ok(())
    }

    // Kind 1: a new quorum, which a leads, with the same ISR.
    #[tactic(auto, using(crate::specs::ActLaws::elect_room), unfolding(crate::specs::Actions::controller_elect_leader))]
    pub(crate) fn controller_elect_leader(self, a: u8) -> State
        requires { controller_elect_leader_refusal self.state a ≡ accepted }
        ensures { result ≡ controller_elect_leader self.state a }
    {
        self.state
            .controller_update_isr(Some(a), self.state.quorum.isr)
    }
}
