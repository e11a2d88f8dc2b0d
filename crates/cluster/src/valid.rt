// A state that meets the state rules, as a type.
ghost use Rattle.std.specs.Prelude.{◌≡◌, ◌≤◌, ◌<◌, true};
ghost use Rattle.cluster.specs.State.{replica_count_of, max_leader_epoch_of, next_leader_epoch_of, tidy};
ghost use Rattle.cluster.specs.Rules.{rules};

use crate::State;

// A state that meets S1 to S7. What they say of its sizes stands beside, since the functions on it read arrays by number. That a
// replica or an epoch passed beside the state is in range stays a clause: a type of such numbers would belong to one state, and be made
// and taken apart at each call.
#[derive(Clone, Copy)]
pub struct ValidState {
    pub state: State,
    ghost meets_rules: { rules state ≡ true },
    ghost few_replicas: { replica_count_of state.limits ≤ 5 },
    ghost few_epochs: { max_leader_epoch_of state.limits ≤ 15 },
    ghost few_requests: { next_leader_epoch_of state ≤ 16 },
    ghost quorum_within: { state.quorum.isr < 32 },
}

impl ValidState {
    // The state, of which the caller shows that it meets the rules.
    #[tactic(auto, using(crate::specs::RuleLaws::rules_bounded, crate::specs::ActLaws::epochs_small, crate::specs::ActLaws::quorum_isr_small))]
    pub fn new(state: State) -> ValidState
        requires { rules state ≡ true }
        ensures { result.state ≡ state }
    {
        ValidState { state }
    }

    // The state with zeros in its unused room.
    #[tactic(auto, using(crate::specs::Unused::rules_tidy))]
    pub fn tidy(self) -> ValidState
        ensures { result.state ≡ tidy self.state }
    {
        ValidState::new(self.state.tidy())
    }
}
