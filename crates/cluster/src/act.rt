// An action on a state: its kind and operands are tested, then the table, and the next state is made. The table is a `match`, and no
// list of functions: the kinds are all known, and each arm owes what its own function asks.
ghost use Rattle.std.specs.Prelude.{◌≡◌, true, is_some, IfErr};
ghost use Rattle.parts.specs.Refusal.{accepted, refusal_number, answer_number};
ghost use Rattle.cluster.specs.State.{tidy};
ghost use Rattle.cluster.specs.Actions.{member_named};
ghost use Rattle.cluster.specs.Act.{kind_of, operands_fit, table_refusal, action_refusal, effect, step, act};
ghost use Rattle.cluster.specs.Answer.{member_number, names_member, action_answer_of};

use crate::{Action, Kind, LAST_KIND, MemberTest, RefusedAction, State, ValidState, kinds};
use parts::refusal::Refusal;

impl ValidState {
    // Whether the table lets the action pass. The caller shows that the operands fit.
    #[tactic(auto, using(crate::specs::ActLaws::used_a, crate::specs::ActLaws::used_b), unfolding(crate::specs::Act::uses, crate::specs::Act::table_refusal))]
    fn check_table(self, action: Action) -> Result<(), Refusal>
        requires { operands_fit self.state.limits action ≡ true }
        ensures { answer_number result ≡ table_refusal (kind_of action.kind) self.state action.a action.b action.e }
    {
        match Kind::from(action.kind) {
            Kind::ControllerShrinkIsr => self.check_controller_shrink_isr(action.a),
            Kind::ControllerElectLeader => self.check_controller_elect_leader(action.a),
            Kind::BecomeLeader => self.check_become_leader(action.e),
            Kind::BecomeFollower => self.check_become_follower(action.a, action.e),
            Kind::LeaderWrite => self.check_leader_write(action.a),
            Kind::LeaderShrinkIsr => self.check_leader_shrink_isr(action.a, action.b),
            Kind::LeaderExpandIsr => self.check_leader_expand_isr(action.a, action.b),
            Kind::LeaderIncHighWatermark => self.check_leader_inc_high_watermark(action.a),
            Kind::FollowerReplicate => self.check_follower_replicate(action.a, action.b),
            Kind::Unknown => Err(Refusal::UnknownKind),
        }
    }

    // The next state by the table, where the action is accepted: nothing is tested, and the state is not made tidy. The caller
    // shows that the action is not refused on the state.
    #[tactic(auto, using(crate::specs::ActLaws::accepted_a, crate::specs::ActLaws::accepted_b), unfolding(crate::specs::Act::uses, crate::specs::Act::effect, crate::specs::Act::table_effect))]
    pub fn effect(self, action: Action) -> State
        requires { action_refusal self.state action ≡ accepted }
        ensures { result ≡ effect self.state action }
    {
        match Kind::from(action.kind) {
            Kind::ControllerShrinkIsr => self.controller_shrink_isr(action.a),
            Kind::ControllerElectLeader => self.controller_elect_leader(action.a),
            Kind::BecomeLeader => self.become_leader(action.e),
            Kind::BecomeFollower => self.become_follower_and_truncate_to_hw(action.a, action.e),
            Kind::LeaderWrite => self.leader_write(action.a),
            Kind::LeaderShrinkIsr => self.leader_shrink_isr(action.a, action.b),
            Kind::LeaderExpandIsr => self.leader_expand_isr(action.a, action.b),
            Kind::LeaderIncHighWatermark => self.leader_inc_high_watermark(action.a),
            Kind::FollowerReplicate => self.follower_replicate(action.a, action.b),
            Kind::Unknown => self.state,
        }
    }

    // Whether an action is accepted.
    #[tactic(auto, unfolding(crate::specs::Act::action_refusal, logic::specs::Refuse::refuse))]
    pub fn check_action(self, action: Action) -> Result<(), Refusal>
        ensures { answer_number result ≡ action_refusal self.state action }
    {
        if LAST_KIND < action.kind {
            return Err(Refusal::UnknownKind);
        }
        if !kinds::operands_fit(self.state.limits, action) {
            return Err(Refusal::BadOperand);
        }
        self.check_table(action)
    }

    // The member that an answer names: beside 48 and 49 the smallest of a's ISR with that fault, else none. The caller shows that the
    // action is refused on the state so.
    #[tactic(auto, using(crate::specs::ActLaws::named_operand), unfolding(crate::specs::Actions::member_named))]
    fn member_named(self, action: Action, refusal: Refusal) -> Option<u8>
        requires { refusal_number refusal ≡ action_refusal self.state action }
        ensures answer { member_number result ≡ member_named (refusal_number refusal) self.state action.a }
        ensures named { is_some result ≡ names_member refusal }
    {
        match refusal {
            Refusal::MemberNotFollowing => {
                Some(self.first_not_passing(MemberTest::IsFollowing, action.a))
            }
            Refusal::MemberLacksOffset => {
                Some(self.first_not_passing(MemberTest::HasOffset, action.a))
            }
            _ => None,
        }
    }

    // What an action answers on a state that is known to be tidy: that is not tested. The caller shows it. The answer is that of `act`.
    #[tactic(auto, unfolding(crate::specs::Act::step, crate::specs::Act::answer_by, logic::specs::Refuse::by_refusal))]
    fn step(self, action: Action) -> Result<State, RefusedAction>
        requires { tidy self.state ≡ self.state }
        ensures answer { action_answer_of result ≡ step self.state action }
        ensures named { IfErr result (λ r. is_some r.member ≡ names_member r.refusal) }
    {
        match self.check_action(action) {
            Ok(()) => Ok(self.effect(action)),
            Err(refusal) => Err(RefusedAction {
                refusal,
                member: self.member_named(action, refusal),
                state: self.state,
            }),
        }
    }
}

impl State {
    // What an action answers on any state: accepted, the next state, with zeros in its unused room; refused, why, the member that is
    // named, and the state as given.
    #[tactic(auto, using(crate::specs::Equality::tidy_twice, crate::specs::RuleLaws::refusal_met, crate::specs::Unused::rules_tidy, crate::specs::ActLaws::act_refused, crate::specs::ActLaws::state_unnamed))]
    pub fn act(self, action: Action) -> Result<State, RefusedAction>
        ensures answer { action_answer_of result ≡ act self action }
        ensures named { IfErr result (λ r. is_some r.member ≡ names_member r.refusal) }
    {
        match self.check_rules() {
            Ok(()) => ValidState::new(self.tidy())
                .step(action)
                .map_err(|refused| RefusedAction {
                    state: self,
                    ..refused
                }),
            Err(refusal) => Err(RefusedAction {
                refusal,
                member: None,
                state: self,
            }),
        }
    }
}
