// Kinds and operands of actions.
ghost use Rattle.std.specs.Prelude.{◌≡◌, ◌≤◌};
ghost use Rattle.cluster.specs.State.{max_leader_epoch_of};
ghost use Rattle.cluster.specs.Act.{kind_of, uses, use_of, operand_bound, operand_bounds, operands_fit};

use crate::{Action, Bounds, Kind, Limits, Uses};

// The kind of a number from 0 to 8; Unknown for any other.
impl From<u8> for Kind {
    ghost from_gives = { λ n kind. kind ≡ kind_of n };

    #[tactic(auto, using(crate::specs::ActLaws::kind_unknown), unfolding(crate::specs::Act::kind_of))]
    fn from(n: u8) -> Kind {
        match n {
            0 => Kind::ControllerShrinkIsr,
            1 => Kind::ControllerElectLeader,
            2 => Kind::BecomeLeader,
            3 => Kind::BecomeFollower,
            4 => Kind::LeaderWrite,
            5 => Kind::LeaderShrinkIsr,
            6 => Kind::LeaderExpandIsr,
            7 => Kind::LeaderIncHighWatermark,
            8 => Kind::FollowerReplicate,
            _ => Kind::Unknown,
        }
    }
}

impl Kind {
    // The operands that the kind uses.
    #[tactic(auto, unfolding(crate::specs::Act::uses))]
    fn uses(self) -> Uses
        ensures { result ≡ uses self }
    {
        match self {
            Kind::ControllerShrinkIsr => Uses::of(true, false, false),
            Kind::ControllerElectLeader => Uses::of(true, false, false),
            Kind::BecomeLeader => Uses::of(false, false, true),
            Kind::BecomeFollower => Uses::of(true, false, true),
            Kind::LeaderWrite => Uses::of(true, false, false),
            Kind::LeaderShrinkIsr => Uses::of(true, true, false),
            Kind::LeaderExpandIsr => Uses::of(true, true, false),
            Kind::LeaderIncHighWatermark => Uses::of(true, false, false),
            Kind::FollowerReplicate => Uses::of(true, true, false),
            Kind::Unknown => Uses::of(false, false, false),
        }
    }

    // The bounds of the kind's operands. The caller shows that X is in range.
    #[tactic(auto, unfolding(crate::specs::Act::operand_bounds))]
    pub fn operand_bounds(self, limits: Limits) -> Bounds
        requires { max_leader_epoch_of limits ≤ 15 }
        ensures { result ≡ operand_bounds limits self }
    {
        let uses = self.uses();
        Bounds {
            a: operand_bound(uses.a, limits.replica_count),
            b: operand_bound(uses.b, limits.replica_count),
            e: operand_bound(uses.e, limits.max_leader_epoch + 1),
        }
    }
}

impl Uses {
    // Which operands are used: a, b, e.
    fn of(a: bool, b: bool, e: bool) -> Uses
        ensures { result ≡ use_of a b e }
    {
        Uses { a, b, e }
    }
}

// The bound of an operand: its own where it is used, and 1, so that it is 0, where it is not.
#[tactic(auto, unfolding(crate::specs::Act::operand_bound))]
fn operand_bound(used: bool, bound: u8) -> u8
    ensures { result ≡ operand_bound used bound }
{
    if used { bound } else { 1 }
}

// Whether the operands of an action fit. The caller shows that X is in range.
#[tactic(auto, unfolding(crate::specs::Act::operands_fit, logic::specs::Tests::every))]
pub(crate) fn operands_fit(limits: Limits, action: Action) -> bool
    requires { max_leader_epoch_of limits ≤ 15 }
    ensures { result ≡ operands_fit limits action }
{
    let bounds = Kind::from(action.kind).operand_bounds(limits);
    action.a < bounds.a && action.b < bounds.b && action.e < bounds.e
}
