// The search for the smallest accepted action of a kind.
ghost use Rattle.std.specs.Prelude.{◌≡◌};
ghost use Rattle.logic.specs.Search.{first_third, first_second};
ghost use Rattle.questions.specs.Answer.{triple_of};
ghost use Rattle.questions.specs.Offer.{epoch_bound, is_accepted, smallest_accepted};

use crate::Operands;
use cluster::{Action, Bounds, ValidState};

// The smallest accepted action with these a and b.
fn offer_with_a_and_b(s: ValidState, kind: u8, bounds: Bounds, a: u8, b: u8) -> Option<Operands>
    ensures { triple_of result ≡ first_third (epoch_bound bounds) (is_accepted s.state kind) a b }
{
    (0..bounds.e).find_map(|e| {
        let action = Action { kind, a, b, e };
        s.check_action(action)
            .is_ok()
            .then_some(Operands { a, b, e })
    })
}

// The smallest accepted action with this a.
fn offer_with_a(s: ValidState, kind: u8, bounds: Bounds, a: u8) -> Option<Operands>
    ensures { triple_of result ≡ first_second bounds.b (epoch_bound bounds) (is_accepted s.state kind) a }
{
    (0..bounds.b).find_map(|b| offer_with_a_and_b(s, kind, bounds, a, b))
}

// The smallest accepted action.
pub(crate) fn offer_within(s: ValidState, kind: u8, bounds: Bounds) -> Option<Operands>
    ensures { triple_of result ≡ smallest_accepted s.state kind bounds }
{
    (0..bounds.a).find_map(|a| offer_with_a(s, kind, bounds, a))
}
