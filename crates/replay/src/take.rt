// What comes as bytes: how many a flat state has, and the places of a renaming.
ghost use Rattle.std.specs.Prelude.{◌≡◌, length, IsOk};
ghost use Rattle.parts.specs.Refusal.{answer_number};
ghost use Rattle.cluster.specs.Answer.{outcome_of};
ghost use Rattle.flat.specs.Flat.{flat_width};
ghost use Rattle.replay.specs.Interface.{width_refusal, rename_by};

use cluster::{Refused, State};
use flat::WIDTH;
use parts::refusal::Refusal;
use std::cmp::Ordering;

// Whether the bytes are as many as a flat state has; refused where they are fewer, or more.
#[tactic(auto, unfolding(crate::specs::Interface::width_refusal, logic::specs::Refuse::refuse))]
pub(crate) fn check_width(bytes: &[u8]) -> Result<(), Refusal>
    ensures number { answer_number result ≡ width_refusal bytes.now }
    ensures width { IsOk result → length bytes.now ≡ flat_width }
{
    match bytes.len().cmp(&WIDTH) {
        Ordering::Less => Err(Refusal::TooShort),
        Ordering::Equal => Ok(()),
        Ordering::Greater => Err(Refusal::LeftOver),
    }
}

// The state under five places, which may be a renaming or not; any other count of places is none.
pub(crate) fn rename_by(s: State, places: &[u8]) -> Result<State, Refused>
    ensures { outcome_of result ≡ rename_by s places.now }
{
    match <[u8; 5]>::try_from(places) {
        Ok(five) => renamings::rename(s, five),
        Err(_) => {
            let refusal = s.validate().err().unwrap_or(Refusal::NotRenaming);
            Err(Refused { refusal, state: s })
        }
    }
}
