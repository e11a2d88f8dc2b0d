// Renamings of the replicas: the table of all of them, and a state under one.
#![tactic(auto)]

pub mod places;
pub mod rows;
pub mod state;
pub mod table;

ghost use Rattle.std.specs.Prelude.{◌≡◌};
ghost use Rattle.cluster.specs.Answer.{outcome_of};
ghost use Rattle.renamings.specs.Rename.{rename};

use cluster::{Refused, State};
use parts::refusal::Refusal;
pub use places::Renaming;

// The state under the renaming p, with zeros in its unused room. Refused by the first rule that the state breaks, then where p is not
// a renaming of its replicas; refused, the state as given.
#[tactic(auto, using(crate::specs::CodeLaws::rename_broken, crate::specs::CodeLaws::rename_unfit, crate::specs::CodeLaws::rename_fits, crate::specs::CodeLaws::renames_wide), unfolding(crate::specs::Rename::renamed))]
pub fn rename(s: State, p: [u8; 5]) -> Result<State, Refused>
    ensures { outcome_of result ≡ rename s p }
{
    if let Err(refusal) = s.validate() {
        return Err(Refused { refusal, state: s });
    }
    if !places::is_renaming(s.limits.replica_count, p) {
        return Err(Refused {
            refusal: Refusal::NotRenaming,
            state: s,
        });
    }
    Ok(state::rename_state(s.tidy(), Renaming::new(p)))
}
