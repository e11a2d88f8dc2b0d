// The representative of a state: the state under the renaming with the least image.
#![tactic(auto)]

mod compare;

ghost use Rattle.std.specs.Prelude.{◌≡◌, ◌+◌, ◌≤◌};
ghost use Rattle.cluster.specs.State.{replica_count_of};
ghost use Rattle.cluster.specs.Answer.{outcome_of};
ghost use Rattle.logic.specs.Least.{better};
ghost use Rattle.renamings.specs.Names.{is_renaming};
ghost use Rattle.renamings.specs.Rename.{Renames};
ghost use Rattle.renamings.specs.Fitting.{factorial, part_numbers};
ghost use Rattle.representatives.specs.Search.{least_behind};
ghost use Rattle.representatives.specs.Representative.{image_under, least_renaming, represent};

use cluster::{Refused, State, ValidState};
use renamings::{Renaming, places, rows, state, table};

// The next renaming where it gives the lesser image, else the best so far. The caller shows that both are renamings of the state's
// replicas.
#[tactic(auto, using(crate::specs::Comparison::lt_less, crate::specs::Comparison::precedes_compare, logic::specs::Least::better_yes, logic::specs::Least::better_not_before))]
fn better(s: ValidState, best: Renaming, next: Renaming) -> Renaming
    requires renames { Renames s.state best.names }
    requires renames_2 { Renames s.state next.names }
    ensures { Renames s.state result.names × (result.names ≡ better (is_renaming (replica_count_of s.state.limits)) (image_under s.state) best.names next.names) }
{
    if compare::compare_under(s, next, best).is_lt() {
        return next;
    }
    best
}

// The better of the best so far and of the rows `from` to `to` - 1 of the state's replicas. A row that gives the quorum's leader a
// greater name than the best so far loses, and its group, whose rows give the leader the same name, is passed over. The caller shows
// that the best so far is a renaming of the state's replicas, and that the part starts with row `first` and has these rows.
#[tactic(auto, using(crate::specs::Search::row_renames, crate::specs::Search::least_tried, crate::specs::Search::loser_low, crate::specs::Search::least_passed, renamings::specs::Fitting::behind_bounds))]
fn least_among(
    s: ValidState,
    best: Renaming,
    part: &[u8; 120],
    first: usize,
    from: usize,
    to: usize,
) -> Renaming
    requires renames { Renames s.state best.names }
    requires part_value { part.now ≡ part_numbers first }
    requires first_le_from { first ≤ from }
    requires from_le_to { from ≤ to }
    requires to_bound { to ≤ first + 24 }
    requires to_bound_2 { to ≤ factorial (replica_count_of s.state.limits) }
    ensures { Renames s.state result.names × (least_behind s.state result.names to ≡ least_behind s.state best.names from) }
{
    let n = s.state.limits.replica_count;
    let leader = s.state.quorum.leader;
    let mut least = best;
    let mut k = from;
    // k does not count: it jumps behind a group.
    while k < to {
        let p = rows::fitting_row(part, first, n, k);
        if compare::leader_byte(least.names, leader) < compare::leader_byte(p.names, leader) {
            k = rows::behind_group(n, parts::leader_byte(leader), k, to);
        } else {
            least = better(s, least, p);
            k += 1;
        }
    }
    least
}

// The renaming of five replicas that gives the least image. The caller shows that the state has five.
#[tactic(auto, using(crate::specs::Search::first_renames, crate::specs::Search::least_start, crate::specs::Search::least_done, renamings::specs::Fitting::counts_are_factorials))]
fn least_of_five(s: ValidState) -> Renaming
    requires { replica_count_of s.state.limits ≡ 5 }
    ensures { Renames s.state result.names × (result.names ≡ least_renaming s.state) }
{
    let mut best = Renaming::identity();
    for turn in 0..5 {
        let first = 24 * turn;
        let part = table::part(first);
        best = least_among(s, best, &part, first, first, first + 24);
    }
    best
}

// The renaming that gives the least image. One replica has the first row alone, so the table is not taken out for it; the rows of
// fewer than five replicas are all in the first part.
#[tactic(auto, using(crate::specs::Search::first_renames, crate::specs::Search::least_second, crate::specs::Search::least_done, renamings::specs::Fitting::fitting_one, renamings::specs::Fitting::fitting_few))]
fn least_renaming(s: ValidState) -> Renaming
    ensures { Renames s.state result.names × (result.names ≡ least_renaming s.state) }
{
    let n = s.state.limits.replica_count;
    if n == 5 {
        return least_of_five(s);
    }
    let count = rows::fitting_count(n);
    if count == 1 {
        return Renaming::identity();
    }
    let part = table::part(0);
    least_among(s, Renaming::identity(), &part, 0, 1, count)
}

// The representative of a state, with zeros in its unused room; refused by the first rule that the state breaks, the state as given.
// Places that are a renaming of no replicas leave every name, and so the tidy state, which is then not renamed.
#[tactic(auto, using(crate::specs::CodeLaws::represent_broken, crate::specs::CodeLaws::represent_met, renamings::specs::CodeLaws::leaves_state, renamings::specs::TidyRenamed::met_tidy, renamings::specs::TidyRenamed::fits))]
pub fn representative(s: State) -> Result<State, Refused>
    ensures { outcome_of result ≡ represent s }
{
    match s.validate() {
        Ok(valid) => {
            let least = least_renaming(valid);
            let mut least_state = s.tidy();
            if !places::is_renaming(0, least.names) {
                least_state = state::rename_state(least_state, least);
            }
            Ok(least_state)
        }
        Err(refusal) => Err(Refused { refusal, state: s }),
    }
}
