// Judges a run: a configuration of six bytes, and then run records of six bytes, each of an action.
#![tactic(auto)]

mod judging;
mod run_record;
mod verdict;

ghost use Rattle.std.specs.Prelude.{◌≡◌, true, ◌≤◌, length};
ghost use Rattle.cluster.specs.State.{tidy};
ghost use Rattle.runs.specs.Answer.{verdict_of};
ghost use Rattle.runs.specs.Run.{configuration_width, longest_run, run_records_of, trace_from, weak_holds, strong_holds, verdict_from, judge};

use cluster::ValidState;
use parts::refusal::Refusal;
pub use verdict::{Tally, Verdict};

// How many bytes the configuration has, and how many the run record of an action.
const CONFIGURATION_WIDTH: usize = 6;

const RUN_RECORD_WIDTH: usize = 6;

// The most bytes that a run may have.
pub const LONGEST_RUN: usize = 65532;

// The verdict of a run of any bytes.
#[tactic(auto, using(crate::specs::CodeLaws::verdict_laws))]
pub fn judge(run: &[u8]) -> Verdict
    ensures { verdict_of result ≡ judge run.now }
{
    if LONGEST_RUN < run.len() {
        return Verdict::unopened(Refusal::RunTooLong);
    }
    if run.len() < CONFIGURATION_WIDTH {
        return Verdict::unopened(Refusal::TooShort);
    }
    match run_record::configure(&run[..CONFIGURATION_WIDTH]) {
        Ok(fresh) => judge_actions(run, ValidState::new(fresh)),
        Err(refused) => Verdict::unopened(refused.refusal),
    }
}

// The verdict from the configuration's fresh state on. The caller shows that the run is neither too long nor too short, that the
// state is tidy, and that weak and strong ISR hold of it. Each run record goes to its reader as its own part of the run; the rules are
// not tested and no room is tidied again, since an accepted action keeps both; weak and strong ISR are asked only of what the action
// can have changed, and what is exposed only after kinds 2 and 7.
#[tactic(auto, using(crate::specs::CodeLaws::taken_accepted, crate::specs::CodeLaws::taken_rules))]
fn judge_actions(run: &[u8], fresh: ValidState) -> Verdict
    requires run_len_bound { length run.now ≤ longest_run }
    requires configuration_width_in_bounds { configuration_width ≤ length run.now }
    requires fresh_tidy { tidy fresh.state ≡ fresh.state }
    requires fresh_weak { weak_holds fresh.state ≡ true }
    requires fresh_strong { strong_holds fresh.state ≡ true }
    ensures { verdict_of result ≡ verdict_from fresh.state (trace_from fresh.state configuration_width (run_records_of run.now)) }
{
    let mut valid = fresh;
    let mut tally = Tally::begun(fresh);
    let records = run[CONFIGURATION_WIDTH..].chunks(RUN_RECORD_WIDTH);
    for (i, bytes) in records.enumerate() {
        let action = match run_record::accepted_action(bytes, valid) {
            Ok(action) => action,
            Err(refusal) => {
                let at = CONFIGURATION_WIDTH + RUN_RECORD_WIDTH * i;
                return tally.verdict(Some(refusal), at, valid.state);
            }
        };
        let quorum_before = valid.state.quorum.isr;
        valid = ValidState::new(valid.effect(action));
        tally = tally.after(quorum_before, valid, action);
    }
    tally.verdict(None, run.len(), valid.state)
}
