// The readers of run records. Each takes the bytes of its run record as a part of the run.
ghost use Rattle.std.specs.Prelude.{◌≡◌, ◌≤◌, length, IfOk};
ghost use Rattle.parts.specs.Refusal.{answer_number};
ghost use Rattle.cluster.specs.State.{tidy};
ghost use Rattle.cluster.specs.Answer.{outcome_of};
ghost use Rattle.runs.specs.Run.{configuration_width, run_record_width, mark_refusal, configure, action_in, act_on};
ghost use Rattle.runs.specs.RunRecordLaws.{read_action};

use crate::RUN_RECORD_WIDTH;
use cluster::{Action, Refused, State, ValidState};
use parts::mark;
use parts::refusal::Refusal;

// The second byte of a mark, behind 4B: of a configuration, and of an action.
const CONFIGURATION_MARK: u8 = 67;

const ACTION_MARK: u8 = 65;

// Whether a run record has its mark. The caller shows that the mark's two bytes are there.
#[tactic(auto, unfolding(crate::specs::Run::mark_refusal, logic::specs::Refuse::refuse))]
fn check_mark(bytes: &[u8], second: u8) -> Result<(), Refusal>
    requires { 2 ≤ length bytes.now }
    ensures { answer_number result ≡ mark_refusal second bytes.now }
{
    if mark::is_marked(bytes, second) {
        Ok(())
    } else {
        Err(Refusal::WrongMark)
    }
}

// What a configuration answers: its fresh state; refused by its mark or by R, L, M or X, zeros. The caller shows that all its bytes
// are there.
#[tactic(auto, using(crate::specs::CodeLaws::configure_refused, crate::specs::CodeLaws::configure_read))]
pub(crate) fn configure(bytes: &[u8]) -> Result<State, Refused>
    requires { length bytes.now ≡ configuration_width }
    ensures { outcome_of result ≡ configure bytes.now }
{
    check_mark(bytes, CONFIGURATION_MARK).map_err(|refusal| Refused {
        refusal,
        state: State::zero(),
    })?;
    State::fresh(cluster::limits_at(bytes, mark::WIDTH))
}

// The action of a run record that has its mark: the four bytes behind it. The caller shows that all six bytes are there.
fn read_action(bytes: &[u8]) -> Result<Action, Refusal>
    requires { run_record_width ≤ length bytes.now }
    ensures number { answer_number result ≡ (read_action bytes.now).refusal }
    ensures action { IfOk result (λ action. action ≡ (read_action bytes.now).action) }
{
    check_mark(bytes, ACTION_MARK)?;
    Ok(Action {
        kind: bytes[2],
        a: bytes[3],
        b: bytes[4],
        e: bytes[5],
    })
}

// The action of a run record that is accepted on a state; refused by its length, then by its mark, then as the action is. The state is
// known to meet the rules and to be tidy: neither is tested. The caller shows that it is tidy.
#[tactic(auto, using(crate::specs::RunRecordLaws::short_number, crate::specs::CodeLaws::mark_number, crate::specs::CodeLaws::action_number))]
pub(crate) fn accepted_action(bytes: &[u8], s: ValidState) -> Result<Action, Refusal>
    requires { tidy s.state ≡ s.state }
    ensures number { answer_number result ≡ (act_on s.state bytes.now).refusal }
    ensures action { IfOk result (λ action. action ≡ action_in bytes.now) }
{
    if bytes.len() < RUN_RECORD_WIDTH {
        return Err(Refusal::TooShort);
    }
    let action = read_action(bytes)?;
    s.check_action(action)?;
    Ok(action)
}
