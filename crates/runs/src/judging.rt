// What is counted over a run as it is judged, and the verdict where it stops.
ghost use Rattle.std.specs.Prelude.{◌≡◌, ◌≤◌, false, [], max};
ghost use Rattle.parts.specs.Refusal.{refusal_number};
ghost use Rattle.questions.specs.Isr.{ask_isr};
ghost use Rattle.questions.specs.Exposed.{exposed};
ghost use Rattle.questions.specs.Doubt.{ReadsWithin, holds_after_action, exposes_more};
ghost use Rattle.runs.specs.Answer.{failure_number, refused_number, counts_of, verdict_of};
ghost use Rattle.runs.specs.Run.{longest_run, no_tally, tally_of, unopened};
ghost use Rattle.runs.specs.Judging.{accepted_step, tally_after, Narrowed, verdict_at};
ghost use Rattle.runs.specs.CodeLaws.{first_failed};

use crate::{Tally, Verdict};
use cluster::{Action, State, ValidState};
use parts::refusal::Refusal;
use questions::{Property, doubt};

// How many actions were accepted when a property first failed. Where that is known it stays, and the state is not asked. Otherwise
// the property held before the action, and the narrow test decides. The caller shows that what the test reads of the state is there,
// and that the test decides.
#[tactic(auto, unfolding(crate::specs::CodeLaws::first_failed))]
fn failed_at(
    property: Property,
    known: Option<usize>,
    quorum_before: u8,
    next: ValidState,
    action: Action,
    count: usize,
) -> Option<usize>
    requires reads_within { ReadsWithin next.state action }
    requires narrow { known ≡ None → (ask_isr property next.state).holds ≡ holds_after_action property quorum_before next.state action }
    ensures { result ≡ first_failed known (ask_isr property next.state).holds count }
{
    match known {
        Some(_) => known,
        None if doubt::holds_after(property, quorum_before, next, action) => None,
        None => Some(count),
    }
}

// The greatest high watermark that was exposed so far, with the state that an action of this kind led to. The state is asked only
// after a kind that can expose more. The caller shows that the other kinds expose no more.
fn exposed_so_far(known: u8, next: ValidState, kind: u8) -> u8
    requires { exposes_more kind ≡ false → exposed next.state ≤ known }
    ensures { result ≡ max known (exposed next.state) }
{
    if doubt::exposes_more(kind) {
        known.max(questions::exposed(next))
    } else {
        known
    }
}

impl Tally {
    // Nothing is counted.
    fn none() -> Tally
        ensures { counts_of result ≡ no_tally }
    {
        Tally {
            accepted: 0,
            weak: None,
            strong: None,
            exposed: 0,
        }
    }

    // What is counted before the first action.
    #[tactic(auto, using(crate::specs::Judging::greatest_one), unfolding(logic::specs::Tests::first_failing))]
    pub(crate) fn begun(fresh: ValidState) -> Tally
        ensures { counts_of result ≡ tally_of fresh.state [] }
    {
        let mut tally = Tally::none();
        tally.exposed = questions::exposed(fresh);
        tally
    }

    // One accepted action more, which handed back a state; the quorum's ISR before it is given too. The caller shows that the count is
    // not past the longest run, that what the narrow test reads is there and decides what has not failed, and that only kinds 2 and 7
    // expose more.
    #[tactic(auto, using(crate::specs::CodeLaws::first_failed_number, crate::specs::CodeLaws::first_failed_later))]
    pub(crate) fn after(self, quorum_before: u8, next: ValidState, action: Action) -> Tally
        requires accepted_le_longest_run { self.accepted ≤ longest_run }
        requires narrowed { Narrowed (counts_of self) quorum_before next.state action }
        ensures { counts_of result ≡ tally_after (counts_of self) (accepted_step action next.state) }
    {
        let accepted = self.accepted + 1;
        let weak = failed_at(
            Property::WeakIsr,
            self.weak,
            quorum_before,
            next,
            action,
            accepted,
        );
        let strong = failed_at(
            Property::StrongIsr,
            self.strong,
            quorum_before,
            next,
            action,
            accepted,
        );
        Tally {
            accepted,
            weak,
            strong,
            exposed: exposed_so_far(self.exposed, next, action.kind),
        }
    }

    // The verdict where the run stops at this byte, refused or not, with its last state.
    pub(crate) fn verdict(self, refusal: Option<Refusal>, at: usize, last: State) -> Verdict
        ensures { verdict_of result ≡ verdict_at (counts_of self) (refused_number refusal) at last }
    {
        Verdict {
            tally: self,
            refusal,
            at,
            state: last,
        }
    }
}

impl Verdict {
    // The verdict of a run that is refused by its length or its configuration.
    pub(crate) fn unopened(refusal: Refusal) -> Verdict
        ensures { verdict_of result ≡ unopened (refusal_number refusal) }
    {
        Tally::none().verdict(Some(refusal), 0, State::zero())
    }
}
