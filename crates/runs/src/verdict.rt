// The verdict of a run.
ghost use Rattle.std.specs.Prelude.{◌≢◌, Some};

use cluster::State;
use parts::refusal::Refusal;

// What is counted over a run: how many actions were accepted; how many were accepted when weak ISR, and when strong ISR, first
// failed, if it did, which is after some action; the greatest high watermark of any presuming replica in any state.
#[derive(Clone, Copy)]
pub struct Tally {
    pub accepted: usize,
    pub weak: Option<usize>,
    pub strong: Option<usize>,
    pub exposed: u8,
    ghost weak_later: { weak ≢ Some 0 },
    ghost strong_later: { strong ≢ Some 0 },
}

// The verdict of a run: what is counted over it; why it is refused, if it is; the byte where the refused run record starts, the
// length of the run where none is refused, 0 where the run is too long; the last state. Where no configuration was accepted, nothing
// is counted, and the state is all zeros.
#[derive(Clone, Copy)]
pub struct Verdict {
    pub tally: Tally,
    pub refusal: Option<Refusal>,
    pub at: usize,
    pub state: State,
}
