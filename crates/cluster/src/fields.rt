// The parts of a state, read by number. The caller shows that the array has the place. Most functions that change the state
// read from the copy that they change, since a call that reads the state by value copies it once more.
ghost use Rattle.std.specs.Prelude.{◌≡◌, ◌<◌};
ghost use Rattle.cluster.specs.State.{request_at, replica_at};

use crate::{Request, State};
use replica::Replica;

impl State {
    // The replica named i. The caller shows that i is below 5.
    pub(crate) fn replica_at(self, i: u8) -> Replica
        requires { i < 5 }
        ensures { result ≡ replica_at self i }
    {
        self.replicas[i as usize]
    }

    // The request of epoch e.
    pub(crate) fn request_at(self, e: u8) -> Request
        requires { e < 16 }
        ensures { result ≡ request_at self e }
    {
        self.requests[e as usize]
    }
}
