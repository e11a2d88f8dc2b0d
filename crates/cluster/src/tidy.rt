// Zeros put in the unused room of a state.
ghost use Rattle.std.specs.Prelude.{◌≡◌, cond, ltb};
ghost use Rattle.replica.specs.Replica.{zero_replica, tidy_replica};
ghost use Rattle.logic.specs.Table.{table};
ghost use Rattle.cluster.specs.State.{zero_request, with_requests, with_replicas, tidy_request_at, tidy_replica_at};

use crate::{Request, State};
use replica::Replica;
use std::array;

// The request where its epoch e is below the next one, else zeros.
fn tidy_request(q: Request, e: usize, next: u8) -> Request
    ensures { result ≡ cond (ltb e next) q zero_request }
{
    if e < next as usize {
        q
    } else {
        Request {
            leader: None,
            isr: 0,
        }
    }
}

// The replica named i with zeros past the end of its log, where i is below the count, else zeros.
fn tidy_replica(p: Replica, i: usize, count: u8) -> Replica
    ensures { result ≡ cond (ltb i count) (tidy_replica p) zero_replica }
{
    if i < count as usize {
        p.tidy()
    } else {
        Replica::zero()
    }
}

// The state with zeros in the place of each request that was not sent.
pub(crate) fn tidy_requests(s: State) -> State
    ensures { result ≡ with_requests s (table 16 (tidy_request_at s)) }
{
    State {
        requests: array::from_fn(|e| tidy_request(s.requests[e], e, s.next_leader_epoch)),
        ..s
    }
}

// The state with zeros past the end of each log, and in the place of each replica past the count.
pub(crate) fn tidy_replicas(s: State) -> State
    ensures { result ≡ with_replicas s (table 5 (tidy_replica_at s)) }
{
    let mut t = s;
    // Each replica is put at its place: an array of them that is made first is copied once more, and takes its own stack.
    for i in 0..5 {
        t.replicas[i] = tidy_replica(s.replicas[i], i, s.limits.replica_count);
    }
    t
}
