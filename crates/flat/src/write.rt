// The writer: each part is put at a place of the buffer, and the place behind it is answered. The caller of each function shows
// that the buffer has room for the part.
ghost use Rattle.std.specs.Prelude.{◌≡◌, ◌+◌, ◌≤◌, length};
ghost use Rattle.logic.specs.Concat.{concat_below};
ghost use Rattle.logic.specs.Stores.{Stored};
ghost use Rattle.flat.specs.Flat.{flat_width, flat_leader, flat_request, flat_request_at, flat_replica, flat_replica_at, flat_header, flat};

use cluster::{Request, State};
use parts::bytes::{put_bytes, put_each};
use replica::Replica;
use replica::bytes::{put_head, put_log};

// A leader: none is 0, and replica i is i + 1. Replica 255 has no byte, and is written as none.
#[tactic(auto, unfolding(crate::specs::Flat::flat_leader))]
fn leader_byte(leader: Option<u8>) -> u8
    ensures { result ≡ flat_leader leader }
{
    leader.and_then(|i| i.checked_add(1)).unwrap_or(0)
}

// The first nine bytes.
fn put_header(out: &mut [u8], at: usize, s: &State) -> usize
    requires { at + length (flat_header s.now) ≤ length out.old }
    ensures { Stored out.old at (flat_header s.now) out.new result }
{
    let limits = s.limits;
    let quorum = s.quorum;
    let header = [
        limits.replica_count,
        limits.log_size,
        limits.max_records,
        limits.max_leader_epoch,
        s.next_leader_epoch,
        s.next_record_id,
        parts::epoch_byte(quorum.epoch),
        leader_byte(quorum.leader),
        quorum.isr,
    ];
    put_bytes(out, at, &header)
}

// A request: leader, ISR.
fn put_request(out: &mut [u8], at: usize, q: Request) -> usize
    requires { at + length (flat_request q) ≤ length out.old }
    ensures { Stored out.old at (flat_request q) out.new result }
{
    put_bytes(out, at, &[leader_byte(q.leader), q.isr])
}

// The 16 requests, sent or not.
fn put_requests(out: &mut [u8], at: usize, s: &State) -> usize
    requires { at + length (concat_below 16 (flat_request_at s.now)) ≤ length out.old }
    ensures { Stored out.old at (concat_below 16 (flat_request_at s.now)) out.new result }
{
    put_each(out, at, &s.requests, put_request)
}

// A replica with all 16 places of its log.
fn put_replica(out: &mut [u8], at: usize, p: Replica) -> usize
    requires { at + length (flat_replica p) ≤ length out.old }
    ensures { Stored out.old at (flat_replica p) out.new result }
{
    let log = put_head(out, at, p, leader_byte(p.leader));
    put_log(out, log, p, 16)
}

// The 5 replicas, used or not.
fn put_replicas(out: &mut [u8], at: usize, s: &State) -> usize
    requires { at + length (concat_below 5 (flat_replica_at s.now)) ≤ length out.old }
    ensures { Stored out.old at (concat_below 5 (flat_replica_at s.now)) out.new result }
{
    put_each(out, at, &s.replicas, put_replica)
}

// The 226 bytes of a state. The caller, one of our own crates, shows that the buffer has room for them.
#[tactic(auto, using(logic::specs::Stores::stored_length, crate::specs::FlatLaws::requests_width, crate::specs::FlatLaws::replicas_width))]
pub fn put_state(out: &mut [u8], at: usize, s: &State) -> usize
    requires { at + flat_width ≤ length out.old }
    ensures { Stored out.old at (flat s.now) out.new result }
{
    let requests = put_header(out, at, s);
    let replicas = put_requests(out, requests, s);
    put_replicas(out, replicas, s)
}
