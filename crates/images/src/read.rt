// The reader, in two steps: first whether all parts are there and nothing is left over, which makes no state; then the state of
// parts that are there. A function of the first step that takes a place asks of its caller that the place is in the bytes, one of
// the second that the bytes of its part are.
ghost use Rattle.std.specs.Prelude.{◌≡◌, [], ◌+◌, ◌*◌, ◌≤◌, length, drop};
ghost use Rattle.parts.specs.Refusal.{accepted, refusal_number, answer_number};
ghost use Rattle.parts.specs.Mark.{byte_at};
ghost use Rattle.replica.specs.ReplicaBytes.{head_width, log_record_width};
ghost use Rattle.cluster.specs.Answer.{outcome_of};
ghost use Rattle.cluster.specs.Outcome.{with_zeros};
ghost use Rattle.images.specs.Image.{header_width, request_width};
ghost use Rattle.images.specs.Read.{parsed, refusal_of, request_of, replica_of_head, read_replica, header_refusal};
ghost use Rattle.images.specs.Layout.{whole_refusal, replicas_at, body_of, layout_refusal, log_records_of, requests_of, replica_length, replica_with_log};

use crate::{
    HEADER_WIDTH, LOG_SIZE_PLACE, MARK_SECOND, NEXT_EPOCH_PLACE, NEXT_ID_PLACE, QUORUM_ISR_PLACE,
    QUORUM_LEADER_PLACE, REPLICA_COUNT_PLACE, REQUEST_WIDTH,
};
use cluster::{Quorum, Refused, Request, State, rules};
use parts::mark;
use parts::refusal::Refusal;
use replica::bytes::{END_PLACE, HEAD_WIDTH, LOG_RECORD_WIDTH, record_of};
use replica::{Record, Replica};

// The first records from a place on, as many as are asked for. The caller shows that the array has room for them and that their
// bytes are there.
fn log_of(bytes: &[u8], at: usize, count: usize) -> [Record; 16]
    requires count_bound { count ≤ 16 }
    requires count_in_bounds { at + log_record_width * count ≤ length bytes.now }
    ensures { result ≡ log_records_of count (drop at bytes.now) }
{
    let mut log = [Record { id: 0, epoch: 0 }; 16];
    for x in 0..count {
        log[x] = record_of(bytes, at + LOG_RECORD_WIDTH * x);
    }
    log
}

// A request: leader, ISR.
fn request_of(bytes: &[u8], at: usize) -> Request
    requires { at + request_width ≤ length bytes.now }
    ensures { result ≡ request_of (drop at bytes.now) }
{
    Request {
        leader: parts::leader_of_byte(bytes[at]),
        isr: bytes[at + 1],
    }
}

// The requests, as many as are asked for. The caller shows that the array has room for them and that their bytes are there.
fn requests_of(bytes: &[u8], count: usize) -> [Request; 16]
    requires count_bound { count ≤ 16 }
    requires count_in_bounds { header_width + request_width * count ≤ length bytes.now }
    ensures { result ≡ requests_of count (drop header_width bytes.now) }
{
    let mut requests = [Request {
        leader: None,
        isr: 0,
    }; 16];
    for e in 0..count {
        requests[e] = request_of(bytes, HEADER_WIDTH + REQUEST_WIDTH * e);
    }
    requests
}

// A replica up to its log: hw, epoch, leader, ISR, end.
fn replica_of_head(bytes: &[u8], at: usize) -> Replica
    requires { at + head_width ≤ length bytes.now }
    ensures { result ≡ replica_of_head (drop at bytes.now) }
{
    Replica {
        hw: bytes[at],
        epoch: parts::epoch_of_byte(bytes[at + 1]),
        leader: parts::leader_of_byte(bytes[at + 2]),
        isr: bytes[at + 3],
        end: bytes[at + END_PLACE],
        ..Replica::zero()
    }
}

// A replica with its log. The caller shows that its end is in the array and that its bytes are there.
fn replica_of(bytes: &[u8], at: usize) -> Replica
    requires bytes_bound { byte_at (drop at bytes.now) 4 ≤ 16 }
    requires bytes_in_bounds { at + replica_length (drop at bytes.now) ≤ length bytes.now }
    ensures { result ≡ replica_with_log (drop at bytes.now) }
{
    let head = replica_of_head(bytes, at);
    Replica {
        log: log_of(bytes, at + HEAD_WIDTH, head.end as usize),
        ..head
    }
}

// Whether a replica is there; its end is tested before its log. The caller shows that the place is in the bytes.
#[tactic(auto, using(crate::specs::ReadLaws::replica_missing, crate::specs::ReadLaws::replica_above, crate::specs::ReadLaws::replica_short, crate::specs::ReadLaws::replica_whole, crate::specs::ReadLaws::end_behind), unfolding(crate::specs::Read::refusal_of))]
fn check_replica(bytes: &[u8], at: usize, log_size: u8) -> Result<(), Refusal>
    requires { at ≤ length bytes.now }
    ensures { answer_number result ≡ refusal_of (read_replica log_size (drop at bytes.now)) }
{
    if bytes.len() - at < HEAD_WIDTH {
        return Err(Refusal::TooShort);
    }
    let end = bytes[at + END_PLACE];
    if log_size < end {
        return Err(Refusal::BreaksS2);
    }
    if bytes.len() - at < HEAD_WIDTH + LOG_RECORD_WIDTH * (end as usize) {
        return Err(Refusal::TooShort);
    }
    Ok(())
}

// Whether the replicas, the last part of an image, are all there and nothing is left over. The caller shows that the first ten bytes
// are there, and that the place is in the bytes.
#[tactic(auto, using(crate::specs::ReadLaws::filling_over, crate::specs::ReadLaws::filling_all, crate::specs::ReadLaws::replica_fits, crate::specs::ReadLaws::end_behind))]
fn check_replicas(bytes: &[u8], at: usize) -> Result<(), Refusal>
    requires header_width_in_bounds { header_width ≤ length bytes.now }
    requires at_in_bounds { at ≤ length bytes.now }
    ensures { answer_number result ≡ whole_refusal (replicas_at bytes.now at) }
{
    let count = bytes[REPLICA_COUNT_PLACE];
    let log_size = bytes[LOG_SIZE_PLACE];
    let mut pos = at;
    for _ in 0..count {
        check_replica(bytes, pos, log_size)?;
        pos += HEAD_WIDTH + LOG_RECORD_WIDTH * (bytes[pos + END_PLACE] as usize);
    }
    if pos < bytes.len() {
        return Err(Refusal::LeftOver);
    }
    Ok(())
}

// The replicas. The caller shows what `check_replicas` asks, that it accepts them, and that R is at most 5 and L at most 16.
fn replicas_of(bytes: &[u8], at: usize) -> [Replica; 5]
    requires header_width_in_bounds { header_width ≤ length bytes.now }
    requires at_in_bounds { at ≤ length bytes.now }
    requires bytes_bound { byte_at bytes.now 2 ≤ 5 }
    requires bytes_bound_2 { byte_at bytes.now 3 ≤ 16 }
    requires at_value { whole_refusal (replicas_at bytes.now at) ≡ accepted }
    ensures { replicas_at bytes.now at ≡ parsed result [] }
{
    let count = bytes[REPLICA_COUNT_PLACE] as usize;
    let mut replicas = [Replica::zero(); 5];
    let mut pos = at;
    for p in &mut replicas[..count] {
        *p = replica_of(bytes, pos);
        pos += HEAD_WIDTH + LOG_RECORD_WIDTH * (p.end as usize);
    }
    replicas
}

// Whether the first ten bytes are there and in range.
#[tactic(auto, unfolding(crate::specs::Read::header_refusal, logic::specs::Refuse::refuse))]
fn check_header(bytes: &[u8]) -> Result<(), Refusal>
    ensures { answer_number result ≡ header_refusal bytes.now }
{
    if bytes.len() < HEADER_WIDTH {
        return Err(Refusal::TooShort);
    }
    if !mark::is_marked(bytes, MARK_SECOND) {
        return Err(Refusal::WrongMark);
    }
    let limits = cluster::limits_at(bytes, mark::WIDTH);
    if !rules::limits_in_range(limits) {
        return Err(Refusal::BadConfiguration);
    }
    if !rules::sizes_in_range(limits, bytes[NEXT_EPOCH_PLACE], bytes[NEXT_ID_PLACE]) {
        return Err(Refusal::BreaksS1);
    }
    Ok(())
}

// A refused reading, with the all-zero state.
pub(crate) fn refused(refusal: Refusal) -> Refused
    ensures { outcome_of (Err result) ≡ with_zeros (refusal_number refusal) }
{
    Refused {
        refusal,
        state: State::zero(),
    }
}

// Whether the parts of an image are all there. Refused by the first ten bytes, and then by a part that is missing, an end above L or
// bytes left over; whether the state meets the other rules is not asked.
#[tactic(auto, using(crate::specs::ReadLaws::header_in_range, crate::specs::ReadLaws::layout_header, crate::specs::ReadLaws::layout_short, crate::specs::ReadLaws::layout_replicas))]
pub fn check_layout(bytes: &[u8]) -> Result<(), Refusal>
    ensures { answer_number result ≡ layout_refusal bytes.now }
{
    check_header(bytes)?;
    let replicas = HEADER_WIDTH + REQUEST_WIDTH * (bytes[NEXT_EPOCH_PLACE] as usize);
    if bytes.len() < replicas {
        return Err(Refusal::TooShort);
    }
    check_replicas(bytes, replicas)
}

// The state of an image, with zeros in its unused room. The caller, one of our own crates, shows that `check_layout` accepts it.
#[tactic(auto, using(crate::specs::ReadLaws::parts_there, crate::specs::ReadLaws::body_state), unfolding(crate::specs::Read::header_state))]
pub fn state_of(bytes: &[u8]) -> State
    requires { layout_refusal bytes.now ≡ accepted }
    ensures { body_of bytes.now ≡ parsed result [] }
{
    let next_leader_epoch = bytes[NEXT_EPOCH_PLACE];
    let count = next_leader_epoch as usize;
    State {
        limits: cluster::limits_at(bytes, mark::WIDTH),
        next_leader_epoch,
        next_record_id: bytes[NEXT_ID_PLACE],
        quorum: Quorum {
            epoch: parts::last_epoch(next_leader_epoch),
            leader: parts::leader_of_byte(bytes[QUORUM_LEADER_PLACE]),
            isr: bytes[QUORUM_ISR_PLACE],
        },
        requests: requests_of(bytes, count),
        replicas: replicas_of(bytes, HEADER_WIDTH + REQUEST_WIDTH * count),
    }
}
