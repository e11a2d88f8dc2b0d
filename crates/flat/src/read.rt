// The reader: each part is read at its place of the bytes. The caller of each function shows that the part is there. Images have
// readers of their own: there a leader has another byte, and only what is in use is read.
ghost use Rattle.std.specs.Prelude.{◌≡◌, ◌+◌, ◌≤◌, length, drop};
ghost use Rattle.logic.specs.Table.{table};
ghost use Rattle.flat.specs.Flat.{flat_width, request_width, replica_width, leader_of_flat, request_of_flat, record_of_flat, replica_of_flat, request_of_flat_at, replica_of_flat_at, state_of_flat};

use crate::{
    HEADER_WIDTH, LIMITS_PLACE, NEXT_EPOCH_PLACE, NEXT_ID_PLACE, QUORUM_EPOCH_PLACE,
    QUORUM_ISR_PLACE, QUORUM_LEADER_PLACE, REPLICA_WIDTH, REPLICAS_AT, REQUEST_WIDTH,
};
use cluster::{Quorum, Request, State};
use replica::bytes::{END_PLACE, HEAD_WIDTH, LOG_RECORD_WIDTH, record_of};
use replica::{Record, Replica};
use std::array;

// A leader: 0 is none, and i + 1 is replica i.
#[tactic(auto, unfolding(crate::specs::Flat::leader_of_flat))]
fn leader_of(b: u8) -> Option<u8>
    ensures { result ≡ leader_of_flat b }
{
    b.checked_sub(1)
}

// A request: leader, ISR.
fn request_of(bytes: &[u8], at: usize) -> Request
    requires { at + request_width ≤ length bytes.now }
    ensures { result ≡ request_of_flat (drop at bytes.now) }
{
    Request {
        leader: leader_of(bytes[at]),
        isr: bytes[at + 1],
    }
}

// The 16 requests.
fn requests_of(bytes: &[u8]) -> [Request; 16]
    requires { flat_width ≤ length bytes.now }
    ensures { result ≡ table 16 (request_of_flat_at bytes.now) }
{
    array::from_fn(|e| request_of(bytes, HEADER_WIDTH + REQUEST_WIDTH * e))
}

// The 16 records of the replica at this place.
fn log_of(bytes: &[u8], at: usize) -> [Record; 16]
    requires { at + replica_width ≤ length bytes.now }
    ensures { result ≡ table 16 (record_of_flat (drop at bytes.now)) }
{
    array::from_fn(|x| record_of(bytes, at + HEAD_WIDTH + LOG_RECORD_WIDTH * x))
}

// A replica: hw, epoch, leader, ISR, end, and 16 records.
fn replica_of(bytes: &[u8], at: usize) -> Replica
    requires { at + replica_width ≤ length bytes.now }
    ensures { result ≡ replica_of_flat (drop at bytes.now) }
{
    Replica {
        hw: bytes[at],
        epoch: parts::epoch_of_byte(bytes[at + 1]),
        leader: leader_of(bytes[at + 2]),
        isr: bytes[at + 3],
        end: bytes[at + END_PLACE],
        log: log_of(bytes, at),
    }
}

// The 5 replicas.
fn replicas_of(bytes: &[u8]) -> [Replica; 5]
    requires { flat_width ≤ length bytes.now }
    ensures { result ≡ table 5 (replica_of_flat_at bytes.now) }
{
    array::from_fn(|i| replica_of(bytes, REPLICAS_AT + REPLICA_WIDTH * i))
}

// The state of 226 bytes, whatever they are. Its unused room holds what they say. The caller, one of our own crates, shows that
// they are there.
#[tactic(auto, unfolding(crate::specs::Flat::state_of_flat))]
pub fn state_of(bytes: &[u8]) -> State
    requires { flat_width ≤ length bytes.now }
    ensures { result ≡ state_of_flat bytes.now }
{
    State {
        limits: cluster::limits_at(bytes, LIMITS_PLACE),
        next_leader_epoch: bytes[NEXT_EPOCH_PLACE],
        next_record_id: bytes[NEXT_ID_PLACE],
        quorum: Quorum {
            epoch: parts::epoch_of_byte(bytes[QUORUM_EPOCH_PLACE]),
            leader: leader_of(bytes[QUORUM_LEADER_PLACE]),
            isr: bytes[QUORUM_ISR_PLACE],
        },
        requests: requests_of(bytes),
        replicas: replicas_of(bytes),
    }
}
