// The flat form of a state: 226 bytes, in which a state crosses the C interface.
#![tactic(auto)]

pub mod read;
pub mod write;

// How many bytes it has, and its first part, a request, and a replica.
pub const WIDTH: usize = 226;

const HEADER_WIDTH: usize = 9;

const REQUEST_WIDTH: usize = 2;

const REPLICA_WIDTH: usize = 37;

// Where the replicas start.
const REPLICAS_AT: usize = 41;

// Where in the first part these stand.
const LIMITS_PLACE: usize = 0;

const NEXT_EPOCH_PLACE: usize = 4;

const NEXT_ID_PLACE: usize = 5;

const QUORUM_EPOCH_PLACE: usize = 6;

const QUORUM_LEADER_PLACE: usize = 7;

const QUORUM_ISR_PLACE: usize = 8;
