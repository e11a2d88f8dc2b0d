// The writer: each part is put at a place of the buffer, and the place behind it is answered. The length of the image is found
// before anything is put. The caller of each function shows that the buffer has room for the part, and that no log or array is
// read past its end.
ghost use Rattle.std.specs.Prelude.{◌≡◌, ◌+◌, ◌≤◌, length};
ghost use Rattle.logic.specs.Concat.{concat_below};
ghost use Rattle.logic.specs.Stores.{Stored};
ghost use Rattle.images.specs.Image.{request_bytes, replica_bytes, replicas_bytes, header_bytes, image};
ghost use Rattle.images.specs.WriteLaws.{request_bytes_in};

use crate::{HEADER_WIDTH, MARK_SECOND, REQUEST_WIDTH};
use cluster::{Request, State, ValidState};
use parts::bytes::{put_bytes, put_each};
use parts::mark;
use replica::Replica;
use replica::bytes::{HEAD_WIDTH, LOG_RECORD_WIDTH, put_head, put_log};

// A request: leader, ISR.
fn put_request(out: &mut [u8], at: usize, q: Request) -> usize
    requires { at + length (request_bytes q) ≤ length out.old }
    ensures { Stored out.old at (request_bytes q) out.new result }
{
    put_bytes(out, at, &[parts::leader_byte(q.leader), q.isr])
}

// The first requests, as many as are asked for. They come without the state, which would be copied.
fn put_requests(out: &mut [u8], at: usize, requests: [Request; 16], count: usize) -> usize
    requires count_bound { count ≤ 16 }
    requires requests_in_bounds { at + length (concat_below count (request_bytes_in requests)) ≤ length out.old }
    ensures { Stored out.old at (concat_below count (request_bytes_in requests)) out.new result }
{
    put_each(out, at, &requests[..count], put_request)
}

// A replica: hw, epoch, leader, ISR, end, and its log.
#[tactic(auto, using(logic::specs::Stores::stored_length), unfolding(crate::specs::Image::replica_bytes, crate::specs::Image::log_bytes))]
fn put_replica(out: &mut [u8], at: usize, p: Replica) -> usize
    requires end_bound { p.end ≤ 16 }
    requires p_in_bounds { at + length (replica_bytes p) ≤ length out.old }
    ensures { Stored out.old at (replica_bytes p) out.new result }
{
    let log = put_head(out, at, p, parts::leader_byte(p.leader));
    put_log(out, log, p, p.end as usize)
}

// The replicas 0 to R-1.
fn put_replicas(out: &mut [u8], at: usize, valid: ValidState) -> usize
    requires { at + length (replicas_bytes valid.state) ≤ length out.old }
    ensures { Stored out.old at (replicas_bytes valid.state) out.new result }
{
    let count = valid.state.limits.replica_count as usize;
    put_each(out, at, &valid.state.replicas[..count], put_replica)
}

// The first ten bytes.
fn put_header(out: &mut [u8], s: State) -> usize
    requires { length (header_bytes s) ≤ length out.old }
    ensures { Stored out.old 0 (header_bytes s) out.new result }
{
    let limits = s.limits;
    let quorum = s.quorum;
    let header = [
        mark::FIRST,
        MARK_SECOND,
        limits.replica_count,
        limits.log_size,
        limits.max_records,
        limits.max_leader_epoch,
        s.next_leader_epoch,
        s.next_record_id,
        parts::leader_byte(quorum.leader),
        quorum.isr,
    ];
    put_bytes(out, 0, &header)
}

// The image of a state, at the front of the buffer. The caller shows that the buffer has room for it.
#[tactic(auto, using(logic::specs::Stores::stored_length), unfolding(crate::specs::Image::image, crate::specs::Image::requests_bytes))]
pub(crate) fn put_image(out: &mut [u8], valid: ValidState) -> usize
    requires { length (image valid.state) ≤ length out.old }
    ensures { Stored out.old 0 (image valid.state) out.new result }
{
    let requests = put_header(out, valid.state);
    let replicas = put_requests(
        out,
        requests,
        valid.state.requests,
        valid.state.next_leader_epoch as usize,
    );
    put_replicas(out, replicas, valid)
}

// How many bytes the replicas take.
fn replicas_length(valid: ValidState) -> usize
    ensures { result ≡ length (replicas_bytes valid.state) }
{
    let count = valid.state.limits.replica_count as usize;
    valid.state.replicas[..count]
        .iter()
        .map(|p| HEAD_WIDTH + LOG_RECORD_WIDTH * (p.end as usize))
        .sum()
}

// The length of the image of a state.
#[tactic(auto, using(crate::specs::ImageLaws::image_length, crate::specs::ImageLaws::image_most))]
pub(crate) fn image_length(valid: ValidState) -> usize
    ensures { result ≡ length (image valid.state) }
{
    let requests = valid.state.next_leader_epoch as usize;
    HEADER_WIDTH + REQUEST_WIDTH * requests + replicas_length(valid)
}
