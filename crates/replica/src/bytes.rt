// The bytes of records and replicas, put at a place of a lent buffer, where the place behind them is answered, and read at a
// place of lent bytes. The caller of each function shows that the buffer has room for the part, or that the part is there.
ghost use Rattle.std.specs.Prelude.{◌≡◌, ◌+◌, ◌≤◌, length, drop};
ghost use Rattle.logic.specs.Concat.{concat_below};
ghost use Rattle.logic.specs.Stores.{Stored};
ghost use Rattle.replica.specs.ReplicaBytes.{log_record_width, record_bytes, record_bytes_at, replica_head_by, record_of};

use crate::{Record, Replica};
use parts::bytes::{put_bytes, put_each};

// How many bytes a replica without its log, and a record have.
pub const HEAD_WIDTH: usize = 5;

pub const LOG_RECORD_WIDTH: usize = 2;

// Where a replica's end stands among its bytes.
pub const END_PLACE: usize = 4;

// A record: id, epoch.
fn put_record(out: &mut [u8], at: usize, r: Record) -> usize
    requires { at + length (record_bytes r) ≤ length out.old }
    ensures { Stored out.old at (record_bytes r) out.new result }
{
    let pair = [r.id, parts::epoch_byte(r.epoch)];
    put_bytes(&mut out[..], at, &pair)
}

// The first records of a log, as many as are asked for. The caller shows that the array has them, and the buffer room.
pub fn put_log(out: &mut [u8], at: usize, p: Replica, count: usize) -> usize
    requires count_bound { count ≤ 16 }
    requires p_in_bounds { at + length (concat_below count (record_bytes_at p)) ≤ length out.old }
    ensures { Stored out.old at (concat_below count (record_bytes_at p)) out.new result }
{
    put_each(out, at, &p.log[..count], put_record)
}

// A replica up to its log: hw, epoch, leader, ISR, end. The leader comes as the byte that stands for it. The caller shows that
// the buffer has room.
pub fn put_head(out: &mut [u8], at: usize, p: Replica, leader: u8) -> usize
    requires { at + length (replica_head_by p leader) ≤ length out.old }
    ensures { Stored out.old at (replica_head_by p leader) out.new result }
{
    let head = [p.hw, parts::epoch_byte(p.epoch), leader, p.isr, p.end];
    put_bytes(&mut out[..], at, &head)
}

// A record: id, epoch. The caller shows that its two bytes are there.
pub fn record_of(bytes: &[u8], at: usize) -> Record
    requires { at + log_record_width ≤ length bytes.now }
    ensures { result ≡ record_of (drop at bytes.now) }
{
    let epoch = parts::epoch_of_byte(bytes[at + 1]);
    Record {
        id: bytes[at],
        epoch: epoch,
    }
}
