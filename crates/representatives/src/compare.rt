// The comparison of two renamings of a state, p and q: field by field in the order of an image, with no image of either and no
// renamed state.
ghost use Rattle.std.specs.Prelude.{◌≡◌, ◌≤◌, true};
ghost use Rattle.parts.specs.Leader.{leader_byte};
ghost use Rattle.renamings.specs.Names.{new_name};
ghost use Rattle.renamings.specs.Rename.{rename_leader, Renames};
ghost use Rattle.representatives.specs.Comparison.{compare_numbers, compare_bytes};
ghost use Rattle.representatives.specs.Fields.{compare_two, compare_records, compare_logs, compare_named, compare_heads, compare_replicas, compare_all_replicas, compare_all_requests};
ghost use Rattle.representatives.specs.Representative.{image_under};

use cluster::ValidState;
use renamings::{Renaming, state};
use replica::{Record, Replica};
use std::cmp::Ordering;

// Two numbers. The library's `cmp` tests equality first: that compiles to a branch that leaves at once.
#[tactic(auto, using(crate::specs::Comparison::cmp_numbers))]
fn compare_numbers(x: u8, y: u8) -> Ordering
    ensures { result ≡ compare_numbers x y }
{
    x.cmp(&y)
}

// x and then y with z and then w.
fn compare_two(x: u8, y: u8, z: u8, w: u8) -> Ordering
    ensures { result ≡ compare_two x y z w }
{
    compare_numbers(x, z).then_with(|| compare_numbers(y, w))
}

// Records: id, epoch.
fn compare_records(r: Record, t: Record) -> Ordering
    ensures { result ≡ compare_records r t }
{
    compare_two(
        r.id,
        parts::epoch_byte(r.epoch),
        t.id,
        parts::epoch_byte(t.epoch),
    )
}

// Logs, up to the first one's end. The caller shows that it is in the array.
#[tactic(auto, using(crate::specs::Comparison::by_turns), unfolding(crate::specs::Fields::compare_logs))]
fn compare_logs(a: Replica, b: Replica) -> Ordering
    requires { a.end ≤ 16 }
    ensures { result ≡ compare_logs a b }
{
    for x in 0..a.end as usize {
        let here = compare_records(a.log[x], b.log[x]);
        if here.is_ne() {
            return here;
        }
    }
    Ordering::Equal
}

// The byte of a leader by its new name.
pub(crate) fn leader_byte(p: [u8; 5], leader: Option<u8>) -> u8
    ensures { result ≡ leader_byte (rename_leader (new_name p) leader) }
{
    parts::leader_byte(state::rename_leader(p, leader))
}

// Leaders and ISRs: l and isr by the names of p, m and other by those of q.
fn compare_named(
    p: Renaming,
    q: Renaming,
    l: Option<u8>,
    isr: u8,
    m: Option<u8>,
    other: u8,
) -> Ordering
    ensures { result ≡ compare_named p.names q.names l isr m other }
{
    compare_numbers(leader_byte(p.names, l), leader_byte(q.names, m)).then_with(|| compare_numbers(
        p.rename_isr(isr),
        q.rename_isr(other),
    ))
}

// Replicas up to their logs: hw, epoch, leader, ISR, end.
fn compare_heads(p: Renaming, q: Renaming, a: Replica, b: Replica) -> Ordering
    ensures { result ≡ compare_heads p.names q.names a b }
{
    compare_two(
        a.hw,
        parts::epoch_byte(a.epoch),
        b.hw,
        parts::epoch_byte(b.epoch),
    )
    .then_with(|| compare_named(p, q, a.leader, a.isr, b.leader, b.isr))
    .then_with(|| compare_numbers(a.end, b.end))
}

// Replicas; `same` says that they are one replica, whose log need not be compared with itself. The caller shows that it is so, and
// that the first one's end is in its array.
#[tactic(auto, using(crate::specs::Comparison::by_parts, crate::specs::Fields::log_same), unfolding(crate::specs::Fields::compare_replicas))]
fn compare_replicas(p: Renaming, q: Renaming, a: Replica, b: Replica, same: bool) -> Ordering
    requires end_bound { a.end ≤ 16 }
    requires b_value { same ≡ true → b ≡ a }
    ensures { result ≡ compare_replicas p.names q.names a b }
{
    let head = compare_heads(p, q, a, b);
    if head.is_ne() {
        return head;
    }
    if same {
        return Ordering::Equal;
    }
    compare_logs(a, b)
}

// The replicas, in the order of their new names. The caller shows that p is a renaming of the state's replicas.
#[tactic(auto, using(crate::specs::Comparison::by_turns, renamings::specs::CodeLaws::back_old, crate::specs::CodeLaws::old_short), unfolding(crate::specs::Fields::compare_all_replicas))]
fn compare_all_replicas(s: ValidState, p: Renaming, q: Renaming) -> Ordering
    requires { Renames s.state p.names }
    ensures { result ≡ compare_all_replicas s.state p.names q.names }
{
    let old_p = p.inverse().names;
    let old_q = q.inverse().names;
    for j in 0..s.state.limits.replica_count as usize {
        let a = s.state.replicas[old_p[j] as usize];
        let b = s.state.replicas[old_q[j] as usize];
        let here = compare_replicas(p, q, a, b, old_p[j] == old_q[j]);
        if here.is_ne() {
            return here;
        }
    }
    Ordering::Equal
}

// The requests, each by the names of p and by those of q.
#[tactic(auto, using(crate::specs::Comparison::by_turns), unfolding(crate::specs::Fields::compare_all_requests))]
fn compare_all_requests(s: ValidState, p: Renaming, q: Renaming) -> Ordering
    ensures { result ≡ compare_all_requests s.state p.names q.names }
{
    for e in 0..s.state.next_leader_epoch as usize {
        let r = s.state.requests[e];
        let here = compare_named(p, q, r.leader, r.isr, r.leader, r.isr);
        if here.is_ne() {
            return here;
        }
    }
    Ordering::Equal
}

// The image of the state under p with that under q, by the fields: the quorum, the requests, the replicas. All else is the same in
// both. The caller shows that p and q are renamings of the state's replicas.
#[tactic(auto, using(crate::specs::Comparison::by_parts, crate::specs::Fields::compare_images), unfolding(crate::specs::Fields::compare_under))]
pub(crate) fn compare_under(s: ValidState, p: Renaming, q: Renaming) -> Ordering
    requires renames { Renames s.state p.names }
    requires renames_2 { Renames s.state q.names }
    ensures { result ≡ compare_bytes (image_under s.state p.names) (image_under s.state q.names) }
{
    let quorum = s.state.quorum;
    let first = compare_named(p, q, quorum.leader, quorum.isr, quorum.leader, quorum.isr);
    if first.is_ne() {
        return first;
    }
    let second = compare_all_requests(s, p, q);
    if second.is_ne() {
        return second;
    }
    compare_all_replicas(s, p, q)
}
