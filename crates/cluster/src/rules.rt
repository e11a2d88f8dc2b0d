// The state rules S1 to S7. Each rule after S1 relies on those before it: it takes a state that meets S1, and where it asks for more
// its `requires` says what.
ghost use Rattle.std.specs.Prelude.{None, is_some, IfSome, true, ◌≡◌, ◌≤◌, ◌<◌, not, ◌&&◌, ◌||◌, eqb};
ghost use Rattle.logic.specs.Tests.{all_below, every};
ghost use Rattle.parts.specs.Isr.{member};
ghost use Rattle.parts.specs.Leader.{names, same_leader};
ghost use Rattle.cluster.specs.State.{replica_count_of, log_size_of, next_leader_epoch_of, next_record_id_of};
ghost use Rattle.cluster.specs.Rules.{between, in_range, rule1, leader_and_isr_in_range, replica_in_range, replica_in_range_at, request_in_range_at, rule2, quorum_matches_request, rule3, request_leader_in_isr, rule4, replica_matches_request, replica_meets_s5, rule5, rule6, rules, Bounded, LogsBounded};
ghost use Rattle.cluster.specs.OnePass.{quorum_and_requests_in_range, pass_tests};

use crate::{Limits, Quorum, Request, State};
use replica::Replica;

// Whether n is from low to high.
#[tactic(auto, unfolding(crate::specs::Rules::between))]
fn is_between(low: u8, high: u8, n: u8) -> bool
    ensures { result ≡ between low high n }
{
    low <= n && n <= high
}

// Whether R, L, M and X are in range.
#[tactic(auto, unfolding(crate::specs::Rules::in_range, logic::specs::Tests::every))]
pub fn limits_in_range(c: Limits) -> bool
    ensures { result ≡ in_range c }
{
    is_between(1, 5, c.replica_count)
        && is_between(1, 16, c.log_size)
        && is_between(1, 64, c.max_records)
        && c.max_leader_epoch <= 15
}

// S1 of a configuration, a next epoch and a next id.
#[tactic(auto, using(crate::specs::RuleLaws::ranges_of), unfolding(crate::specs::Rules::rule1, logic::specs::Tests::every))]
pub fn sizes_in_range(c: Limits, next_epoch: u8, next_id: u8) -> bool
    ensures { result ≡ rule1 c next_epoch next_id }
{
    limits_in_range(c) && next_epoch <= c.max_leader_epoch + 1 && next_id <= c.max_records
}

// A state that meets S1. What S1 says of its sizes stands beside: no array of it is read past its end.
#[derive(Clone, Copy)]
pub(crate) struct SizedState {
    pub(crate) state: State,
    ghost meets_s1: { rule1 state.limits (next_leader_epoch_of state) (next_record_id_of state) ≡ true },
    ghost bounded: { Bounded state },
    ghost short_logs: { log_size_of state.limits ≤ 16 },
}

impl SizedState {
    // The state where it meets S1: R, L, M, X in range; next epoch at most X+1; next id at most M.
    #[tactic(auto, using(crate::specs::RuleLaws::bounded_of, crate::specs::RuleLaws::sizes_of))]
    pub(crate) fn new(state: State) -> Option<SizedState>
        ensures meets_s1 { is_some result ≡ rule1 state.limits (next_leader_epoch_of state) (next_record_id_of state) }
        ensures state { IfSome result (λ sized. sized.state ≡ state) }
    {
        if !sizes_in_range(state.limits, state.next_leader_epoch, state.next_record_id) {
            return None;
        }
        Some(SizedState { state })
    }
}

// Whether a leader and an ISR are within n replicas.
#[tactic(auto, unfolding(crate::specs::Rules::leader_and_isr_in_range))]
fn leader_and_isr_in_range(n: u8, leader: Option<u8>, isr: u8) -> bool
    requires { n ≤ 5 }
    ensures { result ≡ leader_and_isr_in_range n leader isr }
{
    leader.is_none_or(|b| b < n) && parts::isr_below(n, isr)
}

// S2 of one replica.
#[tactic(auto, unfolding(crate::specs::Rules::replica_in_range))]
fn replica_in_range(c: Limits, p: Replica) -> bool
    requires { replica_count_of c ≤ 5 }
    ensures { result ≡ replica_in_range c p }
{
    p.end <= c.log_size && leader_and_isr_in_range(c.replica_count, p.leader, p.isr)
}

// S2 of every replica.
fn replicas_in_range(s: SizedState) -> bool
    ensures { result ≡ all_below (replica_count_of s.state.limits) (replica_in_range_at s.state.limits s.state.replicas) }
{
    let c = s.state.limits;
    s.state.replicas[..c.replica_count as usize]
        .iter()
        .all(|p| replica_in_range(c, *p))
}

// S2 of every request.
fn requests_in_range(requests: [Request; 16], next: u8, count: u8) -> bool
    requires next_bound { next ≤ 16 }
    requires count_bound { count ≤ 5 }
    ensures { result ≡ all_below next (request_in_range_at count requests) }
{
    requests[..next as usize]
        .iter()
        .all(|q| leader_and_isr_in_range(count, q.leader, q.isr))
}

// S2 of the quorum and of every request.
#[tactic(auto, unfolding(crate::specs::OnePass::quorum_and_requests_in_range))]
fn quorum_and_requests_in_range(s: SizedState) -> bool
    ensures { result ≡ quorum_and_requests_in_range s.state }
{
    let n = s.state.limits.replica_count;
    leader_and_isr_in_range(n, s.state.quorum.leader, s.state.quorum.isr)
        && requests_in_range(s.state.requests, s.state.next_leader_epoch, n)
}

// S2: every end at most L; every leader none or below R; every ISR within the replicas.
#[tactic(auto, unfolding(crate::specs::Rules::rule2, logic::specs::Tests::every))]
pub(crate) fn rule_2(s: SizedState) -> bool
    ensures { result ≡ rule2 s.state.limits (next_leader_epoch_of s.state) s.state.quorum s.state.requests s.state.replicas }
{
    quorum_and_requests_in_range(s) && replicas_in_range(s)
}

// Whether there is no leader, and the ISR is the one given.
fn no_leader_with_isr(leader: Option<u8>, isr: u8, expected: u8) -> bool
    ensures { result ≡ same_leader leader None && eqb isr expected }
{
    leader.is_none() && isr == expected
}

// Whether the quorum has the leader, and at the start the ISR, that S3 asks of it.
#[tactic(auto, using(crate::specs::RuleLaws::quorum_start, crate::specs::RuleLaws::quorum_later))]
fn quorum_matches_request(count: u8, q: Quorum, requests: [Request; 16], next: u8) -> bool
    requires count_bound { count ≤ 5 }
    requires next_bound { next ≤ 16 }
    ensures { result ≡ quorum_matches_request count q requests next }
{
    let n = next as usize;
    if n == 0 {
        return no_leader_with_isr(q.leader, q.isr, parts::full_isr(count));
    }
    q.leader == requests[n - 1].leader
}

// S3: quorum epoch is next epoch minus 1; at -1 no leader and a full ISR, otherwise the leader of the last request.
#[tactic(auto, unfolding(crate::specs::Rules::rule3, parts::specs::Epoch::same_epoch))]
pub(crate) fn rule_3(s: SizedState) -> bool
    ensures { result ≡ rule3 (replica_count_of s.state.limits) (next_leader_epoch_of s.state) s.state.quorum s.state.requests }
{
    s.state.quorum.epoch == parts::last_epoch(s.state.next_leader_epoch)
        && quorum_matches_request(
            s.state.limits.replica_count,
            s.state.quorum,
            s.state.requests,
            s.state.next_leader_epoch,
        )
}

// S4 of every request.
fn request_leaders_in_isr(requests: [Request; 16], next: u8) -> bool
    requires { next ≤ 16 }
    ensures { result ≡ all_below next (request_leader_in_isr requests) }
{
    requests[..next as usize]
        .iter()
        .all(|q| q.leader.is_none_or(|b| parts::is_member(q.isr, b)))
}

// S4: in the quorum and in each request, the leader is none or in the ISR there.
#[tactic(auto, unfolding(crate::specs::Rules::rule4))]
pub(crate) fn rule_4(s: SizedState) -> bool
    ensures { result ≡ rule4 (next_leader_epoch_of s.state) s.state.quorum s.state.requests }
{
    s.state
        .quorum
        .leader
        .is_none_or(|b| parts::is_member(s.state.quorum.isr, b))
        && request_leaders_in_isr(s.state.requests, s.state.next_leader_epoch)
}

// The first two sentences of S5, of one replica: at -1 it has no leader and an empty ISR, otherwise an epoch that is used and the
// leader of its request.
#[tactic(auto, using(parts::specs::EpochLaws::used_place))]
fn replica_matches_request(
    requests: [Request; 16],
    next: u8,
    epoch: i8,
    leader: Option<u8>,
    isr: u8,
) -> bool
    requires { next ≤ 16 }
    ensures { result ≡ replica_matches_request next requests epoch leader isr }
{
    if epoch == -1 {
        return no_leader_with_isr(leader, isr, 0);
    }
    parts::epoch_used(next, epoch) && leader == requests[parts::request_place(epoch)].leader
}

// Whether a replica named a that is its own leader is in its own ISR.
fn own_leader_in_isr(leader: Option<u8>, isr: u8, a: u8) -> bool
    ensures { result ≡ not (names leader a) || member isr a }
{
    leader != Some(a) || parts::is_member(isr, a)
}

// S5 of the replica p named i.
#[tactic(auto, unfolding(crate::specs::Rules::replica_meets_s5, logic::specs::Tests::every))]
fn replica_meets_s5(requests: [Request; 16], next: u8, p: Replica, i: usize) -> bool
    requires next_bound { next ≤ 16 }
    requires i_bound { i < 5 }
    ensures { result ≡ replica_meets_s5 next requests p i }
{
    replica_matches_request(requests, next, p.epoch, p.leader, p.isr)
        && own_leader_in_isr(p.leader, p.isr, i as u8)
        && p.hw <= p.end
}

// S5: each replica's epoch is from -1 to next epoch minus 1; at -1 it has no leader and an empty ISR, otherwise the leader of its
// epoch's request; one that is its own leader is in its own ISR; hw is at most its end.
pub(crate) fn rule_5(s: SizedState) -> bool
    ensures { result ≡ rule5 (replica_count_of s.state.limits) (next_leader_epoch_of s.state) s.state.requests s.state.replicas }
{
    s.state.replicas[..s.state.limits.replica_count as usize]
        .iter()
        .enumerate()
        .all(|(i, p)| replica_meets_s5(s.state.requests, s.state.next_leader_epoch, *p, i))
}

// S6: each record's id is below next id, its epoch from 0 to next epoch minus 1.
pub(crate) fn rule_6(s: SizedState) -> bool
    requires { LogsBounded s.state }
    ensures { result ≡ rule6 (replica_count_of s.state.limits) (next_record_id_of s.state) (next_leader_epoch_of s.state) s.state.replicas }
{
    s.state.replicas[..s.state.limits.replica_count as usize]
        .iter()
        .all(|p| p.log_is_in_use(s.state.next_record_id, s.state.next_leader_epoch))
}

// S2, S5, S6 and S7 of the replicas, in one pass over them: a test of its own for each would copy the state each time. S7
// (records with one id, in one log or two, stand at one offset and carry one epoch) goes by a table of the entries seen so far,
// by id. Nothing past an end is read.
fn replicas_meet(s: SizedState) -> bool
    ensures { result ≡ every (pass_tests s.state) }
{
    let c = s.state.limits;
    let mut seen = [0u16; 256];
    for i in 0..c.replica_count as usize {
        let p = s.state.replicas[i];
        if !replica_in_range(c, p) {
            return false;
        }
        if !replica_meets_s5(s.state.requests, s.state.next_leader_epoch, p, i) {
            return false;
        }
        if !p.log_meets_s6_s7(s.state.next_record_id, s.state.next_leader_epoch, &mut seen) {
            return false;
        }
    }
    true
}

// Whether the state meets S2 to S7 too.
#[tactic(auto, using(crate::specs::OnePass::by_one_pass), unfolding(logic::specs::Tests::every))]
pub(crate) fn meets_rules(s: SizedState) -> bool
    ensures { result ≡ rules s.state }
{
    quorum_and_requests_in_range(s) && rule_3(s) && rule_4(s) && replicas_meet(s)
}
