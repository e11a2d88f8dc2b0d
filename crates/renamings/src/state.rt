// A state under a renaming.
ghost use Rattle.std.specs.Prelude.{◌≡◌, ◌≤◌, ◌<◌};
ghost use Rattle.logic.specs.Table.{table};
ghost use Rattle.renamings.specs.Names.{new_name, old_name, inverted};
ghost use Rattle.renamings.specs.Rename.{rename_leader, rename_isr, rename_quorum, rename_request, rename_replica, renamed_request_at, rename_replicas, rename_state};
ghost use Rattle.renamings.specs.CodeLaws.{named_bit};

use crate::places::{self, Renaming};
use cluster::{Quorum, Request, State};
use replica::Replica;
use std::array;

// The leader by its new name.
#[tactic(auto, unfolding(crate::specs::Rename::rename_leader))]
pub fn rename_leader(p: [u8; 5], leader: Option<u8>) -> Option<u8>
    ensures { result ≡ rename_leader (new_name p) leader }
{
    leader.map(|b| places::new_name(p, b))
}

// What replica i adds to the renamed ISR: the bit of its new name where it is a member, else 0. The caller shows that there is such a
// replica, and such a name.
fn named_bit(isr: u8, i: u8, name: u8) -> u8
    requires i_bound { i < 5 }
    requires name_bound { name < 5 }
    ensures { (result ≡ named_bit isr i name) × (result ≤ 16) }
{
    ((isr >> i) % 2) << name
}

impl Renaming {
    // The leader by its new name.
    pub fn rename_leader(self, leader: Option<u8>) -> Option<u8>
        ensures { result ≡ rename_leader (new_name self.names) leader }
    {
        rename_leader(self.names, leader)
    }

    // The ISR with each member by its new name.
    pub fn rename_isr(self, isr: u8) -> u8
        ensures { result ≡ rename_isr (old_name self.names) isr }
    {
        let [a, b, c, d, e] = self.names;
        named_bit(isr, 0, a)
            + named_bit(isr, 1, b)
            + named_bit(isr, 2, c)
            + named_bit(isr, 3, d)
            + named_bit(isr, 4, e)
    }
}

// A renaming and what a state under it is made by: `from` is the inverse, which holds the old names, and `isrs` the renamed ISR of each
// ISR of five replicas. The ISRs of a state are looked up there: an ISR's remainder by 32 has the same members.
#[derive(Clone, Copy)]
struct Renamer {
    to: Renaming,
    from: Renaming,
    isrs: [u8; 32],
    ghost old_names: { from.names ≡ inverted to.names },
    ghost renamed_isrs: { isrs ≡ table 32 (rename_isr (old_name to.names)) },
}

impl Renamer {
    // By the renaming p. Making a place of the ISRs takes no branch, so many are made at a time; it is quicker for all 32 than for each
    // of the 22 ISRs of a state by itself.
    fn new(p: Renaming) -> Renamer
        ensures { result.to.names ≡ p.names }
    {
        Renamer {
            to: p,
            from: p.inverse(),
            isrs: array::from_fn(|isr| p.rename_isr(isr as u8)),
        }
    }

    // The ISR as looked up.
    #[tactic(auto, using(crate::specs::CodeLaws::isr_named))]
    fn isr(&self, isr: u8) -> u8
        ensures { result ≡ rename_isr (old_name self.now.to.names) isr }
    {
        self.isrs[(isr % 32) as usize]
    }

    // The quorum renamed.
    fn quorum(&self, q: Quorum) -> Quorum
        ensures { result ≡ rename_quorum (new_name self.now.to.names) (old_name self.now.to.names) q }
    {
        Quorum {
            leader: self.to.rename_leader(q.leader),
            isr: self.isr(q.isr),
            ..q
        }
    }

    // The request renamed.
    fn request(&self, q: Request) -> Request
        ensures { result ≡ rename_request (new_name self.now.to.names) (old_name self.now.to.names) q }
    {
        Request {
            leader: self.to.rename_leader(q.leader),
            isr: self.isr(q.isr),
        }
    }

    // The whole block of a replica renamed.
    fn replica(&self, q: Replica) -> Replica
        ensures { result ≡ rename_replica (new_name self.now.to.names) (old_name self.now.to.names) q }
    {
        Replica {
            leader: self.to.rename_leader(q.leader),
            isr: self.isr(q.isr),
            ..q
        }
    }

    // The requests renamed.
    fn requests(&self, requests: [Request; 16]) -> [Request; 16]
        ensures { result ≡ table 16 (renamed_request_at (new_name self.now.to.names) (old_name self.now.to.names) requests) }
    {
        array::from_fn(|e| self.request(requests[e]))
    }

    // The blocks renamed: place j gets that of the replica which is named j from now on.
    fn replicas(&self, replicas: [Replica; 5]) -> [Replica; 5]
        ensures { result ≡ rename_replicas (new_name self.now.to.names) (old_name self.now.to.names) replicas }
    {
        array::from_fn(|j| self.replica(replicas[self.from.names[j] as usize]))
    }
}

// The state under p.
pub fn rename_state(s: State, p: Renaming) -> State
    ensures { result ≡ rename_state (new_name p.names) (old_name p.names) s }
{
    let names = Renamer::new(p);
    State {
        quorum: names.quorum(s.quorum),
        requests: names.requests(s.requests),
        replicas: names.replicas(s.replicas),
        ..s
    }
}
