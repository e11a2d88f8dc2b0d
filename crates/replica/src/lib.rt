// One replica and its log of records.
#![tactic(auto)]

pub mod bytes;

ghost use Rattle.std.specs.Prelude.{◌≡◌, cond, [], ◌∷◌, ◌≤◌, ◌<◌, ltb};
ghost use Rattle.logic.specs.Tests.{every};
ghost use Rattle.logic.specs.Entries.{entry, Passed};
ghost use Rattle.replica.specs.Replica.{zero_record, zero_replica, record_at, tidy_replica};
ghost use Rattle.replica.specs.Log.{record_in_use, log_in_use, same_record};
ghost use Rattle.replica.specs.Entries.{offset_and_epoch, LogMet};
ghost use Rattle.replica.specs.Change.{with_hw, with_request, append, truncate_to, truncate_under, become_follower_and_truncate_to};

use std::array;

// A record: its id, and the epoch of the leader that wrote it.
#[derive(Clone, Copy, PartialEq, Eq)]
pub struct Record {
    pub id: u8,
    pub epoch: i8,
}

// A replica. Its log holds end records; what stands behind them is no part of it.
#[derive(Clone, Copy)]
pub struct Replica {
    pub hw: u8,
    pub epoch: i8,
    pub leader: Option<u8>,
    pub isr: u8,
    pub end: u8,
    pub log: [Record; 16],
}

impl Record {
    // The record where its offset x is below the log's end, else zeros.
    fn below(self, x: usize, end: u8) -> Record
        ensures { result ≡ cond (ltb x end) self zero_record }
    {
        if x < end as usize {
            self
        } else {
            Record { id: 0, epoch: 0 }
        }
    }

    // Rule S6 of one record.
    #[tactic(auto, unfolding(crate::specs::Log::record_in_use))]
    fn is_in_use(self, next_id: u8, next_epoch: u8) -> bool
        ensures { result ≡ record_in_use next_id next_epoch self }
    {
        self.id < next_id && parts::epoch_used(next_epoch, self.epoch)
    }

    // Whether two logs hold the same record at offset x: both have it, and id and epoch agree. This one and the other are what
    // stands at x in the two arrays; the logs have these records where x is below their ends.
    #[tactic(auto, unfolding(crate::specs::Log::same_record, logic::specs::Tests::every, parts::specs::Epoch::same_epoch))]
    pub fn same_below_ends(self, other: Record, x: u8, end: u8, other_end: u8) -> bool
        ensures { result ≡ every (ltb x end ∷ ltb x other_end ∷ same_record self other ∷ []) }
    {
        x < end && x < other_end && self == other
    }

    // The offset x, counted from 1, and this record's epoch as one number, which is never 0. Two records in use of one id agree
    // (rule S7) exactly where their numbers are equal. The caller shows that the offset is in the array.
    fn offset_and_epoch(self, x: usize) -> u16
        requires { x < 16 }
        ensures { result ≡ offset_and_epoch self x }
    {
        let epoch = parts::epoch_byte(self.epoch) as u16;
        (x as u16 + 1) * 256 + epoch
    }
}

// Whether no entry of this id was seen before, or one with this value. The table has the value of each id seen, and 0 for each
// other; where none of this id was seen, this value is put in it.
fn meet(seen: &mut [u16; 256], id: u8, value: u16) -> bool
    ensures { Passed seen.old (entry id value ∷ []) result seen.new }
{
    let i = id as usize;
    let found = seen[i];
    if found == 0 {
        seen[i] = value;
        return true;
    }
    found == value
}

impl Replica {
    // All zeros.
    pub fn zero() -> Replica
        ensures { result ≡ zero_replica }
    {
        Replica {
            hw: 0,
            epoch: 0,
            leader: None,
            isr: 0,
            end: 0,
            log: [Record { id: 0, epoch: 0 }; 16],
        }
    }

    // The replica with zeros past the end of its log.
    pub fn tidy(self) -> Replica
        ensures { result ≡ tidy_replica self }
    {
        let mut p = self;
        p.log = array::from_fn(|x| self.log[x].below(x, self.end));
        p
    }

    // Rule S6 of the replica's log. The caller shows that its end is in its array.
    pub fn log_is_in_use(self, next_id: u8, next_epoch: u8) -> bool
        requires { self.end ≤ 16 }
        ensures { result ≡ log_in_use next_id next_epoch self }
    {
        self.log[..self.end as usize]
            .iter()
            .all(|r| r.is_in_use(next_id, next_epoch))
    }

    // Rules S6 and S7 of the replica's log, given the records seen before it: each record is in use, and one of an id that was
    // seen stands at the offset and carries the epoch that the table has for that id. Where both hold, the table then has the
    // entries of this log too; where one fails, nothing is said of the table. The caller shows that its end is in its array.
    pub fn log_meets_s6_s7(self, next_id: u8, next_epoch: u8, seen: &mut [u16; 256]) -> bool
        requires { self.end ≤ 16 }
        ensures { LogMet next_id next_epoch self seen.old result seen.new }
    {
        for x in 0..self.end as usize {
            let r = self.log[x];
            if !r.is_in_use(next_id, next_epoch) {
                return false;
            }
            if !meet(seen, r.id, r.offset_and_epoch(x)) {
                return false;
            }
        }
        true
    }

    // The record at an offset. The caller shows that the offset is in the array.
    pub fn record_at(self, x: u8) -> Record
        requires { x < 16 }
        ensures { result ≡ record_at self x }
    {
        self.log[x as usize]
    }

    // The replica with another high watermark.
    #[tactic(auto, unfolding(crate::specs::Change::with_hw))]
    pub fn with_hw(self, hw: u8) -> Replica
        ensures { result ≡ with_hw self hw }
    {
        Replica { hw, ..self }
    }

    // The replica with the epoch, the leader and the ISR of a request.
    #[tactic(auto, unfolding(crate::specs::Change::with_request))]
    pub fn with_request(self, epoch: i8, leader: Option<u8>, isr: u8) -> Replica
        ensures { result ≡ with_request self epoch leader isr }
    {
        Replica {
            epoch,
            leader,
            isr,
            ..self
        }
    }

    // The replica with a record added at its end. The caller shows that its array has room.
    #[tactic(auto, unfolding(crate::specs::Change::append))]
    pub fn append(self, added: Record) -> Replica
        requires { self.end < 16 }
        ensures { result ≡ append self added }
    {
        let mut p = self;
        p.log[p.end as usize] = added;
        p.end += 1;
        p
    }

    // The replica with its log cut to an offset, and zeros behind it. An offset past the end cuts nothing.
    #[tactic(auto, unfolding(crate::specs::Change::truncate_to, crate::specs::Change::with_end))]
    fn truncate_to(self, offset: u8) -> Replica
        ensures { result ≡ truncate_to self offset }
    {
        let end = offset.min(self.end);
        Replica { end, ..self }.tidy()
    }

    // The replica with its log cut where a leader is named, and kept where none is.
    #[tactic(auto, unfolding(crate::specs::Change::truncate_under))]
    fn truncate_under(self, leader: Option<u8>, offset: u8) -> Replica
        ensures { result ≡ truncate_under leader self offset }
    {
        match leader {
            None => self,
            Some(_) => self.truncate_to(offset),
        }
    }

    // The replica as a follower under a request, with its log cut to an offset where the request names a leader, and its
    // high watermark the smaller of itself and that offset.
    #[tactic(auto, unfolding(crate::specs::Change::become_follower_and_truncate_to))]
    pub fn become_follower_and_truncate_to(
        self,
        epoch: i8,
        leader: Option<u8>,
        isr: u8,
        offset: u8,
    ) -> Replica
        ensures { result ≡ become_follower_and_truncate_to self epoch leader isr offset }
    {
        self.truncate_under(leader, offset)
            .with_hw(offset.min(self.hw))
            .with_request(epoch, leader, isr)
    }
}
