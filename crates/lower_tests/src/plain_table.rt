//! The table as a row of claims, each of which every call looks at: what the map has to answer too.

use access_slots::lock::{Lock, LockSet};
use access_slots::slot::Mode;
use lock_table::table::Busy;
use std::alloc::{AllocError, Global};

// A lock that a transaction holds.
#[derive(Clone, Copy)]
struct Claim {
    txn: u64,
    lock: Lock,
}

impl Claim {
    // Whether it is on the lock's record, and one of the two is for writing.
    fn bars(&self, lock: &Lock) -> bool {
        self.lock.record == lock.record
            && (self.lock.mode == Mode::Write || lock.mode == Mode::Write)
    }
}

#[derive(Drop)]
pub struct PlainTable {
    claims: Vec<Claim>,
}

impl PlainTable {
    pub fn new(alloc: Global) -> PlainTable {
        PlainTable {
            claims: Vec::new(alloc),
        }
    }

    // The least transaction with a claim that bars the lock.
    fn least_holder(&self, lock: &Lock) -> Option<u64> {
        let mut holder = None;
        for claim in self.claims.as_slice() {
            if claim.bars(lock) {
                holder = Some(match holder {
                    Some(other) => claim.txn.min(other),
                    None => claim.txn,
                });
            }
        }
        holder
    }

    /// The first of these locks that is barred, and its least holder.
    pub fn busy(&self, set: &LockSet) -> Option<Busy> {
        for lock in set.locks() {
            if let Some(holder) = self.least_holder(lock) {
                return Some(Busy {
                    name: lock.record,
                    holder,
                });
            }
        }
        None
    }

    /// Gives the transaction these locks where nothing is in the way.
    pub fn grant(&mut self, txn: u64, set: &LockSet) -> Result<Result<(), Busy>, AllocError> {
        if let Some(busy) = self.busy(set) {
            return Ok(Err(busy));
        }
        for lock in set.locks() {
            self.claims.reserve(1)?;
            self.claims.push_reserved(Claim { txn, lock: *lock });
        }
        Ok(Ok(()))
    }

    pub fn release(&mut self, txn: u64) {
        self.claims.retain(|claim| claim.txn != txn);
    }
}
