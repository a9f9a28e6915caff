// What has happened, and what is kept beside it.

ghost use Rattle.std.specs.Prelude.{◌≡◌, List, [], replicate, IfOk};
ghost use Rattle.verifier.specs.Checked.{Checked};
ghost use Rattle.transactions.specs.Reached.{AllGood};
ghost use Rattle.transactions.specs.InFlight.{untold};
ghost use Rattle.tc_core.specs.Kept.{IsBook};

use crate::given_up::GivenUp;
use crate::open_txns::OpenTxns;
use crate::sites::{starts, untold};
use lock_table::table::LockTable;
use request_numbers::numbers::Numbers;
use std::alloc::{AllocError, Global};
use tc_log::log::Log;
use transactions::Site;

/// The log, and beside it what the log says: open transactions, locks, numbers, and how much open
/// transactions may still log and number; and what was told of data components.
#[derive(Drop)]
pub struct Book {
    pub txns: OpenTxns,
    pub locks: LockTable,
    pub numbers: Numbers,
    pub log: Log,
    pub given_up: GivenUp,
    // What was told of each data component.
    pub sites: Vec<Site>,
    // For each data component a place of the log before which its redo needs not look.
    pub starts: Vec<usize>,
    // The serial number of the transaction that was admitted last.
    pub serials: u64,
    // How many events open transactions may still log.
    pub owed: usize,
    // How many numbers they may still be given.
    pub promised: u64,
}

impl Book {
    /// Nothing has happened.
    pub fn new(alloc: Global, dcs: u16) -> Result<Book, AllocError>
        ensures kept { IfOk result (λ b. (codes : List Checked) → AllGood codes → IsBook codes b) }
        ensures events { IfOk result (λ b. b.log.events ≡ []) }
        ensures given_up { IfOk result (λ b. b.given_up.numbers ≡ []) }
        ensures sites { IfOk result (λ b. b.sites.items ≡ replicate dcs untold) }
    {
        let sites = untold(alloc, dcs)?;
        let starts = starts(alloc, dcs)?;
        Ok(Book {
            txns: OpenTxns::new(alloc),
            locks: LockTable::new(alloc),
            numbers: Numbers::new(alloc),
            log: Log::new(alloc),
            given_up: GivenUp::new(alloc),
            sites,
            starts,
            serials: 0,
            owed: 0,
            promised: 0,
        })
    }
}
