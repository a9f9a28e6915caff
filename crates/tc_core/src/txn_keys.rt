// The keys of open transactions by serial number.

ghost use Rattle.std.specs.Prelude.{◌≡◌, ◌<◌, ◌≤◌, ℕ, [], Some, None, nat_eq, OnOk};
ghost use Rattle.std.specs.Map.{lookup};
ghost use Rattle.indexmap.specs.IndexMap.{get, spare};
ghost use Rattle.tc_core.specs.Joining.Keys.{with_last, key_of, Changes};

use indexmap::IndexMap;
use std::alloc::{AllocError, Global};
use std::marker::Model;

#[derive(Clone, Copy)]
struct Place {
    serial: u64,
    key: usize,
}

/// The keys of open transactions by serial number. Contracts see each one's key, and room for more.
// The place that came last is listed once another one comes: that of a transaction which ends before
// the next one begins is never hashed.
#[derive(Drop)]
pub(crate) struct TxnKeys {
    last: Option<Place>,
    listed: IndexMap<u64, usize>,
}

impl Model for TxnKeys {
    ghost use Rattle.indexmap.specs.IndexMap.{spare};
    ghost use Rattle.tc_core.specs.Joining.Keys.{Keys, with_last, IsApart};

    ghost Value = { Keys };

    ghost view = { λ k. record { entries = with_last k.last k.listed.entries; room = spare k.listed } };

    ghost invariant = { λ k. IsApart k.last k.listed.entries };
}

// The place of the last one is listed too. There has to be room.
#[inline(always)]
fn list_last(last: Option<Place>, listed: &mut IndexMap<u64, usize>)
    requires { 0 < spare listed.old }
    ensures { (t : ℕ) → get nat_eq listed.new t ≡ lookup (nat_eq t) (with_last last listed.old.entries) }
{
    let Some(place) = last else {
        return;
    };
    match listed.insert(place.serial, place.key) {
        Ok(_before) => {}
        Err(_) => unreachable!(),
    }
}

impl TxnKeys {
    /// None. It takes no memory.
    pub(crate) fn new(alloc: Global) -> TxnKeys
        ensures { result.entries ≡ [] }
    {
        TxnKeys {
            last: None,
            listed: IndexMap::new(alloc),
        }
    }

    /// Makes room for one more.
    #[inline(always)]
    pub(crate) fn reserve(&mut self) -> Result<(), AllocError>
        ensures entries { self.new.entries ≡ self.old.entries }
        ensures room { OnOk result (1 ≤ self.new.room) }
    {
        self.listed.reserve(1)
    }

    /// A new transaction stands at this key. There has to be room.
    #[inline(always)]
    pub(crate) fn put(&mut self, serial: u64, key: usize)
        requires room { 0 < self.old.room }
        requires fresh { key_of self.old serial ≡ None }
        ensures { Changes self.old self.new serial (Some key) }
    {
        list_last(self.last, &mut self.listed);
        self.last = Some(Place { serial, key });
    }

    /// The transaction with this serial number has no key.
    #[inline(always)]
    pub(crate) fn take_out(&mut self, serial: u64)
        ensures { Changes self.old self.new serial None }
    {
        match self.last {
            Some(last) if last.serial == serial => self.last = None,
            _ => {
                self.listed.swap_remove(&serial);
            }
        }
    }

    /// The key of the transaction with this serial number.
    #[inline(always)]
    pub(crate) fn get(&self, serial: u64) -> Option<usize>
        ensures { result ≡ key_of self.now serial }
    {
        match self.last {
            Some(last) if last.serial == serial => Some(last.key),
            _ => self.listed.get(&serial).copied(),
        }
    }
}
