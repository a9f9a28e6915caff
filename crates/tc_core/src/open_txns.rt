// The open transactions.

ghost use Rattle.std.specs.Prelude.{◌≡◌, ◌≢◌, ◌↔◌, ◌+◌, ◌<◌, ◌≤◌, ℕ, [], length, Some, None, true, false};
ghost use Rattle.std.specs.Prelude.{IsTrue, IfSome, IfNone, IfOk, OnOk, vec_len, vec_capacity};
ghost use Rattle.lock_table.specs.Clashes.{keeps_out};
ghost use Rattle.lock_table.specs.Facts.{held_by};
ghost use Rattle.slab.specs.Slab.{get, slab_len, Updates, ContainsKey, HasRoomFor};
ghost use Rattle.transactions.specs.Standing.{Standing};
ghost use Rattle.tc_core.specs.Running.{does};
ghost use Rattle.tc_core.specs.Replies.{over_in};
ghost use Rattle.tc_core.specs.GivingUp.{Awaits};
ghost use Rattle.tc_core.specs.AtKey.{StandsAt};
ghost use Rattle.tc_core.specs.Joining.Boxes.{AreBoxed, unboxed};
ghost use Rattle.tc_core.specs.Joining.Beginning.{Entered};
ghost use Rattle.tc_core.specs.Joining.Sends.{asking_under, undoing_under, doubted};
ghost use Rattle.tc_core.specs.Joining.Hearing.{MayHear, Accepts, Heard};
ghost use Rattle.tc_core.specs.Joining.Holders.{AllStandStill, HoldsUp, Moves, IsStill};
ghost use Rattle.tc_core.specs.declared.transaction.Tx.{Tx as TxValue};

use crate::transaction::Tx;
use crate::txn_keys::TxnKeys;
use crate::undos::Undos;
use access_slots::lock::{Lock, LockSet};
use access_slots::op::{Op, Reply, Said};
use lock_table::table::LockTable;
use slab::Slab;
use std::alloc::{AllocError, Global};
use std::marker::Model;
use std::mem;
use tc_log::event::Outcome;
use transactions::Sent;
use verifier::verify::Verified;

/// The open transactions, each in a box at a key of its own, and found by its serial number. A box is
/// never moved out of: that of a transaction that ended is kept, and another one begins in it.
/// Contracts see the transactions by their keys, and whether there is room for one more.
#[derive(Drop)]
pub struct OpenTxns {
    alloc: Global,
    txns: Slab<Box<Tx>>,
    keys: TxnKeys,
    // For serial numbers in a row a key each: that of the one that began last. It is looked at before
    // `keys`, and holds where that one stands there.
    hints: [usize; HINTS],
    boxes: Vec<Box<Tx>>,
}

// How many transactions may be open at a time, of serial numbers in a row, so that each has a hint.
const HINTS: usize = 64;

impl Model for OpenTxns {
    ghost use Rattle.std.specs.Prelude.{vec_len};
    ghost use Rattle.slab.specs.Slab.{Slab};
    ghost use Rattle.tc_core.specs.declared.transaction.Tx.{Tx};
    ghost use Rattle.tc_core.specs.Joining.Boxes.{unboxed, ready, AreKeys, AreBoxed};

    ghost Value = { Slab Tx };

    ghost view = { λ o. unboxed (ready (vec_len o.boxes) o.keys.room) o.txns };

    ghost invariant = { λ o. AreKeys o.keys (unboxed (ready (vec_len o.boxes) o.keys.room) o.txns) × AreBoxed o.txns o.boxes };
}

// One of the boxes, of which there are some.
#[inline(always)]
fn take_box(boxes: &mut Vec<Box<Tx>>) -> Box<Tx>
    requires { 0 < vec_len boxes.old }
    ensures len { vec_len boxes.new + 1 ≡ vec_len boxes.old }
    ensures capacity { vec_capacity boxes.new ≡ vec_capacity boxes.old }
{
    match boxes.pop() {
        Some(tx) => tx,
        None => unreachable!(),
    }
}

// A box, where there is none, with room for it among the transactions and, once it has ended, among
// the boxes.
fn add_box(
    alloc: Global,
    txns: &mut Slab<Box<Tx>>,
    boxes: &mut Vec<Box<Tx>>,
) -> Result<(), AllocError>
    requires { AreBoxed txns.old boxes.old }
    ensures slots { txns.new.slots ≡ txns.old.slots }
    ensures boxed { AreBoxed txns.new boxes.new }
    ensures some { OnOk result (0 < vec_len boxes.new) }
{
    if !boxes.is_empty() {
        return Ok(());
    }
    txns.reserve(1)?;
    boxes.reserve(txns.capacity())?;
    boxes.push_reserved(Box::new(alloc, Tx::blank(alloc))?);
    Ok(())
}

// The transaction with this serial number stands at the key.
#[inline(always)]
fn give_hint(hints: &mut [usize], serial: u64, key: usize) {
    if let Some(hint) = hints.get_mut(serial as usize % HINTS) {
        *hint = key;
    }
}

// The key of the transaction with this serial number, where its hint holds.
#[inline(always)]
fn hinted(hints: &[usize], txns: &Slab<Box<Tx>>, serial: u64) -> Option<usize>
    ensures { (n : ℕ) → IfSome result (λ key. StandsAt (unboxed n txns.now) key serial) }
{
    let key = *hints.get(serial as usize % HINTS)?;
    let tx = txns.get(key)?;
    if tx.serial == serial { Some(key) } else { None }
}

impl OpenTxns {
    /// None. It takes no memory.
    pub fn new(alloc: Global) -> OpenTxns
        ensures { result.slots ≡ [] }
    {
        OpenTxns {
            alloc,
            txns: Slab::new(alloc),
            keys: TxnKeys::new(alloc),
            hints: [0; HINTS],
            boxes: Vec::new(alloc),
        }
    }

    /// How many there are.
    pub fn len(&self) -> usize
        ensures { result ≡ slab_len self.now }
    {
        self.txns.len()
    }

    /// At least as many as there is room for.
    pub fn capacity(&self) -> usize
        ensures { self.now.capacity ≤ result }
    {
        self.txns.capacity()
    }

    /// Makes room for one more. The open ones stay as they are.
    #[inline(always)]
    pub fn reserve(&mut self) -> Result<(), AllocError>
        ensures slots { self.new.slots ≡ self.old.slots }
        ensures room { OnOk result (HasRoomFor self.new 1) }
    {
        self.keys.reserve()?;
        add_box(self.alloc, &mut self.txns, &mut self.boxes)
    }

    /// Room for what undoes so many writes: that of the box in which the next transaction begins, and more
    /// where it isn't enough.
    #[inline(always)]
    pub fn undo_room(&mut self, writes: usize) -> Result<Undos, AllocError>
        ensures same { self.new ≡ self.old }
        ensures ops { IfOk result (λ u. u.ops ≡ []) }
        ensures room { IfOk result (λ u. writes ≤ u.room) }
    {
        let none = Undos::new(self.alloc);
        let kept = match self.boxes.last_mut() {
            Some(tx) => mem::replace(&mut tx.undo, none),
            None => none,
        };
        kept.emptied(writes)
    }

    /// A transaction begins, under a serial number that no other has, and has run to its first
    /// question or its end. There has to be room. Its key.
    #[inline(always)]
    pub fn enter(
        &mut self,
        code: &Verified,
        serial: u64,
        proc: usize,
        args: &[u64],
        undo: Undos,
    ) -> usize
        requires count { length args.now ≡ code.now.decl.args }
        requires room { HasRoomFor self.old 1 }
        requires other { (key : ℕ) (tx : TxValue) → get self.old key ≡ Some tx → tx.serial ≢ serial }
        ensures entered { Entered code.now serial proc args.now undo self.old self.new result }
        ensures len { slab_len self.new ≡ slab_len self.old + 1 }
    {
        let mut tx = take_box(&mut self.boxes);
        tx.begin(code, serial, proc, args, undo);
        let key = self.txns.insert_reserved(tx);
        self.keys.put(serial, key);
        give_hint(&mut self.hints, serial, key);
        key
    }

    /// Takes the transaction at a key out, which has ended.
    #[inline(always)]
    pub fn remove(&mut self, key: usize)
        requires { ContainsKey self.old key }
        ensures updates { Updates self.old self.new key None }
        ensures len { slab_len self.new + 1 ≡ slab_len self.old }
    {
        let tx = self.txns.remove(key);
        self.keys.take_out(tx.serial);
        self.boxes.push_reserved(tx);
    }

    // The key of the transaction with this serial number, as it is listed.
    #[inline(always)]
    fn listed(&self, serial: u64) -> Option<usize>
        ensures found { IfSome result (λ key. StandsAt self.now key serial) }
        ensures absent { IfNone result ((key : ℕ) (tx : TxValue) → get self.now key ≡ Some tx → tx.serial ≢ serial) }
    {
        self.keys.get(serial)
    }

    /// The key of the transaction with this serial number: by one look where its hint holds, else by two.
    #[inline(always)]
    pub fn find(&self, serial: u64) -> Option<usize>
        ensures found { IfSome result (λ key. StandsAt self.now key serial) }
        ensures absent { IfNone result ((key : ℕ) (tx : TxValue) → get self.now key ≡ Some tx → tx.serial ≢ serial) }
    {
        match hinted(&self.hints, &self.txns, serial) {
            Some(key) => Some(key),
            None => self.listed(serial),
        }
    }

    /// The transaction at a key.
    #[inline(always)]
    pub fn at(&self, key: usize) -> &Tx
        requires { ContainsKey self.now key }
        ensures { get self.now key ≡ Some result.now }
    {
        self.txns[key].as_ref()
    }

    // Whether the transaction with this serial number is open, and neither in doubt nor stuck.
    fn moves(&self, serial: u64) -> bool
        ensures moves { IsTrue result → Moves self.now serial }
        ensures still { result ≡ false → IsStill self.now serial }
    {
        match self.find(serial) {
            Some(key) => !self.at(key).is_stranded(),
            None => false,
        }
    }

    // Whether a transaction that keeps this lock out is neither in doubt nor stuck.
    fn holds_up(&self, held: &LockTable, lock: &Lock) -> bool
        ensures some { IsTrue result → (t : ℕ) × (keeps_out (held_by held.now) lock.now t ≡ true) × Moves self.now t }
        ensures none { result ≡ false → (t : ℕ) → keeps_out (held_by held.now) lock.now t ≡ true → IsStill self.now t }
    {
        let mut holder = held.least_in_the_way(lock);
        'holders: while let Some(txn) = holder {
            if self.moves(txn) {
                return true;
            }
            holder = held.next_in_the_way(lock, txn);
        }
        false
    }

    /// Whether each transaction that holds locks which exclude these is in doubt or stuck. It looks at
    /// those alone, up to one that is neither.
    pub fn all_stranded(&self, held: &LockTable, wanted: &LockSet) -> bool
        ensures all { IsTrue result → AllStandStill held.now self.now wanted.now }
        ensures some { result ≡ false → HoldsUp held.now self.now wanted.now }
    {
        let locks = wanted.locks();
        for lock in locks {
            if self.holds_up(held, lock) {
                return false;
            }
        }
        true
    }

    /// The transaction at a key waits for the answer to its question.
    #[inline(always)]
    pub fn send(&mut self, key: usize, number: u64, op: &Op)
        requires key { ContainsKey self.old key }
        requires left { (tx : TxValue) → get self.old key ≡ Some tx → 1 ≤ tx.left }
        ensures updates { (tx : TxValue) → get self.old key ≡ Some tx →
            Updates self.old self.new key (Some (asking_under number op.now tx)) }
        ensures len { slab_len self.new ≡ slab_len self.old }
    {
        self.txns[key].send(number, op);
    }

    /// The transaction at a key waits for the answer to an undo.
    pub fn send_undo(&mut self, key: usize, number: u64, op: &Op)
        requires key { ContainsKey self.old key }
        requires left { (tx : TxValue) → get self.old key ≡ Some tx → 1 ≤ tx.left }
        requires tries { (tx : TxValue) → get self.old key ≡ Some tx → tx.tries < 4 }
        ensures updates { (tx : TxValue) → get self.old key ≡ Some tx →
            Updates self.old self.new key (Some (undoing_under number op.now tx)) }
        ensures len { slab_len self.new ≡ slab_len self.old }
    {
        self.txns[key].send_undo(number, op);
    }

    /// The transaction at a key takes in what was said to it.
    #[inline(always)]
    pub fn hear(&mut self, key: usize, code: &Verified, said: &Said)
        requires key { ContainsKey self.old key }
        requires hears { (tx : TxValue) → get self.old key ≡ Some tx → (s : Standing) × MayHear code.now tx s said.now }
        ensures updates { (tx : TxValue) → get self.old key ≡ Some tx → Heard code.now self.old self.new key tx said.now }
        ensures len { slab_len self.new ≡ slab_len self.old }
    {
        self.txns[key].hear(code, said);
    }

    /// The transaction at a key asks this under this number, and takes in at once what was said to it.
    #[inline(always)]
    pub fn hear_at_once(&mut self, key: usize, code: &Verified, number: u64, op: &Op, said: &Said)
        requires key { ContainsKey self.old key }
        requires idle { (tx : TxValue) → get self.old key ≡ Some tx → tx.sent ≡ None }
        requires left { (tx : TxValue) → get self.old key ≡ Some tx → 1 ≤ tx.left }
        requires hears { (tx : TxValue) → get self.old key ≡ Some tx →
            (s : Standing) × MayHear code.now (asking_under number op.now tx) s said.now }
        ensures updates { (tx : TxValue) → get self.old key ≡ Some tx →
            Heard code.now self.old self.new key (asking_under number op.now tx) said.now }
        ensures len { slab_len self.new ≡ slab_len self.old }
    {
        self.txns[key].hear_at_once(code, number, op, said);
    }

    /// The transaction at a key is in doubt.
    pub fn doubt(&mut self, key: usize)
        requires { ContainsKey self.old key }
        ensures updates { (tx : TxValue) → get self.old key ≡ Some tx → Updates self.old self.new key (Some (doubted tx)) }
        ensures len { slab_len self.new ≡ slab_len self.old }
    {
        self.txns[key].in_doubt = true;
    }
}
