// What undoes writes.

ghost use Rattle.std.specs.Prelude.{◌≡◌, ◌+◌, ◌<◌, ◌≤◌, [], ◌∷◌, length, Some, None, IfOk, IfSome, IfNone};
ghost use Rattle.transactions.specs.Standing.{rest_of};
ghost use Rattle.transactions.specs.Legal.{first_undo};

use access_slots::op::Op;
use std::alloc::{AllocError, Global};
use std::marker::Model;

/// What undoes the writes that stand. Contracts see the newest first, and how many more fit with
/// no allocation.
#[derive(Drop)]
pub struct Undos {
    ops: Vec<Op>,
}

impl Model for Undos {
    ghost use Rattle.std.specs.Prelude.{◌-◌, reverse, vec_len, vec_capacity};
    ghost use Rattle.tc_core.specs.Joining.Writes.{Writes};

    ghost Value = { Writes };

    ghost view = { λ u. record { ops = reverse u.ops.items; room = vec_capacity u.ops - vec_len u.ops } };
}

impl Undos {
    /// None, and no room. It takes no memory.
    pub fn new(alloc: Global) -> Undos
        ensures { result.ops ≡ [] }
    {
        Undos {
            ops: Vec::new(alloc),
        }
    }

    /// None any more, with room for so many in the memory that it has, or in more.
    #[inline(always)]
    pub fn emptied(self, most: usize) -> Result<Undos, AllocError>
        ensures ops { IfOk result (λ u. u.ops ≡ []) }
        ensures room { IfOk result (λ u. most ≤ u.room) }
    {
        let Undos { mut ops } = self;
        ops.clear();
        ops.reserve(most)?;
        Ok(Undos { ops })
    }

    /// One more, which is undone first. There has to be room.
    #[inline(always)]
    pub fn push(&mut self, op: Op)
        requires { 0 < self.old.room }
        ensures ops { self.new.ops ≡ op ∷ self.old.ops }
        ensures room { self.new.room + 1 ≡ self.old.room }
    {
        self.ops.push_reserved(op)
    }

    /// The first one was undone.
    #[inline(always)]
    pub fn pop(&mut self)
        ensures ops { self.new.ops ≡ rest_of self.old.ops }
        ensures room { length self.new.ops + self.new.room ≡ length self.old.ops + self.old.room }
    {
        let _op = self.ops.pop();
    }

    /// The first one to be undone.
    #[inline(always)]
    pub fn first(&self) -> Option<&Op>
        ensures some { IfSome result (λ op. first_undo self.now.ops ≡ Some op.now) }
        ensures none { IfNone result (first_undo self.now.ops ≡ None) }
    {
        self.ops.last()
    }
}
