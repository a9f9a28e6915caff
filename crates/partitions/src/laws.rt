// Calls of two partitions share nothing.

ghost use Rattle.std.specs.Prelude.{◌≡◌, ◌≢◌, ℕ, List, Some, false, slice_get};
ghost use Rattle.access_slots.specs.Access.{record_of};
ghost use Rattle.access_slots.specs.Locks.{conflict, target};
ghost use Rattle.access_slots.specs.declared.op.Op.{Op};
ghost use Rattle.access_slots.specs.declared.slot.Slot.{Slot};
ghost use Rattle.partitions.specs.Partitions.{partition_of, IsWithin};

/// Two operations never conflict whose records procedures of two partitions name, in whatever calls.
pub fn never_conflict()
    ensures { (numbers : List ℕ) (one other : List Slot) → IsWithin numbers one → IsWithin numbers other
        → partition_of numbers one ≢ partition_of numbers other
        → (i j : ℕ) (s t : Slot) → slice_get one i ≡ Some s → slice_get other j ≡ Some t
        → (args others : List ℕ) (a b : Op) → target a ≡ record_of args s → target b ≡ record_of others t → conflict a b ≡ false }
{}
