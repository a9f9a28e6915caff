// Which data components are of one partition.

ghost use Rattle.std.specs.Prelude.{◌≡◌, ◌<◌, ◌++◌, [], ◌∷◌, ℕ, List, length, IfOk};
ghost use Rattle.access_slots.specs.Declaration.{Declaration};
ghost use Rattle.partitions.specs.Partitions.{partition_at, partition_of, AllReach, ArePartitions, Reaches};
ghost use Rattle.partitions.specs.Joining.Merging.{renamed};

use access_slots::decl::Decl;
use std::alloc::{AllocError, Global};
use std::marker::Model;

/// Which partition each data component is of: the finest partitions that no procedure joins. A partition has the number
/// of its first component.
#[derive(Drop)]
pub struct Partitions {
    numbers: Vec<usize>,
}

impl Model for Partitions {
    ghost use Rattle.std.specs.Prelude.{ℕ, List};

    ghost Value = { List ℕ };

    ghost view = { λ p. p.numbers.items };
}

// The number of a partition where those of two numbers become one.
fn renamed(one: usize, other: usize, number: usize) -> usize
    ensures { result ≡ renamed one other number }
{
    if number == one.max(other) {
        one.min(other)
    } else {
        number
    }
}

impl Partitions {
    /// Those of so many data components and no procedure: each is alone.
    pub fn new(alloc: Global, dcs: usize) -> Result<Partitions, AllocError>
        ensures { IfOk result (ArePartitions dcs []) }
    {
        let mut numbers = Vec::with_capacity(alloc, dcs)?;
        for dc in 0..dcs {
            numbers.push(dc)?;
        }
        Ok(Partitions { numbers })
    }

    /// The number of a data component's partition.
    pub fn number(&self, dc: usize) -> usize
        ensures { result ≡ partition_at self.now dc }
    {
        self.numbers.get(dc).copied().unwrap_or(0)
    }

    /// The number of the partition of a procedure with this declaration: 0 where it has no slots.
    pub fn of(&self, decl: &Decl) -> usize
        ensures { result ≡ partition_of self.now decl.now.slots }
    {
        match decl.slots().first() {
            Some(slot) => self.number(usize::from(slot.dc)),
            None => 0,
        }
    }

    // The partitions of both numbers become one, under the lesser.
    fn merge(&mut self, one: usize, other: usize)
        ensures each { length self.new ≡ length self.old }
        ensures renamed { (dc : ℕ) → dc < length self.old → partition_at self.new dc ≡ renamed one other (partition_at self.old dc) }
    {
        let numbers = self.numbers.as_mut_slice();
        for dc in 0..numbers.len() {
            numbers[dc] = renamed(one, other, numbers[dc]);
        }
    }

    /// Takes in a procedure with this declaration: what its slots name becomes one partition.
    pub fn add(&mut self, decl: &Decl)
        ensures { (dcs : ℕ) (decls : List Declaration) → AllReach dcs decls → Reaches dcs decl.now.slots
            → ArePartitions dcs decls self.old → ArePartitions dcs (decls ++ decl.now ∷ []) self.new }
    {
        let slots = decl.slots();
        let Some(first) = slots.first() else {
            return;
        };
        let first = usize::from(first.dc);
        for slot in slots {
            let one = self.number(first);
            let other = self.number(usize::from(slot.dc));
            self.merge(one, other);
        }
    }
}
