//! Which calls of a script are of which partition.

ghost use Rattle.std.specs.Prelude.{◌≡◌, ◌+◌, ◌<◌, length, map, take, slice_get, IfOk, ◌==◌, ◌||◌};
ghost use Rattle.std.specs.List.{list_any};
ghost use Rattle.partitions.specs.Partitions.{ArePartitions};
ghost use Rattle.partitioned_run.specs.Partitioned.{decl_of, partition_of_call, partition_of_code};
ghost use Rattle.partitioned_run.specs.Joining.Dividing.{AreNumbered};

use partitions::{Partitions, workers_of};
use scripts::script::Call;
use std::alloc::{AllocError, Global};
use tc_core::Procs;

/// The partitions of a script's data components, and those of its calls.
#[derive(Drop)]
pub struct Division {
    pub partitions: Partitions,
    /// The numbers of the partitions of the first list's calls.
    pub first: Vec<usize>,
    /// Those of the second's.
    pub calls: Vec<usize>,
}

// Takes in the procedure with this number too.
fn add_procedure(partitions: &mut Partitions, procs: &Procs, number: usize)
    requires { number < length procs.now.codes }
    ensures { ArePartitions procs.now.dcs (map decl_of (take number procs.now.codes)) partitions.old
        → ArePartitions procs.now.dcs (map decl_of (take (number + 1) procs.now.codes)) partitions.new }
{
    procs.known();
    match procs.get(number) {
        Some(code) => partitions.add(code.decl()),
        None => unreachable!(),
    }
}

// The partitions of the data components of these procedures.
fn partitions_of(alloc: Global, procs: &Procs) -> Result<Partitions, AllocError>
    ensures { IfOk result (ArePartitions procs.now.dcs (map decl_of procs.now.codes)) }
{
    let mut partitions = Partitions::new(alloc, usize::from(procs.dcs()))?;
    'procedures: for number in 0..procs.len() {
        add_procedure(&mut partitions, procs, number);
    }
    Ok(partitions)
}

/// The number of the partition of the procedure with this number.
pub fn partition_of_procedure(partitions: &Partitions, procs: &Procs, number: usize) -> usize
    ensures { result ≡ partition_of_code partitions.now (slice_get procs.now.codes number) }
{
    match procs.get(number) {
        Some(code) => partitions.of(code.decl()),
        None => 0,
    }
}

// That of a call's procedure.
fn partition_of_call(partitions: &Partitions, procs: &Procs, call: &Call) -> usize
    ensures { result ≡ partition_of_call partitions.now procs.now.codes call.now }
{
    partition_of_procedure(partitions, procs, call.procedure)
}

// Of each of these calls.
fn partitions_of_calls(
    alloc: Global,
    partitions: &Partitions,
    procs: &Procs,
    calls: &[Call],
) -> Result<Vec<usize>, AllocError>
    ensures { IfOk result (λ numbers. numbers.items ≡ map (partition_of_call partitions.now procs.now.codes) calls.now) }
{
    let mut numbers = Vec::with_capacity(alloc, calls.len())?;
    for call in calls {
        numbers.push(partition_of_call(partitions, procs, call))?;
    }
    Ok(numbers)
}

// Whether the number is among these.
fn holds(numbers: &[usize], number: usize) -> bool
    ensures { result ≡ list_any (λ n. n == number) numbers.now }
{
    numbers.iter().any(|other| *other == number)
}

impl Division {
    /// That of the calls of both lists.
    pub fn new(
        alloc: Global,
        procs: &Procs,
        first: &[Call],
        calls: &[Call],
    ) -> Result<Division, AllocError>
        ensures { IfOk result (AreNumbered procs.now.dcs procs.now.codes first.now calls.now) }
    {
        let partitions = partitions_of(alloc, procs)?;
        let first = partitions_of_calls(alloc, &partitions, procs, first)?;
        let calls = partitions_of_calls(alloc, &partitions, procs, calls)?;
        Ok(Division {
            partitions,
            first,
            calls,
        })
    }

    /// Whether calls are of the partition with this number.
    pub fn is_called(&self, number: usize) -> bool
        ensures { result ≡ (list_any (λ n. n == number) self.now.first.items || list_any (λ n. n == number) self.now.calls.items) }
    {
        holds(self.first.as_slice(), number) || holds(self.calls.as_slice(), number)
    }

    // How many of the partitions with numbers below this have calls.
    fn called_below(&self, most: usize) -> u64 {
        let mut called = 0u64;
        for number in 0..most {
            if self.is_called(number) {
                called = called.saturating_add(1);
            }
        }
        called
    }

    /// How many of so many workers the partition with this number has, which has calls, of so many partitions.
    pub fn workers_of(&self, workers: u64, number: usize, count: usize) -> u64 {
        let called = self.called_below(count).max(1);
        workers_of(workers, called, self.called_below(number))
    }
}
