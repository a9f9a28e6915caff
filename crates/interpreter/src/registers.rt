//! The eleven registers.

ghost use Rattle.std.specs.Prelude.{ℕ, ◌≡◌, Some, None, IsSome, slice_set, replicate};
ghost use Rattle.std.specs.List.{slice_index_or};
ghost use Rattle.bpf_encoding.specs.Spelling.{number_of};
ghost use Rattle.semantics.specs.Step.{after_call};

use crate::filled::Filled;
use bpf_encoding::insn::Register;
use std::marker::Model;

/// The registers' numbers. Contracts see which of them are empty; it takes no test to read one,
/// since only filled ones are read.
#[derive(Drop)]
pub(crate) struct Registers {
    values: [u64; 11],
    filled: Filled,
}

impl Model for Registers {
    ghost use Rattle.std.specs.Prelude.{ℕ, List, Option};
    ghost use Rattle.interpreter.specs.Joining.Filled.{filled_ones, AreEleven};

    ghost Value = { List (Option ℕ) };

    ghost view = { λ r. filled_ones r.values r.filled.marks };

    ghost invariant = { λ r. AreEleven r.values r.filled.marks };
}

impl Registers {
    /// All are empty.
    pub(crate) fn new() -> Registers
        ensures { result ≡ replicate 11 None }
    {
        Registers {
            values: [0; 11],
            filled: Filled::none(),
        }
    }

    /// The number in a filled register.
    #[inline(always)]
    pub(crate) fn get(&self, register: Register) -> u64
        requires { IsSome (slice_index_or self.now (number_of register) None) }
        ensures { slice_index_or self.now (number_of register) None ≡ Some result }
    {
        self.values[register.index()]
    }

    /// The number in a filled register, and any number where it is empty.
    #[inline(always)]
    pub(crate) fn peek(&self, register: Register) -> u64
        ensures { (v : ℕ) → slice_index_or self.now (number_of register) None ≡ Some v → result ≡ v }
    {
        self.values[register.index()]
    }

    /// The register has this number from now on.
    #[inline(always)]
    pub(crate) fn set(&mut self, register: Register, value: u64)
        ensures { self.new ≡ slice_set self.old (number_of register) (Some value) }
    {
        self.values[register.index()] = value;
        self.filled.fill(register.index());
    }

    /// The registers behind a call with its answer: registers 1 to 5 are empty.
    pub(crate) fn returned(&mut self, value: u64)
        ensures { self.new ≡ after_call self.old value }
    {
        self.values[0] = value;
        self.filled.call();
    }
}
