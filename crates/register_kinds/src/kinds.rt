//! The kinds of the eleven registers.

ghost use Rattle.std.specs.Prelude.{◌≡◌};
ghost use Rattle.bpf_encoding.specs.Spelling.{number_of};
ghost use Rattle.register_kinds.specs.Fitting.{IsWeaker};
ghost use Rattle.register_kinds.specs.Kinds.{entry_kinds, kind_at, with_kind, join_kinds, after_call};

use crate::kind::Kind;
use access_slots::decl::Decl;
use bpf_encoding::insn::Register;

/// What is known of each register.
#[derive(Clone, Copy, Debug, PartialEq, Eq)]
pub struct Kinds {
    registers: [Kind; 11],
}

/// The kinds at the next slot and at the jump's target, where the run may go there.
#[derive(Clone, Copy, Debug, PartialEq, Eq)]
pub struct Ways {
    pub next: Option<Kinds>,
    pub jump: Option<Kinds>,
}

impl Kinds {
    /// The kinds at the first slot: register 1 has the arguments' address and register 10 that
    /// of the stack's end, whatever is declared.
    pub fn entry(_decl: &Decl) -> Kinds
        ensures { result ≡ entry_kinds }
    {
        let mut registers = [Kind::Empty; 11];
        registers[1] = Kind::Args(0);
        registers[10] = Kind::Stack(512);
        Kinds { registers }
    }

    /// The register's kind.
    pub fn at(&self, register: Register) -> Kind
        ensures { result ≡ kind_at self.now (number_of register) }
    {
        self.registers[register.index()]
    }

    /// These kinds but for one register.
    pub fn with(&self, register: Register, kind: Kind) -> Kinds
        ensures { result ≡ with_kind self.now (number_of register) kind }
    {
        let mut kinds = *self;
        kinds.set(register, kind);
        kinds
    }

    /// The register has this kind from now on.
    pub fn set(&mut self, register: Register, kind: Kind)
        ensures { self.new ≡ with_kind self.old (number_of register) kind }
    {
        self.registers[register.index()] = kind;
    }

    /// The kinds after a call with this kind of answer: registers 1 to 5 are empty.
    pub fn after_call(&self, answer: Kind) -> Kinds
        ensures { result ≡ after_call self.now answer }
    {
        let mut kinds = *self;
        kinds.call(answer);
        kinds
    }

    /// A call with this kind of answer: registers 1 to 5 are empty from now on.
    pub fn call(&mut self, answer: Kind)
        ensures { self.new ≡ after_call self.old answer }
    {
        self.registers[0] = answer;
        self.registers[1] = Kind::Empty;
        self.registers[2] = Kind::Empty;
        self.registers[3] = Kind::Empty;
        self.registers[4] = Kind::Empty;
        self.registers[5] = Kind::Empty;
    }

    /// Only what is known on either way stays, register by register: here two ways meet.
    pub fn join(&mut self, other: &Kinds)
        ensures value { self.new ≡ join_kinds self.old other.now }
        // What fits either fits the join.
        ensures weaker { IsWeaker self.old self.new × IsWeaker other.now self.new }
        // Joins may be taken in any order.
        ensures either_first { self.new ≡ join_kinds other.now self.old }
        ensures any_order { (ks : Kinds) → join_kinds self.new ks ≡ join_kinds self.old (join_kinds other.now ks) }
    {
        for r in 0..11 {
            self.registers[r] = self.registers[r].join(other.registers[r]);
        }
    }
}
