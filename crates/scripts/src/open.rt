//! A procedure as far as it was read.

ghost use Rattle.std.specs.Prelude.{◌≡◌, OnOk, IfErr};
ghost use Rattle.scripts.specs.Numbers.{Gives, IsStop};
ghost use Rattle.scripts.specs.Open.{begun, slot_added, insn_added, finished};

use crate::fault::{LineError, ScriptFault};
use crate::name::Name;
use crate::script::Procedure;
use access_slots::decl::Decl;
use access_slots::slot::Slot;
use bpf_encoding::code::{Code, MOST_SLOTS};
use bpf_encoding::insn::Insn;
use std::alloc::Global;
use std::marker::Model;

/// A procedure whose `end` isn't read yet.
#[derive(Drop)]
pub struct Open<'a> {
    alloc: Global,
    name: Name<'a>,
    args: u8,
    slots: Vec<Slot>,
    insns: Vec<Insn>,
    // How many slots of code the instructions take.
    size: usize,
}

impl<'a> Model for Open<'a> {
    ghost use Rattle.std.specs.Prelude.{◌≡◌, ◌≤◌, length};
    ghost use Rattle.bpf_encoding.specs.Spelling.{places_of};
    ghost use Rattle.scripts.specs.Open.{Open};

    ghost Value = { Open };

    ghost view = { λ o. record { name = o.name; args = o.args; slots = o.slots.items; insns = o.insns.items } };

    ghost invariant = { λ o. (o.size ≡ length (places_of o.insns.items)) × (o.size ≤ 4096) };
}

impl<'a> Open<'a> {
    /// Begins a procedure of this name, with so many arguments.
    pub fn new(alloc: Global, name: Name<'a>, args: u8) -> Open<'a>
        ensures { result ≡ begun name.entry args }
    {
        Open {
            alloc,
            name,
            args,
            slots: Vec::new(alloc),
            insns: Vec::new(alloc),
            size: 0,
        }
    }

    /// A slot, which stands before all code.
    pub fn declare(&mut self, slot: Slot) -> Result<(), LineError>
        ensures ok { OnOk result (slot_added self.old slot ≡ Ok self.new) }
        ensures err { IfErr result (IsStop (slot_added self.old slot)) }
    {
        if !self.insns.is_empty() {
            return Err(LineError::Fault(ScriptFault::Order));
        }
        self.slots.push(slot)?;
        Ok(())
    }

    /// The next instruction of its code.
    pub fn add(&mut self, insn: Insn) -> Result<(), LineError>
        ensures ok { OnOk result (insn_added self.old insn ≡ Ok self.new) }
        ensures err { IfErr result (IsStop (insn_added self.old insn)) }
    {
        let size = self.size + insn.slots();
        if size > MOST_SLOTS {
            return Err(LineError::Fault(ScriptFault::TooLong));
        }
        self.insns.push(insn)?;
        self.size = size;
        Ok(())
    }

    /// Its end, at this line: its declaration is looked at first, and then its code.
    pub fn finish(self, line: usize) -> Result<Procedure<'a>, LineError>
        ensures { Gives (finished self.entry line) result }
    {
        let decl = match Decl::new(self.args, self.slots.as_slice()) {
            Ok(decl) => decl,
            Err(fault) => return Err(LineError::Fault(ScriptFault::Decl(fault))),
        };
        if self.insns.is_empty() {
            return Err(LineError::Fault(ScriptFault::NoCode));
        }
        let Ok(code) = Code::from_insns(self.alloc, self.insns.as_slice()) else {
            return Err(LineError::Memory);
        };
        Ok(Procedure {
            name: self.name,
            decl,
            code,
            line: Some(line),
        })
    }
}
