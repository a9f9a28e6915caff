//! Code: a row of places that has a spelling.

ghost use Rattle.std.specs.Prelude.{◌≡◌, ◌<◌, ◌≤◌, ◌++◌, [], ◌∷◌, length, slice_get, IfOk, IfErr, OnOk};
ghost use Rattle.bpf_encoding.specs.Spelling.{places_of};
ghost use Rattle.bpf_encoding.specs.Spells.{IsCode, IsLengthFault};

use crate::decode::DecodeFault;
use crate::insn::{Insn, Place};
use std::alloc::{AllocError, Global};
use std::marker::Model;

/// How many slots code has at most.
pub const MOST_SLOTS: usize = 4096;

/// Code of 1 to 4096 slots. Each wide instruction is followed by its second slot, and there is
/// no other second slot. Contracts see the list of its places.
#[derive(Drop)]
pub struct Code {
    pub(crate) places: Vec<Place>,
}

impl Model for Code {
    ghost use Rattle.std.specs.Prelude.{List};
    ghost use Rattle.bpf_encoding.specs.declared.insn.Place.{Place};

    ghost Value = { List Place };

    ghost use Rattle.bpf_encoding.specs.Spells.{IsCode};

    ghost view = { λ c. c.places.items };

    ghost invariant = { λ c. IsCode c.places.items };
}

// The place of an instruction, of a wide one both.
fn put(places: &mut Vec<Place>, insn: Insn) -> Result<(), AllocError>
    ensures { OnOk result (places.new.items ≡ places.old.items ++ places_of (insn ∷ [])) }
{
    places.push(Place::Insn(insn))?;
    if !insn.is_wide() {
        return Ok(());
    }
    places.push(Place::Second)?;
    Ok(())
}

fn places_of(alloc: Global, insns: &[Insn]) -> Result<Vec<Place>, DecodeFault>
    ensures ok { IfOk result (λ places. places.items ≡ places_of insns.now) }
    ensures short { IfOk result (λ places. length places.items ≤ 4096) }
    ensures err { IfErr result (IsLengthFault insns.now) }
{
    let mut places = Vec::new(alloc);
    for insn in insns {
        if places.len() > MOST_SLOTS - insn.slots() {
            return Err(DecodeFault::TooLong);
        }
        put(&mut places, *insn)?;
    }
    Ok(places)
}

impl Code {
    /// The code of these instructions in order: 1 to 4096 slots, of which a wide instruction
    /// takes two. Refused with [`DecodeFault::NoCode`], [`DecodeFault::TooLong`] or
    /// [`DecodeFault::Memory`] alone.
    pub fn from_insns(alloc: Global, insns: &[Insn]) -> Result<Code, DecodeFault>
        ensures ok { IfOk result (λ code. code ≡ places_of insns.now) }
        // What fills 1 to 4096 slots is code, unless memory runs out.
        ensures only { IsCode (places_of insns.now) → IfErr result (λ e. e ≡ DecodeFault.Memory) }
        ensures err { IfErr result (IsLengthFault insns.now) }
    {
        if insns.is_empty() {
            return Err(DecodeFault::NoCode);
        }
        let places = places_of(alloc, insns)?;
        Ok(Code { places })
    }

    /// How many slots it has, 1 to 4096.
    pub fn len(&self) -> usize
        ensures value { result ≡ length self.now }
        ensures code { IsCode self.now }
    {
        self.places.len()
    }

    /// What stands at a slot, counted from 0; `None` past the end.
    pub fn at(&self, slot: usize) -> Option<Place>
        ensures { result ≡ slice_get self.now slot }
    {
        self.places.get(slot).copied()
    }

    /// All places, in order.
    pub fn places(&self) -> &[Place]
        ensures value { result.now ≡ self.now }
        ensures code { IsCode self.now }
    {
        &self.places
    }
}
