//! Copies of what procedures have, of which more than one state is made.

ghost use Rattle.std.specs.Prelude.{◌≡◌, [], ◌∷◌, ◌++◌, IfOk, OnOk};
ghost use Rattle.script_loading.specs.Joining.Copies.{insns_in};

use access_slots::decl::Decl;
use bpf_encoding::code::Code;
use bpf_encoding::insn::{Insn, Place};
use std::alloc::{AllocError, Global};

/// A copy of a declaration.
pub fn decl_again(decl: &Decl) -> Decl
    ensures { result ≡ decl.now }
{
    match Decl::new(decl.args() as u8, decl.slots()) {
        Ok(again) => again,
        Err(_) => unreachable!(),
    }
}

// Adds the instruction that stands at this place, if one does.
fn put(insns: &mut Vec<Insn>, place: &Place) -> Result<(), AllocError>
    ensures { OnOk result (insns.new.items ≡ insns.old.items ++ insns_in (place.now ∷ [])) }
{
    if let Place::Insn(insn) = place {
        insns.push(*insn)?;
    }
    Ok(())
}

// The instructions that stand at these places.
fn insns_at(alloc: Global, places: &[Place]) -> Result<Vec<Insn>, AllocError>
    ensures { IfOk result (λ insns. insns.items ≡ insns_in places.now) }
{
    let mut insns = Vec::with_capacity(alloc, places.len())?;
    for place in places {
        put(&mut insns, place)?;
    }
    Ok(insns)
}

/// A copy of code.
pub fn code_again(alloc: Global, code: &Code) -> Result<Code, AllocError>
    ensures { IfOk result (λ again. again ≡ code.now) }
{
    let insns = insns_at(alloc, code.places())?;
    match Code::from_insns(alloc, insns.as_slice()) {
        Ok(again) => Ok(again),
        Err(_) => Err(AllocError),
    }
}
