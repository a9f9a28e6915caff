//! The kinds behind an instruction.

ghost use Rattle.std.specs.Prelude.{◌≡◌, IfOk};
ghost use Rattle.register_kinds.specs.Effects.{ways_by};
ghost use Rattle.register_kinds.specs.Fitting.{KeepsKinds};
ghost use Rattle.register_kinds.specs.Transfer.{transfer_of};

use crate::effect::{Effect, effect_of};
use crate::kind::Violation;
use crate::kinds::{Kinds, Ways};
use access_slots::decl::Decl;
use bpf_encoding::insn::Insn;

// The kinds on either way.
fn ways(kinds: &Kinds, effect: Effect) -> Ways
    ensures { result ≡ ways_by kinds.now effect }
{
    let (next, jump) = match effect {
        Effect::Falls => (Some(*kinds), None),
        Effect::Writes(register, kind) => (Some(kinds.with(register, kind)), None),
        Effect::Returns(kind) => (Some(kinds.after_call(kind)), None),
        Effect::Jumps => (None, Some(*kinds)),
        Effect::Branches => (Some(*kinds), Some(*kinds)),
        Effect::Splits(register, kind, there) => {
            let next = kinds.with(register, kind);
            (Some(next), Some(kinds.with(register, there)))
        }
        Effect::Ends => (None, None),
    };
    Ways { next, jump }
}

/// The kinds at the next slot and at the jump's target, or what the instruction may not do.
#[tactic(auto, using(crate::proofs::Sound::keeps_kinds))]
pub fn transfer(insn: &Insn, kinds: &Kinds, decl: &Decl) -> Result<Ways, Violation>
    ensures value { result ≡ transfer_of decl.now insn.now kinds.now }
    // What fits the kinds doesn't trap, and fits the kinds of the way that it takes.
    ensures sound { IfOk result (KeepsKinds decl.now insn.now kinds.now) }
{
    match effect_of(insn, kinds, decl) {
        Ok(effect) => Ok(ways(kinds, effect)),
        Err(violation) => Err(violation),
    }
}
