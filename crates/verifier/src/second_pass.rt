//! The second pass: the kinds at each reached slot, from the first to the last.

ghost use Rattle.std.specs.Prelude.{◌≡◌, ◌≢◌, ◌<◌, ◌≤◌, ◌+◌, ℕ, Some, None, if◌then◌else◌, length, IfOk, OnOk};
ghost use Rattle.register_kinds.specs.Arriving.{along, along_from, violation_by, violation_at};
ghost use Rattle.register_kinds.specs.Effects.{next_by, jump_by};
ghost use Rattle.verifier.specs.Joining.Table.{kept, known, HasArrived};
ghost use Rattle.verifier.specs.Verdict.{first_violation};

use crate::first_pass::jump_place;
use crate::pending::Pending;
use access_slots::decl::Decl;
use bpf_encoding::insn::{Insn, Place};
use register_kinds::effect::{Effect, effect_of};
use register_kinds::kind::Violation;
use register_kinds::kinds::Kinds;
use std::alloc::{AllocError, Global};

// The slot is reached: what waits there is joined to the kinds that fall to it.
fn reach(falling: &mut Option<Kinds>, pending: &mut Pending, at: usize)
    requires { at < length pending.old }
    ensures long { length pending.new ≡ length pending.old }
    ensures here { falling.new ≡ along (Some at) falling.old at (kept pending.old at) }
    ensures others { (k : ℕ) → k ≢ at → kept pending.new k ≡ kept pending.old k }
{
    let Some(waiting) = pending.take(at) else {
        return;
    };
    match falling {
        Some(kinds) => kinds.join(&waiting),
        None => *falling = Some(waiting),
    }
}

// The kinds go on to the jump's target, and become those at the next slot; whether the code goes
// on there.
fn go_on(
    kinds: &mut Kinds,
    pending: &mut Pending,
    target: Option<usize>,
    effect: Effect,
) -> Result<bool, AllocError>
    ensures long { length pending.new ≡ length pending.old }
    ensures next { IfOk result (λ falls. next_by kinds.old effect ≡ (if falls then Some kinds.new else None)) }
    ensures jump { OnOk result ((at : ℕ) → at < length pending.old
        → kept pending.new at ≡ along target (jump_by kinds.old effect) at (kept pending.old at)) }
{
    match effect {
        Effect::Falls => Ok(true),
        Effect::Writes(register, kind) => {
            kinds.set(register, kind);
            Ok(true)
        }
        Effect::Returns(kind) => {
            kinds.call(kind);
            Ok(true)
        }
        Effect::Jumps => {
            pending.arrive(target, kinds)?;
            Ok(false)
        }
        Effect::Branches => {
            pending.arrive(target, kinds)?;
            Ok(true)
        }
        Effect::Splits(register, kind, there) => {
            pending.arrive(target, &kinds.with(register, there))?;
            kinds.set(register, kind);
            Ok(true)
        }
        Effect::Ends => Ok(false),
    }
}

// The next instruction stands behind this slot: else, behind a wide one, what falls through waits
// for it. Whether the kinds fall to the next slot.
fn fall(
    kinds: &Kinds,
    pending: &mut Pending,
    falls: bool,
    next: usize,
    at: usize,
) -> Result<bool, AllocError>
    requires { at < 4096 }
    ensures long { length pending.new ≡ length pending.old }
    ensures ok { IfOk result (λ stays. (k : ℕ) → at < k → k < length pending.old
        → known (at + 1) (if stays then Some kinds.now else None) pending.new k
        ≡ known next (if falls then Some kinds.now else None) pending.old k) }
{
    if !falls || next == at + 1 {
        return Ok(falls);
    }
    pending.arrive(Some(next), kinds)?;
    Ok(false)
}

// An instruction with the kinds of its slot, if that is reached: what it may not do, or the ways
// on from it.
fn step(
    falling: &mut Option<Kinds>,
    pending: &mut Pending,
    insn: &Insn,
    decl: &Decl,
    at: usize,
) -> Result<Option<Violation>, AllocError>
    requires { at < 4096 }
    ensures long { length pending.new ≡ length pending.old }
    ensures violation { IfOk result (λ v. v ≡ violation_by decl.now (Some (Place.Insn insn.now)) falling.old) }
    ensures ways { IfOk result (λ v. v ≡ None → (k : ℕ) → at < k → k < length pending.old
        → known (at + 1) falling.new pending.new k
        ≡ along_from decl.now at (Some (Place.Insn insn.now)) falling.old k (kept pending.old k)) }
{
    let Some(kinds) = falling else {
        return Ok(None);
    };
    let effect = match effect_of(insn, kinds, decl) {
        Ok(effect) => effect,
        Err(violation) => return Ok(Some(violation)),
    };
    let falls = go_on(kinds, pending, jump_place(insn, at), effect)?;
    let stays = fall(kinds, pending, falls, at + insn.slots(), at)?;
    if stays {
        return Ok(None);
    }
    *falling = None;
    Ok(None)
}

// One slot: what its instruction may not do, or the ways on from it.
fn visit(
    falling: &mut Option<Kinds>,
    pending: &mut Pending,
    code: &[Place],
    decl: &Decl,
    at: usize,
) -> Result<Option<Violation>, AllocError>
    requires within { at < length code.now }
    requires short { length code.now ≤ 4096 }
    requires arrived { HasArrived decl.now code.now at falling.old pending.old }
    ensures violation { IfOk result (λ v. v ≡ violation_at decl.now code.now at) }
    ensures arrived { IfOk result (λ v. v ≡ None → HasArrived decl.now code.now (at + 1) falling.new pending.new) }
{
    reach(falling, pending, at);
    match &code[at] {
        Place::Insn(insn) => step(falling, pending, insn, decl, at),
        Place::Second => {
            *falling = None;
            Ok(None)
        }
    }
}

/// The first reached slot whose instruction does what its kinds forbid.
pub(crate) fn first_violation(
    alloc: Global,
    code: &[Place],
    decl: &Decl,
) -> Result<Option<(usize, Violation)>, AllocError>
    requires { length code.now ≤ 4096 }
    ensures { IfOk result (λ found. found ≡ first_violation decl.now code.now) }
{
    let mut falling = Some(Kinds::entry(decl));
    let mut pending = Pending::new(alloc, code.len())?;
    for at in 0..code.len() {
        if let Some(violation) = visit(&mut falling, &mut pending, code, decl, at)? {
            return Ok(Some((at, violation)));
        }
    }
    Ok(None)
}
