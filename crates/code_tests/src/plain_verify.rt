//! Both passes as plainly as they can be written: the second has a row of kinds for every slot, made at once.

ghost use Rattle.std.specs.Prelude.{◌≡◌, ◌<◌, ◌≤◌, length};

use access_slots::decl::Decl;
use bpf_encoding::insn::{Insn, Place};
use register_kinds::effect::{Effect, effect_of, is_helper};
use register_kinds::kind::Violation;
use register_kinds::kinds::Kinds;
use std::alloc::{AllocError, Global};

fn jump_offset(insn: &Insn) -> Option<i32> {
    match *insn {
        Insn::Jump(offset) => Some(i32::from(offset)),
        Insn::JumpIf(_, _, _, _, offset) => Some(i32::from(offset)),
        Insn::JumpLong(offset) => Some(offset),
        _ => None,
    }
}

// The slot to which a jump leads, if it leads on.
fn target(at: usize, offset: i32) -> Option<usize> {
    if offset < 0 {
        return None;
    }
    Some(at.saturating_add(1).saturating_add(offset as usize))
}

fn jump_place(insn: &Insn, at: usize) -> Option<usize> {
    target(at, jump_offset(insn)?)
}

// What is wrong with where the instruction jumps.
fn jump_flaw(code: &[Place], at: usize, insn: &Insn) -> Option<Violation> {
    let offset = jump_offset(insn)?;
    let Some(to) = target(at, offset) else {
        return Some(Violation::Backward);
    };
    match code.get(to) {
        None => Some(Violation::OutOfCode),
        Some(Place::Second) => Some(Violation::IntoWide),
        Some(Place::Insn(_)) => None,
    }
}

// What is wrong with where it goes on, or with whom it calls.
fn fall_flaw(code: &[Place], at: usize, insn: &Insn) -> Option<Violation> {
    match *insn {
        Insn::Jump(_) | Insn::JumpLong(_) | Insn::Exit => None,
        _ if at.saturating_add(insn.slots()) >= code.len() => Some(Violation::FallsOff),
        Insn::Call(helper) if !is_helper(helper) => Some(Violation::UnknownHelper),
        _ => None,
    }
}

fn first_flaw(code: &[Place]) -> Option<(usize, Violation)> {
    for (at, place) in code.iter().enumerate() {
        if let Place::Insn(insn) = place {
            let flaw = jump_flaw(code, at, insn).or(fall_flaw(code, at, insn));
            if let Some(violation) = flaw {
                return Some((at, violation));
            }
        }
    }
    None
}

fn flow(table: &mut [Option<Kinds>], to: Option<usize>, after: &Kinds) {
    let Some(to) = to else {
        return;
    };
    if to >= table.len() {
        return;
    }
    match &mut table[to] {
        Some(before) => before.join(after),
        place => *place = Some(*after),
    }
}

fn go_on(
    table: &mut [Option<Kinds>],
    next: usize,
    target: Option<usize>,
    kinds: &Kinds,
    effect: Effect,
) {
    match effect {
        Effect::Falls => flow(table, Some(next), kinds),
        Effect::Writes(register, kind) => flow(table, Some(next), &kinds.with(register, kind)),
        Effect::Returns(kind) => flow(table, Some(next), &kinds.after_call(kind)),
        Effect::Jumps => flow(table, target, kinds),
        Effect::Branches => {
            flow(table, Some(next), kinds);
            flow(table, target, kinds);
        }
        Effect::Splits(register, kind, there) => {
            flow(table, Some(next), &kinds.with(register, kind));
            flow(table, target, &kinds.with(register, there));
        }
        Effect::Ends => {}
    }
}

fn visit(table: &mut [Option<Kinds>], code: &[Place], decl: &Decl, at: usize) -> Option<Violation>
    requires within { at < length code.now }
    requires short { length code.now ≤ 4096 }
    requires long { length table.old ≡ length code.now }
{
    let Place::Insn(insn) = &code[at] else {
        return None;
    };
    let kinds = table[at]?;
    match effect_of(insn, &kinds, decl) {
        Ok(effect) => {
            let target = jump_place(insn, at);
            go_on(table, at + insn.slots(), target, &kinds, effect);
            None
        }
        Err(violation) => Some(violation),
    }
}

/// What is wrong with the code, the first pass before the second.
pub(crate) fn plain_verify(
    alloc: Global,
    code: &[Place],
    decl: &Decl,
) -> Result<Option<(usize, Violation)>, AllocError>
    requires some { 0 < length code.now }
    requires short { length code.now ≤ 4096 }
{
    if let Some(found) = first_flaw(code) {
        return Ok(Some(found));
    }
    let mut table = vec![in alloc; None; code.len()]?;
    table[0] = Some(Kinds::entry(decl));
    for at in 0..code.len() {
        if let Some(violation) = visit(&mut table, code, decl, at) {
            return Ok(Some((at, violation)));
        }
    }
    Ok(None)
}
