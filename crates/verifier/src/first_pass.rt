//! The first pass: where jumps lead, and whether the code can be left.

ghost use Rattle.std.specs.Prelude.{◌≡◌, ◌<◌, ◌≤◌, ℕ, Some, length, slice_get};
ghost use Rattle.register_kinds.specs.Arriving.{next_place, jump_offset, jump_place};
ghost use Rattle.verifier.specs.Flow.{target_flaw, jump_flaw, goes_on, fall_flaw, call_flaw, flow_violation, flow_at};
ghost use Rattle.verifier.specs.Verdict.{first_flaw};

use bpf_encoding::insn::{Insn, Place};
use register_kinds::effect::is_helper;
use register_kinds::kind::Violation;

// The offset of a jump.
fn jump_offset(insn: &Insn) -> Option<i32>
    ensures { result ≡ jump_offset insn.now }
{
    match *insn {
        Insn::Jump(offset) => Some(i32::from(offset)),
        Insn::JumpIf(_, _, _, _, offset) => Some(i32::from(offset)),
        Insn::JumpLong(offset) => Some(offset),
        _ => None,
    }
}

/// Where a jump at a slot leads; `None` before the code's first slot, and where there is none.
pub(crate) fn jump_place(insn: &Insn, at: usize) -> Option<usize>
    requires { at < 4096 }
    ensures { result ≡ jump_place at insn.now }
{
    let target = (at + 1) as i64 + i64::from(jump_offset(insn)?);
    if target < 0 {
        None
    } else {
        Some(target as usize)
    }
}

// What is wrong with a jump to there.
fn target_flaw(code: &[Place], at: usize, target: Option<usize>) -> Option<Violation>
    ensures { result ≡ target_flaw code.now at target }
{
    let Some(to) = target else {
        return Some(Violation::Backward);
    };
    if to <= at {
        return Some(Violation::Backward);
    }
    match code.get(to) {
        None => Some(Violation::OutOfCode),
        Some(Place::Second) => Some(Violation::IntoWide),
        Some(Place::Insn(_)) => None,
    }
}

fn jump_flaw(code: &[Place], at: usize, insn: &Insn) -> Option<Violation>
    requires { at < 4096 }
    ensures { result ≡ jump_flaw code.now at (jump_offset insn.now) }
{
    jump_offset(insn)?;
    target_flaw(code, at, jump_place(insn, at))
}

fn fall_flaw(code: &[Place], at: usize, insn: &Insn) -> Option<Violation>
    requires { at < 4096 }
    ensures { result ≡ fall_flaw code.now at insn.now }
{
    match insn {
        Insn::Jump(..) | Insn::JumpLong(..) | Insn::Exit => None,
        _ if at + insn.slots() >= code.len() => Some(Violation::FallsOff),
        _ => None,
    }
}

// What is wrong with a call of a helper that there isn't.
fn call_flaw(insn: &Insn) -> Option<Violation>
    ensures { result ≡ call_flaw insn.now }
{
    match *insn {
        Insn::Call(helper) if !is_helper(helper) => Some(Violation::UnknownHelper),
        _ => None,
    }
}

fn flow_violation(code: &[Place], at: usize, insn: &Insn) -> Option<Violation>
    requires { at < 4096 }
    ensures { result ≡ flow_violation code.now at insn.now }
{
    if let Some(violation) = jump_flaw(code, at, insn) {
        return Some(violation);
    }
    if let Some(violation) = fall_flaw(code, at, insn) {
        return Some(violation);
    }
    call_flaw(insn)
}

fn flow_at(code: &[Place], at: usize) -> Option<Violation>
    requires within { at < length code.now }
    requires short { length code.now ≤ 4096 }
    ensures { result ≡ flow_at code.now at }
{
    match &code[at] {
        Place::Insn(insn) => flow_violation(code, at, insn),
        Place::Second => None,
    }
}

/// The first slot from which code goes on wrongly, and how.
pub(crate) fn first_flaw(code: &[Place]) -> Option<(usize, Violation)>
    requires { length code.now ≤ 4096 }
    ensures { result ≡ first_flaw code.now }
{
    for at in 0..code.len() {
        if let Some(violation) = flow_at(code, at) {
            return Some((at, violation));
        }
    }
    None
}
