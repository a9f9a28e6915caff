//! The verifier.

ghost use Rattle.std.specs.Prelude.{◌≡◌, ◌≤◌, ◌<◌, length, IfOk, IfErr, None, count_by};
ghost use Rattle.semantics.specs.Reach.{IsSafe, AsksAtMost, AsksOnceByEach};
ghost use Rattle.semantics.specs.Instruction.{program_of};
ghost use Rattle.bpf_encoding.specs.Spells.{IsCode};
ghost use Rattle.verifier.specs.Calls.{is_call_place};
ghost use Rattle.verifier.specs.Verdict.{verdict, first_flaw, first_violation, IsVerdict};

use crate::first_pass::first_flaw;
use crate::flat::FlatCode;
use crate::second_pass::first_violation;
use access_slots::decl::Decl;
use bpf_encoding::code::Code;
use bpf_encoding::insn::{Insn, Place};
use register_kinds::kind::Violation;
use std::alloc::Global;
use std::marker::Model;

/// Why code was refused.
#[derive(Debug, Drop)]
pub enum VerifyFault {
    /// What the instruction at this slot, counted from 0, may not do.
    At(usize, Violation),
    /// Memory ran out.
    Memory,
}

/// Code that never goes wrong, with its declaration. Only [`verify`] makes one: a value of this
/// type is the evidence. It keeps the code that was handed in, 24 bytes a slot, and beside it the
/// form in which it is run, 12 bytes a slot.
#[derive(Drop)]
pub struct Verified {
    code: Code,
    flat: FlatCode,
    calls: usize,
    decl: Decl,
}

const _: () = prove!(size_of::<Place>() == 24);

impl Model for Verified {
    ghost use Rattle.std.specs.Prelude.{◌≡◌, count_by};
    ghost use Rattle.verifier.specs.Calls.{is_call_place};
    ghost use Rattle.verifier.specs.Accepted.{IsAccepted};
    ghost use Rattle.verifier.specs.Checked.{Checked};

    ghost Value = { Checked };

    ghost view = { λ v. record { code = v.code; decl = v.decl } };

    ghost invariant = { λ v. IsAccepted v.decl v.code × (v.flat ≡ v.code) × (v.calls ≡ count_by is_call_place v.code) };
}

// What is wrong with the code, the first pass before the second.
fn check(alloc: Global, code: &[Place], decl: &Decl) -> Result<(), VerifyFault>
    requires { length code.now ≤ 4096 }
    ensures ok { IfOk result (λ _. verdict decl.now code.now ≡ None) }
    ensures err { IfErr result (IsVerdict decl.now code.now) }
{
    if let Some((slot, violation)) = first_flaw(code) {
        return Err(VerifyFault::At(slot, violation));
    }
    match first_violation(alloc, code, decl) {
        Err(_) => Err(VerifyFault::Memory),
        Ok(Some((slot, violation))) => Err(VerifyFault::At(slot, violation)),
        Ok(None) => Ok(()),
    }
}

/// Accepts code that never goes wrong, and else says the first thing that is wrong: first where
/// jumps lead and whether the code is left, slot by slot; then what the kinds at each reached
/// slot forbid. On a refusal code and declaration are dropped.
pub fn verify(alloc: Global, code: Code, decl: Decl) -> Result<Verified, VerifyFault>
    // What is accepted is what was handed in, and nothing is wrong with it.
    ensures value { IfOk result (λ v. (v.code ≡ code) × (v.decl ≡ decl)) }
    ensures accepted { IfOk result (λ v. verdict decl code ≡ None) }
    // Which fault it is; want of memory comes after the first pass alone.
    ensures err { IfErr result (IsVerdict decl code) }
    // No layout, arguments or answers make it trap.
    ensures safe { IfOk result (λ v. IsSafe (program_of v.code v.decl)) }
{
    // Memory has room for the arguments and the slots' buffers.
    prove!(decl.args() <= 8);
    prove!(decl.slots().len() <= 16);
    check(alloc, code.places(), &decl)?;
    match FlatCode::new(alloc, &code) {
        Ok(flat) => Ok(Verified {
            calls: calls_in(code.places()),
            code,
            flat,
            decl,
        }),
        Err(_) => Err(VerifyFault::Memory),
    }
}

fn is_call(place: &Place) -> bool
    ensures { result ≡ is_call_place place.now }
{
    matches!(place, Place::Insn(Insn::Call(_)))
}

fn calls_in(places: &[Place]) -> usize
    ensures { result ≡ count_by is_call_place places.now }
{
    let mut calls = 0;
    for place in places {
        if is_call(place) {
            calls += 1;
        }
    }
    calls
}

impl Verified {
    /// The code that was verified.
    pub fn code(&self) -> &Code
        ensures value { result.now ≡ self.now.code }
        ensures code { IsCode self.now.code }
        ensures safe { IsSafe (program_of self.now.code self.now.decl) }
    {
        &self.code
    }

    /// The same code in the form in which it is run.
    #[inline]
    pub fn flat(&self) -> &FlatCode
        ensures value { result.now ≡ self.now.code }
        ensures code { IsCode self.now.code }
        ensures safe { IsSafe (program_of self.now.code self.now.decl) }
    {
        &self.flat
    }

    /// Its declaration.
    #[inline]
    pub fn decl(&self) -> &Decl
        ensures { result.now ≡ self.now.decl }
    {
        &self.decl
    }

    /// How many of its instructions call a helper. A run meets at most so many questions, each
    /// of another call.
    pub fn calls(&self) -> usize
        ensures value { result ≡ count_by is_call_place self.now.code }
        ensures few { AsksAtMost (program_of self.now.code self.now.decl) (count_by is_call_place self.now.code) }
        ensures once { AsksOnceByEach (program_of self.now.code self.now.decl) }
    {
        self.calls
    }
}
