//! Code run from its bytes: decoded, verified, and run to its end.

ghost use Rattle.std.specs.Prelude.{◌≡◌, ◌≤◌, ◌↔◌, ℕ, List, [], length, Some, None, IfOk, IfSome, IsSome};
ghost use Rattle.bpf_encoding.specs.Named.{code_named};
ghost use Rattle.bpf_encoding.specs.Spells.{Spells, fault_in};
ghost use Rattle.semantics.specs.Row.{outcome, plain_bases};
ghost use Rattle.semantics.specs.Reach.{reach, IsSafe};
ghost use Rattle.semantics.specs.Instruction.{program_of};
ghost use Rattle.interpreter.specs.Runs.{setting_of};
ghost use Rattle.text_commands.specs.Execution.{answered, without_slots, execution_of, text_execution};

use access_slots::decl::Decl;
use bpf_encoding::code::Code;
use bpf_encoding::decode::{DecodeFault, decode};
use interpreter::layout::Layout;
use interpreter::machine::Machine;
use interpreter::pause::Pause;
use register_kinds::kind::Violation;
use report_texts::hex::{HexFault, bytes_of};
use std::alloc::{AllocError, Global};
use verifier::verify::{Verified, VerifyFault, verify};

/// What a run of code came to.
#[derive(Debug, Drop)]
pub enum Execution {
    /// Its value, and how many instructions it executed.
    Answer(u64, u32),
    /// The text isn't hex text: the byte at this place begins no pair.
    NotHex(usize),
    /// The bytes are no code.
    Code(DecodeFault),
    /// More than 8 arguments.
    TooManyArgs,
    /// The verifier refused the instruction at this slot.
    Refused(usize, Violation),
}

// Runs verified code without slots to its end.
fn answer(verified: &Verified, args: &[u64]) -> Execution
    requires count { length args.now ≡ verified.now.decl.args }
    requires slots { verified.now.decl.slots ≡ [] }
    requires safe { IsSafe (program_of verified.now.code verified.now.decl) }
    ensures { answered (outcome (reach (setting_of verified.now args.now plain_bases) [])) ≡ Some result }
{
    let mut machine = Machine::start(verified, args, Layout::plain());
    match machine.resume(verified, None) {
        Pause::Exit(value) => Execution::Answer(value, machine.executed()),
        Pause::Ask(_) => unreachable!(),
    }
}

// The declaration of as many arguments as are given, and no slots.
fn declared(args: &[u64]) -> Option<Decl>
    ensures some { IfSome result (λ d. d ≡ without_slots (length args.now)) }
    ensures few { IsSome result ↔ (length args.now ≤ 8) }
{
    if args.len() > 8 {
        return None;
    }
    Decl::new(args.len() as u8, &[]).ok()
}

// Verifies the code, and runs it.
fn run_code(alloc: Global, code: Code, args: &[u64]) -> Result<Execution, AllocError>
    ensures { (bytes : List ℕ) → fault_in bytes ≡ None → code ≡ code_named bytes → Spells bytes code
        → IfOk result (λ e. execution_of bytes args.now ≡ Some e) }
{
    let Some(decl) = declared(args) else {
        return Ok(Execution::TooManyArgs);
    };
    match verify(alloc, code, decl) {
        Ok(verified) => Ok(answer(&verified, args)),
        Err(VerifyFault::At(slot, violation)) => Ok(Execution::Refused(slot, violation)),
        Err(VerifyFault::Memory) => Err(AllocError),
    }
}

/// Decodes, verifies and runs the code that these bytes spell, with these arguments.
pub fn execute(alloc: Global, bytes: &[u8], args: &[u64]) -> Result<Execution, AllocError>
    ensures { IfOk result (λ e. execution_of bytes.now args.now ≡ Some e) }
{
    match decode(alloc, bytes) {
        Ok(code) => run_code(alloc, code, args),
        Err(DecodeFault::Memory) => Err(AllocError),
        Err(fault) => Ok(Execution::Code(fault)),
    }
}

/// The same of what was read: the bytes themselves, or hex text that says them.
pub fn execute_text(
    alloc: Global,
    raw: bool,
    text: &[u8],
    args: &[u64],
) -> Result<Execution, AllocError>
    ensures { IfOk result (λ e. text_execution raw text.now args.now ≡ Some e) }
{
    if raw {
        return execute(alloc, text, args);
    }
    match bytes_of(alloc, text) {
        Ok(bytes) => execute(alloc, bytes.as_slice(), args),
        Err(HexFault::NotHex(at)) => Ok(Execution::NotHex(at)),
        Err(HexFault::Memory) => Err(AllocError),
    }
}
