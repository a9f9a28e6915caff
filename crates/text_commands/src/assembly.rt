//! `asm` and `dis`: from text to hex, and from code to text.

ghost use Rattle.std.specs.Prelude.{◌≡◌, IfOk, string_bytes};
ghost use Rattle.bpf_encoding.specs.Spells.{fault_in};
ghost use Rattle.bpf_asm.specs.Lines.{assembled};
ghost use Rattle.text_commands.specs.Execution.{lines_of};
ghost use Rattle.text_commands.specs.CodeReport.{IsAssembly, IsDisassembly, IsDisassemblyOf, asm_refusal};

use crate::execute::Execution;
use crate::lines::lines;
use bpf_asm::assemble::{AsmFault, assemble};
use bpf_asm::disassemble::disassemble;
use bpf_encoding::decode::{DecodeFault, decode};
use bpf_encoding::encode::encode;
use report_texts::fault_names::asm_fault_name;
use report_texts::hex::{HexFault, bytes_of, hex_lines};
use report_texts::output::Output;
use std::alloc::{AllocError, Global};

fn asm_refusal(alloc: Global, fault: AsmFault) -> Result<String, AllocError>
    ensures { IfOk result (λ s. string_bytes s ≡ asm_refusal fault) }
{
    let fault = asm_fault_name(alloc, fault)?;
    format!(in alloc; "refused {fault}\n")
}

/// Assembles the text, and says its slots in hex or why it is refused.
pub fn assembly(alloc: Global, text: &str) -> Result<Output, AllocError>
    ensures { IfOk result (λ r. IsAssembly (assembled text.now) r.status (string_bytes r.lines)) }
{
    match assemble(alloc, text) {
        Ok(code) => Ok(Output {
            status: 0,
            lines: hex_lines(alloc, encode(alloc, &code)?.as_slice())?,
            notes: None,
        }),
        Err(AsmFault::Memory) => Err(AllocError),
        Err(fault) => Ok(Output {
            status: 1,
            lines: asm_refusal(alloc, fault)?,
            notes: None,
        }),
    }
}

fn refused(alloc: Global, why: Execution) -> Result<Output, AllocError>
    ensures { IfOk result (λ r. (r.status ≡ 1) × (string_bytes r.lines ≡ lines_of why)) }
{
    Ok(Output {
        status: 1,
        lines: lines(alloc, &why)?,
        notes: None,
    })
}

fn disassembly_of(alloc: Global, bytes: &[u8]) -> Result<Output, AllocError>
    ensures { IfOk result (λ r. IsDisassemblyOf (fault_in bytes.now) bytes.now r.status (string_bytes r.lines)) }
{
    match decode(alloc, bytes) {
        Ok(code) => Ok(Output {
            status: 0,
            lines: disassemble(alloc, &code)?,
            notes: None,
        }),
        Err(DecodeFault::Memory) => Err(AllocError),
        Err(fault) => refused(alloc, Execution::Code(fault)),
    }
}

/// Disassembles the code, and says its text or why it is refused.
pub fn disassembly(alloc: Global, raw: bool, text: &[u8]) -> Result<Output, AllocError>
    ensures { IfOk result (λ r. IsDisassembly raw text.now r.status (string_bytes r.lines)) }
{
    if raw {
        return disassembly_of(alloc, text);
    }
    match bytes_of(alloc, text) {
        Ok(bytes) => disassembly_of(alloc, bytes.as_slice()),
        Err(HexFault::NotHex(at)) => refused(alloc, Execution::NotHex(at)),
        Err(HexFault::Memory) => Err(AllocError),
    }
}
