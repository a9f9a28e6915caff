//! The printed names of all faults: code, name and detail.

ghost use Rattle.std.specs.Prelude.{◌≡◌, IfOk, string_bytes};
ghost use Rattle.report_texts.specs.FaultNames.{outside_name, fault_name, violation_name, line_fault_name};
ghost use Rattle.report_texts.specs.FaultNames.{asm_fault_name, decl_fault_name, script_fault_name};

use access_slots::decl::DeclFault;
use bpf_asm::assemble::AsmFault;
use bpf_asm::line::LineFault;
use bpf_encoding::decode::DecodeFault;
use bpf_encoding::slot::Outside;
use register_kinds::kind::Violation;
use scripts::fault::ScriptFault;
use std::alloc::{AllocError, Global};

fn outside_name(which: Outside) -> &'static str
    ensures { result.now ≡ outside_name which }
{
    match which {
        Outside::Packet => "Packet",
        Outside::WideSubtype => "WideSubtype",
        Outside::LocalCall => "LocalCall",
        Outside::BtfCall => "BtfCall",
    }
}

/// A violation, by its code and its name.
pub fn violation_name(violation: Violation) -> &'static str
    ensures { result.now ≡ violation_name violation }
{
    match violation {
        Violation::Backward => "V1 Backward",
        Violation::OutOfCode => "V2 OutOfCode",
        Violation::IntoWide => "V3 IntoWide",
        Violation::FallsOff => "V4 FallsOff",
        Violation::EmptyRegister => "V5 EmptyRegister",
        Violation::WritesR10 => "V6 WritesR10",
        Violation::NotAPointer => "V7 NotAPointer",
        Violation::OutOfBounds => "V8 OutOfBounds",
        Violation::ReadOnly => "V9 ReadOnly",
        Violation::MaybeNull => "V10 MaybeNull",
        Violation::UnknownHelper => "V11 UnknownHelper",
        Violation::SlotUnknown => "V12 SlotUnknown",
        Violation::ModeTooWeak => "V13 ModeTooWeak",
        Violation::PointerReturned => "V14 PointerReturned",
    }
}

/// A fault of decoding, by its code, its name and its place.
pub fn fault_name(alloc: Global, fault: &DecodeFault) -> Result<String, AllocError>
    ensures { IfOk result (λ s. string_bytes s ≡ fault_name fault.now) }
{
    match *fault {
        DecodeFault::NoCode => String::from_str(alloc, "E1 NoCode"),
        DecodeFault::Length => String::from_str(alloc, "E2 Length"),
        DecodeFault::TooLong => String::from_str(alloc, "E3 TooLong"),
        DecodeFault::WideCut(slot) => format!(in alloc; "E4 WideCut slot {slot}"),
        DecodeFault::UnusedField(slot) => format!(in alloc; "E5 UnusedField slot {slot}"),
        DecodeFault::Undefined(slot) => format!(in alloc; "E6 Undefined slot {slot}"),
        DecodeFault::OutsideProfile(slot, which) => {
            let place = format!(in alloc; "E7 OutsideProfile slot {slot} ")?;
            let which = outside_name(which);
            format!(in alloc; "{place}{which}")
        }
        DecodeFault::Memory => String::from_str(alloc, "E8 Memory"),
    }
}

// A fault of a line, by its code and its name.
fn line_fault_name(fault: LineFault) -> &'static str
    ensures { result.now ≡ line_fault_name fault }
{
    match fault {
        LineFault::UnknownWord => "A1 UnknownWord",
        LineFault::BadRegister => "A2 BadRegister",
        LineFault::BadNumber => "A3 BadNumber",
        LineFault::OutOfRange => "A4 OutOfRange",
        LineFault::Operands => "A5 Operands",
    }
}

/// A fault of assembling, by its code, its name and its line.
pub fn asm_fault_name(alloc: Global, fault: AsmFault) -> Result<String, AllocError>
    ensures { IfOk result (λ s. string_bytes s ≡ asm_fault_name fault) }
{
    match fault {
        AsmFault::Line(number, fault) => {
            let name = line_fault_name(fault);
            format!(in alloc; "{name} line {number}")
        }
        AsmFault::TooLong(number) => format!(in alloc; "A7 TooLong line {number}"),
        AsmFault::NoCode => String::from_str(alloc, "A8 NoCode line 0"),
        AsmFault::Memory => String::from_str(alloc, "A6 Memory"),
    }
}

/// What is wrong with a declaration, by its code, its name and the slot.
pub fn decl_fault_name(alloc: Global, fault: DeclFault) -> Result<String, AllocError>
    ensures { IfOk result (λ s. string_bytes s ≡ decl_fault_name fault) }
{
    match fault {
        DeclFault::TooManyArgs => String::from_str(alloc, "S1 TooManyArgs"),
        DeclFault::TooManySlots => String::from_str(alloc, "S2 TooManySlots"),
        DeclFault::NoSuchArg(slot) => format!(in alloc; "S3 NoSuchArg slot {slot}"),
    }
}

/// A fault of a script, by its code, its name and what is wrong in it.
pub fn script_fault_name(alloc: Global, fault: ScriptFault) -> Result<String, AllocError>
    ensures { IfOk result (λ s. string_bytes s ≡ script_fault_name fault) }
{
    match fault {
        ScriptFault::BadLine => String::from_str(alloc, "F1 BadLine"),
        ScriptFault::BadNumber => String::from_str(alloc, "F2 BadNumber"),
        ScriptFault::NameTaken => String::from_str(alloc, "F3 NameTaken"),
        ScriptFault::NameUnknown => String::from_str(alloc, "F4 NameUnknown"),
        ScriptFault::Decl(fault) => {
            let fault = decl_fault_name(alloc, fault)?;
            format!(in alloc; "F5 Decl {fault}")
        }
        ScriptFault::Asm(fault) => {
            let fault = line_fault_name(fault);
            format!(in alloc; "F6 Asm {fault}")
        }
        ScriptFault::TooLong => String::from_str(alloc, "F6 Asm A7 TooLong"),
        ScriptFault::NoCode => String::from_str(alloc, "F6 Asm A8 NoCode"),
        ScriptFault::DcUnknown => String::from_str(alloc, "F8 DcUnknown"),
        ScriptFault::Order => String::from_str(alloc, "F9 Order"),
    }
}
