//! How code that the verifier refuses is mended in C.

use register_kinds::kind::Violation;

/// What to do about this violation in a procedure of an object file.
pub(crate) fn cure_of(violation: Violation) -> &'static str {
    match violation {
        Violation::Backward => "unroll the loop with #pragma unroll, or write it out",
        Violation::OutOfCode | Violation::FallsOff => {
            "put one function into a section, and make those that it calls always_inline"
        }
        Violation::IntoWide | Violation::WritesR10 => "no compiler writes that: compile it again",
        Violation::EmptyRegister => "give the variable a value on every path",
        Violation::NotAPointer => {
            "call record_buffer again for the address, and move addresses by constants alone"
        }
        Violation::OutOfBounds => {
            "stay within a record's 64 bytes, the arguments that TAKES declares, and 512 bytes of stack"
        }
        Violation::ReadOnly => "arguments are only read: use a variable of your own",
        Violation::MaybeNull => "test what record_read returned against 0 before its use",
        Violation::UnknownHelper => {
            "call the five functions of mazzulpe_procedure.h alone, and make others always_inline"
        }
        Violation::SlotUnknown => "name the slot by a constant that ACCESSES declares",
        Violation::ModeTooWeak => "declare the slot by WRITES",
        Violation::PointerReturned => "return a number and no address",
    }
}
