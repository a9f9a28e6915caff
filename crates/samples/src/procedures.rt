//! Five procedures, as the text of their code, and what the verifier makes of it.

use access_slots::decl::Decl;
use access_slots::slot::{Key, Mode, Slot};
use bpf_asm::assemble::assemble;
use std::alloc::Global;
use verifier::verify::{Verified, verify};

const PUT_TEXT: &str = "ldxdw r6, [r1+8]
mov r1, 0
call 5
stxdw [r0+0], r6
mov r1, 0
call 2
exit
";

const GET_TEXT: &str = "mov r1, 0
call 1
jeq r0, 0, +2
mov r0, 0
exit
mov r0, 1
exit
";

const BAD_TEXT: &str = "mov r1, 0
call 1
jeq r0, 0, +5
stdw [r0+0], 7
mov r1, 0
call 3
mov r0, 5
exit
mov r0, 1
exit
";

const MOVE_TEXT: &str = "ldxdw r6, [r1+16]
mov r1, 0
call 1
jeq r0, 0, +16
mov r7, r0
mov r1, 1
call 1
jeq r0, 0, +12
mov r8, r0
ldxdw r2, [r7+0]
sub r2, r6
stxdw [r7+0], r2
ldxdw r2, [r8+0]
add r2, r6
stxdw [r8+0], r2
mov r1, 0
call 3
mov r1, 1
call 3
exit
mov r0, 1
exit
";

const DROP_TEXT: &str = "mov r1, 0
call 4
mov r0, 5
exit
";

/// An access slot of this data component's table 0, whose key is an argument.
pub const fn keyed(mode: Mode, dc: u16, argument: u8) -> Slot {
    Slot {
        mode,
        dc,
        table: 0,
        key: Key::Arg(argument),
    }
}

/// The procedure of this text, declared with so many arguments and these access slots; none where one
/// of the three is wrong or memory ran out.
pub fn procedure(alloc: Global, args: u8, slots: &[Slot], text: &str) -> Option<Verified> {
    let code = assemble(alloc, text).ok()?;
    let decl = Decl::new(args, slots).ok()?;
    verify(alloc, code, decl).ok()
}

/// Inserts its second argument under its first, at this data component; ends with 1 where the record
/// is there already.
pub fn put_procedure(alloc: Global, dc: u16) -> Option<Verified> {
    procedure(alloc, 2, &[keyed(Mode::Write, dc, 0)], PUT_TEXT)
}

/// Reads what stands under its argument, and ends with 1 where there is nothing.
pub fn get_procedure(alloc: Global) -> Option<Verified> {
    procedure(alloc, 1, &[keyed(Mode::Read, 0, 0)], GET_TEXT)
}

/// Writes 7 over what stands under its argument, and ends with 5; with 1 where there is nothing.
pub fn bad_procedure(alloc: Global) -> Option<Verified> {
    procedure(alloc, 1, &[keyed(Mode::Write, 0, 0)], BAD_TEXT)
}

/// Moves its third argument from the number under its first to the one under its second; ends with 1
/// where one of the two isn't there.
pub fn move_procedure(alloc: Global) -> Option<Verified> {
    let slots = [keyed(Mode::Write, 0, 0), keyed(Mode::Write, 0, 1)];
    procedure(alloc, 3, &slots, MOVE_TEXT)
}

/// Deletes what stands under its argument, and ends with 5.
pub fn drop_procedure(alloc: Global) -> Option<Verified> {
    procedure(alloc, 1, &[keyed(Mode::Write, 0, 0)], DROP_TEXT)
}
