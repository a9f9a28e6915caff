// Procedures as bytes.

ghost use Rattle.std.specs.Prelude.{◌≡◌, ◌++◌, OnOk};
ghost use Rattle.std.specs.List.{flat_map};
ghost use Rattle.procedure_digest.specs.Bytes.{mode_number, key_kind, key_number, slot_bytes, decl_bytes, procedure_bytes};

use access_slots::decl::Decl;
use access_slots::slot::{Key, Mode, Slot};
use bpf_encoding::encode::encode;
use frame_file::write_long;
use std::alloc::{AllocError, Global};
use verifier::verify::Verified;

fn mode_number(mode: Mode) -> u64
    ensures { result ≡ mode_number mode }
{
    match mode {
        Mode::Read => 0,
        Mode::Write => 1,
    }
}

fn key_kind(key: Key) -> u64
    ensures { result ≡ key_kind key }
{
    match key {
        Key::Arg(_) => 0,
        Key::Fixed(_) => 1,
    }
}

fn key_number(key: Key) -> u64
    ensures { result ≡ key_number key }
{
    match key {
        Key::Arg(argument) => u64::from(argument),
        Key::Fixed(key) => key,
    }
}

fn write_slot(out: &mut Vec<u8>, slot: &Slot) -> Result<(), AllocError>
    ensures { OnOk result (out.new.items ≡ out.old.items ++ slot_bytes slot.now) }
{
    write_long(out, mode_number(slot.mode))?;
    write_long(out, u64::from(slot.dc))?;
    write_long(out, u64::from(slot.table))?;
    write_long(out, key_kind(slot.key))?;
    write_long(out, key_number(slot.key))
}

fn write_slots(out: &mut Vec<u8>, slots: &[Slot]) -> Result<(), AllocError>
    ensures { OnOk result (out.new.items ≡ out.old.items ++ flat_map slot_bytes slots.now) }
{
    'slots: for slot in slots {
        write_slot(out, slot)?;
    }
    Ok(())
}

fn write_decl(out: &mut Vec<u8>, decl: &Decl) -> Result<(), AllocError>
    ensures { OnOk result (out.new.items ≡ out.old.items ++ decl_bytes decl.now) }
{
    let slots = decl.slots();
    write_long(out, decl.args() as u64)?;
    write_long(out, slots.len() as u64)?;
    write_slots(out, slots)
}

/// Writes a procedure's declaration and code.
pub(crate) fn write_procedure(
    alloc: Global,
    out: &mut Vec<u8>,
    procedure: &Verified,
) -> Result<(), AllocError>
    ensures { OnOk result (out.new.items ≡ out.old.items ++ procedure_bytes procedure.now) }
{
    let code = encode(alloc, procedure.code())?;
    write_decl(out, procedure.decl())?;
    write_long(out, code.len() as u64)?;
    out.extend_from_slice(&code)
}
