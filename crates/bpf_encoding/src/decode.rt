//! From bytes to code.

ghost use Rattle.std.specs.Prelude.{◌≡◌, ℕ, ◌*◌, ◌/◌, ◌%◌, ◌^◌, Some, None, true, false, List, length, IfOk, IfErr};
ghost use Rattle.std.specs.Int.{w32, cast_unsigned};
ghost use Rattle.bpf_encoding.specs.Fields.{slots_of};
ghost use Rattle.bpf_encoding.specs.Spelling.{fields_of_code, is_whole};
ghost use Rattle.bpf_encoding.specs.Spells.{Spells, at_slot, first_fault, fault_in, IsFirstFault};
ghost use Rattle.bpf_encoding.specs.Joining.Taking.{TakesSlot, IsFaultHere};
ghost use Rattle.bpf_encoding.specs.Joining.Viewed.{viewed};
ghost use Rattle.bpf_encoding.specs.Named.{wide_named, code_named};
ghost use Rattle.bpf_encoding.specs.declared.insn.Place.{Place};

use crate::code::{Code, MOST_SLOTS};
use crate::insn::{Insn, Place, Register};
use crate::read::insn_of;
use crate::slot::{Fields, Outside, SlotFault};
use std::alloc::{AllocError, AllocFailed, Global};
use thiserror::Error;

/// Why bytes are no code. Slots are counted from 0.
#[derive(Debug, Drop, Error)]
pub enum DecodeFault {
    /// There are no bytes.
    #[error("there are no bytes")]
    NoCode,
    /// The bytes are no whole number of slots.
    #[error("the bytes are no whole number of slots")]
    Length,
    /// There are more than 4096 slots.
    #[error("there are more than {MOST_SLOTS} slots")]
    TooLong,
    /// A wide instruction stands in the last slot.
    #[error("slot {0}: a wide instruction without its second slot")]
    WideCut(usize),
    /// A field that the form doesn't use isn't 0.
    #[error("slot {0}: a field that isn't used isn't 0")]
    UnusedField(usize),
    /// The opcode, a selecting field or a register is outside the tables.
    #[error("slot {0}: an opcode, a selecting field or a register outside the tables")]
    Undefined(usize),
    /// Standard, but not of this profile.
    #[error("slot {0}: outside this profile: {1}")]
    OutsideProfile(usize, Outside),
    /// Memory ran out.
    #[error("out of memory")]
    Memory,
}

// By hand, since contracts name what `?` makes of an error.

impl From<AllocError> for DecodeFault {
    ghost use Rattle.std.specs.Prelude.{◌≡◌};
    ghost use Rattle.bpf_encoding.specs.declared.decode.DecodeFault.TheVariants.{Memory};

    ghost from_gives = { λ _ e. e ≡ Memory };

    fn from(_e: AllocError) -> DecodeFault {
        DecodeFault::Memory
    }
}

impl<T: Drop> From<AllocFailed<T>> for DecodeFault {
    ghost use Rattle.std.specs.Prelude.{◌≡◌};
    ghost use Rattle.bpf_encoding.specs.declared.decode.DecodeFault.TheVariants.{Memory};

    ghost from_gives = { λ _ e. e ≡ Memory };

    fn from(_e: AllocFailed<T>) -> DecodeFault {
        DecodeFault::Memory
    }
}

/// The first slot of a wide instruction, which awaits its second.
#[derive(Clone, Copy)]
struct Due {
    dst: Register,
    low: u32,
}

fn fault_at(slot: usize, fault: SlotFault) -> DecodeFault
    ensures { result ≡ at_slot slot fault }
{
    match fault {
        SlotFault::UnusedField => DecodeFault::UnusedField(slot),
        SlotFault::Undefined => DecodeFault::Undefined(slot),
        SlotFault::OutsideProfile(which) => DecodeFault::OutsideProfile(slot, which),
    }
}

// A slot where no second one is due.
fn take_first(places: &mut Vec<Place>, slot: &Fields, at: usize) -> Result<Option<Due>, DecodeFault>
    ensures ok { IfOk result (λ due. TakesSlot places.old.items None (viewed slot.now) places.new.items due) }
    ensures err { IfErr result (IsFaultHere None at (viewed slot.now)) }
{
    let insn = match insn_of(slot) {
        Ok(insn) => insn,
        Err(fault) => return Err(fault_at(at, fault)),
    };
    if let Insn::LoadWide(dst, value) = insn {
        let low = (value % 0x1_0000_0000) as u32;
        return Ok(Some(Due { dst, low }));
    }
    places.push(Place::Insn(insn))?;
    Ok(None)
}

// The value of a wide instruction: its low half, and the high half in the second slot's imm.
fn wide_value(low: u32, imm: i32) -> u64
    ensures low { result % 2 ^ 32 ≡ low }
    ensures high { result / 2 ^ 32 % 2 ^ 32 ≡ cast_unsigned w32 imm }
    ensures whole { result ≡ wide_named low (cast_unsigned w32 imm) }
{
    u64::from(low) + 0x1_0000_0000 * u64::from(imm.cast_unsigned())
}

// The second slot of a wide instruction.
fn take_second(
    places: &mut Vec<Place>,
    due: Due,
    slot: &Fields,
    at: usize,
) -> Result<Option<Due>, DecodeFault>
    ensures ok { IfOk result (λ due'. TakesSlot places.old.items (Some due) (viewed slot.now) places.new.items due') }
    ensures err { IfErr result (IsFaultHere (Some due) at (viewed slot.now)) }
{
    if slot.opcode != 0 || slot.dst != 0 || slot.src != 0 || slot.offset != 0 {
        return Err(DecodeFault::UnusedField(at));
    }
    let value = wide_value(due.low, slot.imm);
    places.push(Place::Insn(Insn::LoadWide(due.dst, value)))?;
    places.push(Place::Second)?;
    Ok(None)
}

fn take(
    places: &mut Vec<Place>,
    due: Option<Due>,
    slot: &Fields,
    at: usize,
) -> Result<Option<Due>, DecodeFault>
    ensures ok { IfOk result (λ due'. TakesSlot places.old.items due (viewed slot.now) places.new.items due') }
    ensures err { IfErr result (IsFaultHere due at (viewed slot.now)) }
{
    match due {
        None => take_first(places, slot, at),
        Some(due) => take_second(places, due, slot, at),
    }
}

fn places_of(alloc: Global, bytes: &[u8]) -> Result<Vec<Place>, DecodeFault>
    requires { (n : ℕ) × (length bytes.now ≡ 8 * n) }
    ensures fields { IfOk result (λ places. fields_of_code places.items ≡ slots_of bytes.now) }
    ensures named { IfOk result (λ places. places.items ≡ code_named bytes.now) }
    ensures faultless { IfOk result (λ _. first_fault false 0 (slots_of bytes.now) ≡ None) }
    ensures whole { IfOk result (λ places. is_whole false places.items ≡ true) }
    ensures err { IfErr result (IsFirstFault (first_fault false 0 (slots_of bytes.now))) }
{
    let count = bytes.len() / 8;
    let mut places = Vec::with_capacity(alloc, count)?;
    let mut due = None;
    let mut rest = bytes;
    for at in 0..count {
        let (front, after) = rest.split_at(8);
        let slot = Fields::from_bytes(front);
        due = take(&mut places, due, &slot, at)?;
        rest = after;
    }
    match due {
        None => Ok(places),
        Some(_) => Err(DecodeFault::WideCut(count.saturating_sub(1))),
    }
}

/// The code that the bytes spell: 1 to 4096 slots of eight bytes (RFC 9669, section 3).
///
/// Refused with the first fault: those of the whole ([`DecodeFault::NoCode`],
/// [`DecodeFault::Length`], [`DecodeFault::TooLong`]), then slot by slot.
pub fn decode(alloc: Global, bytes: &[u8]) -> Result<Code, DecodeFault>
    // What is read is spelled so.
    ensures spelled { IfOk result (λ code. Spells bytes.now code) }
    // It is the one row of places that these bytes name.
    ensures named { IfOk result (λ code. code ≡ code_named bytes.now) }
    // Nothing is wrong with what is read.
    ensures faultless { IfOk result (λ _. fault_in bytes.now ≡ None) }
    // What is spelled so is read, unless memory runs out.
    ensures only { (code : List Place) → Spells bytes.now code → IfErr result (λ e. e ≡ DecodeFault.Memory) }
    // Which fault it is.
    ensures err { IfErr result (IsFirstFault (fault_in bytes.now)) }
{
    if bytes.is_empty() {
        return Err(DecodeFault::NoCode);
    }
    if bytes.len() % 8 != 0 {
        return Err(DecodeFault::Length);
    }
    if bytes.len() > 8 * MOST_SLOTS {
        return Err(DecodeFault::TooLong);
    }
    let places = places_of(alloc, bytes)?;
    Ok(Code { places })
}
