// Code and access slots, or a log's rows and what was noted of data components, as they are handed in piece by piece.

ghost use Rattle.std.specs.Prelude.{◌≡◌, ◌≢◌, reverse, IfOk, IfErr, IfSome, IfNone};
ghost use Rattle.access_slots.specs.declared.slot.Key.{Key as SlotKey};
ghost use Rattle.access_slots.specs.declared.slot.Mode.{Mode as SlotMode};
ghost use Rattle.tc_core.specs.declared.recovery.SiteNote.{SiteNote as Note};
ghost use Rattle.tc_log.specs.Reading.{ArePrinted, AreOnlyOnes, IsReadFault};
ghost use Rattle.embedding.specs.Codes.{decl_number, decl_place, decode_number, decode_place};
ghost use Rattle.embedding.specs.Gathering.{IsMode, IsKey, IsNote, HasNothing, IsAsGathered, TakesBytes, TakesSlot, TakesNote};
ghost use Rattle.embedding.specs.Gathering.{WhyNoBytes, WhyNoSlot, WhyNoNote};
ghost use Rattle.embedding.specs.Gathering.{checked_of, IsProcedure, IsWrong, wrong_number, wrong_place};

use crate::codes::{self, BAD_FRAME, DONE, MEMORY};
use crate::frame::Frame;
use access_slots::decl::{Decl, DeclFault};
use access_slots::slot::{Key, Mode, Slot};
use bpf_encoding::decode::{DecodeFault, decode};
use register_kinds::kind::Violation;
use std::alloc::Global;
use tc_core::recovery::SiteNote;
use tc_log::log::Log;
use tc_log::read::LogFault;
use verifier::verify::{Verified, VerifyFault, verify};

/// What was handed in so far.
#[derive(Drop)]
pub struct Gathered {
    alloc: Global,
    bytes: Vec<u8>,
    slots: Vec<Slot>,
    notes: Vec<SiteNote>,
}

/// Why what was handed in is no procedure, in the order in which it is looked for.
#[derive(Drop)]
pub enum Wrong {
    /// The count of arguments is no number of a byte.
    Arguments,
    /// The slots are no declaration for so many arguments.
    Slots(DeclFault),
    /// The bytes are no code.
    Bytes(DecodeFault),
    /// The verifier refuses the instruction at this slot.
    Unsafe(usize, Violation),
    Memory,
}

impl Wrong {
    /// Its code, and the slot of the code or of the declaration.
    pub fn code(&self) -> (u32, u64)
        ensures refused { result.0 ≢ 0 }
        ensures number { result.0 ≡ wrong_number self.now }
        ensures place { result.1 ≡ wrong_place self.now }
    {
        match self {
            Wrong::Arguments => (BAD_FRAME, 0),
            Wrong::Slots(fault) => codes::decl_code(*fault),
            Wrong::Bytes(fault) => codes::decode_code(fault),
            Wrong::Unsafe(slot, violation) => (codes::violation_code(*violation), *slot as u64),
            Wrong::Memory => (MEMORY, 0),
        }
    }
}

fn mode_of(kind: u32) -> Option<Mode>
    ensures some { IfSome result (IsMode kind) }
    ensures none { IfNone result ((mode : SlotMode) → ¬ (IsMode kind mode)) }
{
    match kind {
        0 => Some(Mode::Read),
        1 => Some(Mode::Write),
        _ => None,
    }
}

// With 1 in `op` the key is the number of an argument.
fn key_of(frame: &Frame) -> Option<Key>
    ensures some { IfSome result (IsKey frame.now) }
    ensures none { IfNone result ((key : SlotKey) → ¬ (IsKey frame.now key)) }
{
    match frame.op {
        0 => Some(Key::Fixed(frame.key)),
        1 => {
            if frame.key > 255 {
                return None;
            }
            Some(Key::Arg(frame.key as u8))
        }
        _ => None,
    }
}

// That a data component is up, or has restarted.
fn note_of(frame: &Frame) -> Option<SiteNote>
    ensures some { IfSome result (IsNote frame.now) }
    ensures none { IfNone result ((note : Note) → ¬ (IsNote frame.now note)) }
{
    match frame.kind {
        1 => Some(SiteNote::Up(frame.incarnation)),
        2 => Some(SiteNote::Restarted(frame.news())),
        _ => None,
    }
}

impl Gathered {
    /// Nothing yet. It takes no memory.
    pub fn new(alloc: Global) -> Gathered
        ensures { HasNothing result }
    {
        Gathered {
            alloc,
            bytes: Vec::new(alloc),
            slots: Vec::new(alloc),
            notes: Vec::new(alloc),
        }
    }

    /// Forgets all, and gives its memory back.
    pub fn clear(&mut self) -> u32
        ensures code { result ≡ DONE }
        ensures done { HasNothing self.new }
    {
        *self = Gathered::new(self.alloc);
        DONE
    }

    /// The frame's bytes behind those that there are.
    pub fn more_bytes(&mut self, frame: &Frame) -> u32
        ensures refused { result ≢ 0 → IsAsGathered self.old self.new }
        ensures why { result ≢ 0 → WhyNoBytes self.old frame.now result }
        ensures done { result ≡ 0 → TakesBytes self.old frame.now self.new }
    {
        let Some(text) = frame.text() else {
            return BAD_FRAME;
        };
        match self.bytes.extend_from_slice(text) {
            Ok(()) => DONE,
            Err(_) => MEMORY,
        }
    }

    /// The frame's slot behind those that there are.
    pub fn more_slots(&mut self, frame: &Frame) -> u32
        ensures refused { result ≢ 0 → IsAsGathered self.old self.new }
        ensures why { result ≢ 0 → WhyNoSlot self.old frame.now result }
        ensures done { result ≡ 0 → TakesSlot self.old frame.now self.new }
    {
        let Some(mode) = mode_of(frame.kind) else {
            return BAD_FRAME;
        };
        let Some(key) = key_of(frame) else {
            return BAD_FRAME;
        };
        let slot = Slot {
            mode,
            dc: frame.dc,
            table: frame.table,
            key,
        };
        match self.slots.push(slot) {
            Ok(()) => DONE,
            Err(_) => MEMORY,
        }
    }

    /// The frame's note behind those that there are.
    pub fn more_notes(&mut self, frame: &Frame) -> u32
        ensures refused { result ≢ 0 → IsAsGathered self.old self.new }
        ensures why { result ≢ 0 → WhyNoNote self.old frame.now result }
        ensures done { result ≡ 0 → TakesNote self.old frame.now self.new }
    {
        let Some(note) = note_of(frame) else {
            return BAD_FRAME;
        };
        match self.notes.push(note) {
            Ok(()) => DONE,
            Err(_) => MEMORY,
        }
    }

    /// The log whose rows the bytes are.
    pub fn log(&self) -> Result<Log, LogFault>
        ensures ok { IfOk result (λ log. ArePrinted (reverse log.events) self.now.bytes.items) }
        ensures only { IfOk result (λ log. AreOnlyOnes (reverse log.events) self.now.bytes.items) }
        ensures err { IfErr result (IsReadFault self.now.bytes.items) }
    {
        Log::read(self.alloc, self.bytes.as_slice())
    }

    /// The bytes.
    pub fn bytes(&self) -> &[u8]
        ensures { result.now ≡ self.now.bytes.items }
    {
        self.bytes.as_slice()
    }

    /// The notes.
    pub fn notes(&self) -> &[SiteNote]
        ensures { result.now ≡ self.now.notes.items }
    {
        self.notes.as_slice()
    }

    // What was handed in, as a declaration for so many arguments.
    fn decl(&self, args: u64) -> Result<Decl, Wrong>
        ensures ok { IfOk result (λ d. d ≡ record { args = args; slots = self.now.slots.items }) }
        ensures err { IfErr result (IsWrong self.now.bytes.items self.now.slots.items args) }
    {
        if args > 255 {
            return Err(Wrong::Arguments);
        }
        match Decl::new(args as u8, self.slots.as_slice()) {
            Ok(decl) => Ok(decl),
            Err(fault) => Err(Wrong::Slots(fault)),
        }
    }

    /// What was handed in, verified for so many arguments.
    pub fn verified(&self, args: u64) -> Result<Verified, Wrong>
        ensures ok { IfOk result (λ v. v ≡ checked_of self.now.bytes.items self.now.slots.items args) }
        ensures fine { IfOk result (λ _. IsProcedure self.now.bytes.items self.now.slots.items args) }
        ensures err { IfErr result (IsWrong self.now.bytes.items self.now.slots.items args) }
    {
        let decl = match self.decl(args) {
            Ok(decl) => decl,
            Err(wrong) => return Err(wrong),
        };
        let code = match decode(self.alloc, self.bytes.as_slice()) {
            Ok(code) => code,
            Err(fault) => return Err(Wrong::Bytes(fault)),
        };
        match verify(self.alloc, code, decl) {
            Ok(verified) => Ok(verified),
            Err(VerifyFault::At(slot, violation)) => Err(Wrong::Unsafe(slot, violation)),
            Err(VerifyFault::Memory) => Err(Wrong::Memory),
        }
    }
}
