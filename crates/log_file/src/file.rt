// A log's file.

ghost use Rattle.std.specs.Prelude.{◌≡◌, ◌<◌, ◌≤◌, ◌+◌, ◌^◌, ◌++◌, [], ◌∷◌, ℕ, List, Some, map, reverse, IfOk, IfErr, OnOk, IsErrOf};
ghost use Rattle.frame_file.specs.Device.{Only, LeavesOnly};
ghost use Rattle.frame_file.specs.Reading.{Reads, IsSettled, IsBeforeOrAfter, ReadsAs};
ghost use Rattle.frame_file.specs.declared.device.DeviceError.TheVariants.{Failed, Unkept};
ghost use Rattle.frame_file.specs.declared.reading.FrameFault.TheVariants.{Device as DeviceFault, Full, Damaged};
ghost use Rattle.log_file.specs.declared.reading.OpenFault.TheVariants.{Empty as EmptyFault};
ghost use Rattle.log_file.specs.Bytes.{part_bytes, parts_of, batch_bytes, header_bytes, payloads_of};
ghost use Rattle.log_file.specs.Found.{base_in};
ghost use Rattle.log_file.specs.Reading.{Says, IsOpenFault, IsRefusal, IsAsItWas, IsFront, Keeps};

use crate::base::{BaseRow, part_bytes, split_part};
use crate::batch::batch_bytes;
use crate::header::{Header, based_header_bytes, header_bytes};
use crate::note::Note;
use crate::reading::{OpenFault, Recovered, read_own};
use frame_file::{Device, FrameFault, FrameFile, read_frames};
use std::alloc::Global;

/// The log of a transaction component in a file: opened, and where it is empty created or begun anew, before
/// anything is appended. After each other `Err` of a call it has to be opened again, in a new `LogFile` over a new
/// device.
#[derive(Drop)]
pub struct LogFile<D: Device> {
    frames: FrameFile<D>,
}

impl<D: Device> LogFile<D> {
    /// Over a device whose file isn't opened yet.
    pub fn new(device: D) -> LogFile<D>
        ensures device { result.frames.device ≡ device }
        ensures count { result.frames.count ≡ 0 }
    {
        LogFile {
            frames: FrameFile::new(device),
        }
    }

    /// The device.
    pub fn device(&self) -> &D
        ensures { result.now ≡ self.now.frames.device }
    {
        self.frames.device()
    }

    /// Reads a file of these bytes, which a crash may have left: the base, the log and the notes of all that was
    /// acknowledged, and perhaps of what was being appended. An end that a crash left is cut off, once it is kept elsewhere.
    /// This may be cut short by a crash too, which leaves a file that is read the same. A file that isn't
    /// this header's log is refused, and not changed.
    pub fn open(
        &mut self,
        alloc: Global,
        header: &Header,
        bytes: &[u8],
    ) -> Result<Recovered, OpenFault>
        requires bytes { bytes.now ≡ D.seen self.old.frames.device }
        // After a restart, what is read is what is on the disk.
        requires settled { Only (D.seen self.old.frames.device) (D.may_leave self.old.frames.device) }
        ensures says { IfOk result (λ r. (payloads : List (List ℕ)) × Reads (D.seen self.old.frames.device) payloads
            × IsSettled D.seen D.may_leave self.new.frames payloads
            × Says header.now payloads (base_in r.base) r.notes.items (reverse r.log.events)) }
        ensures empty { IsErrOf result EmptyFault → IsSettled D.seen D.may_leave self.new.frames [] }
        ensures kept { IfOk result (λ _. Keeps D.seen D.kept self.old.frames.device self.new.frames.device) }
        ensures kept_begun { IsErrOf result EmptyFault → Keeps D.seen D.kept self.old.frames.device self.new.frames.device }
        ensures fault { IfErr result (IsOpenFault header.now (D.seen self.old.frames.device)) }
        ensures refused { IfErr result (λ fault. IsRefusal fault → IsAsItWas D.seen D.may_leave D.kept self.old.frames.device self.new.frames.device) }
        ensures any_moment { LeavesOnly D.moment D.left_since self.old.frames.device self.new.frames.device
            (ReadsAs (D.seen self.old.frames.device)) }
    {
        let found = read_frames(alloc, bytes)?;
        let recovered = read_own(alloc, header, bytes, &found)?;
        self.frames.settle(bytes, &found)?;
        match recovered {
            Some(recovered) => Ok(recovered),
            None => Err(OpenFault::Empty),
        }
    }

    /// Begins the log of a file that `open` has found [`OpenFault::Empty`].
    pub fn create(&mut self, alloc: Global, header: &Header) -> Result<(), FrameFault>
        ensures acknowledged { IsSettled D.seen D.may_leave self.old.frames [] →
            OnOk result (IsSettled D.seen D.may_leave self.new.frames (header_bytes header.now ∷ [])) }
        ensures any_moment { IsSettled D.seen D.may_leave self.old.frames []
            → LeavesOnly D.moment D.left_since self.old.frames.device self.new.frames.device
            (IsBeforeOrAfter [] (header_bytes header.now)) }
        ensures failed { IsErrOf result (DeviceFault Failed) → D.faults self.old.frames.device < D.faults self.new.frames.device }
    {
        let payload = header_bytes(alloc, header)?;
        self.frames.append(alloc, &payload)
    }

    // Writes the parts of a base.
    fn append_base(&mut self, alloc: Global, base: &[BaseRow]) -> Result<(), FrameFault>
        ensures acknowledged { (before : List (List ℕ)) → IsSettled D.seen D.may_leave self.old.frames before
            → OnOk result (IsSettled D.seen D.may_leave self.new.frames (before ++ map part_bytes (parts_of base.now))) }
        ensures any_moment { (before after : List (List ℕ)) (last : List ℕ) → IsSettled D.seen D.may_leave self.old.frames before
            → LeavesOnly D.moment D.left_since self.old.frames.device self.new.frames.device
            (IsFront (before ++ (map part_bytes (parts_of base.now) ++ last ∷ after))) }
        ensures failed { IsErrOf result (DeviceFault Failed) → D.faults self.old.frames.device < D.faults self.new.frames.device }
        ensures later { D.faults self.old.frames.device ≤ D.faults self.new.frames.device }
    {
        let mut rest = base;
        'parts: while !rest.is_empty() {
            let (part, after) = split_part(rest);
            let payload = part_bytes(alloc, part)?;
            self.frames.append(alloc, &payload)?;
            rest = after;
        }
        Ok(())
    }

    /// Begins the log of a file that `open` has found [`OpenFault::Empty`] behind an earlier log: with the records
    /// that data components have, which have to rise, and the row of a checkpoint. Where it isn't done, or a crash
    /// cuts it short, the file says no log.
    pub fn begin_anew(
        &mut self,
        alloc: Global,
        header: &Header,
        base: &[BaseRow],
        checkpoint: &[u8],
    ) -> Result<(), FrameFault>
        ensures acknowledged { IsSettled D.seen D.may_leave self.old.frames [] → OnOk result (IsSettled D.seen D.may_leave self.new.frames
            (payloads_of header.now (Some base.now) (record { notes = []; rows = checkpoint.now } ∷ []))) }
        // A crash at any moment of the call leaves the first of these frames, or all.
        ensures any_moment { IsSettled D.seen D.may_leave self.old.frames [] → LeavesOnly D.moment D.left_since self.old.frames.device
            self.new.frames.device (IsFront (payloads_of header.now (Some base.now) (record { notes = []; rows = checkpoint.now } ∷ []))) }
        ensures failed { IsErrOf result (DeviceFault Failed) → D.faults self.old.frames.device < D.faults self.new.frames.device }
    {
        let payload = based_header_bytes(alloc, header, base.len() as u64)?;
        self.frames.append(alloc, &payload)?;
        self.append_base(alloc, base)?;
        self.append(alloc, &[], checkpoint)
    }

    /// One sync more: these notes, and the rows of these events behind those that the file has. At `Ok` it
    /// is acknowledged: from then on each crash leaves a file that has it.
    pub fn append(&mut self, alloc: Global, notes: &[Note], rows: &[u8]) -> Result<(), FrameFault>
        ensures acknowledged { (payloads : List (List ℕ)) → IsSettled D.seen D.may_leave self.old.frames payloads
            → OnOk result (IsSettled D.seen D.may_leave self.new.frames (payloads
            ++ batch_bytes (record { notes = notes.now; rows = rows.now }) ∷ [])) }
        // A crash at any moment of the call leaves all that was there before it, with this or without.
        ensures any_moment { (payloads : List (List ℕ)) → IsSettled D.seen D.may_leave self.old.frames payloads
            → LeavesOnly D.moment D.left_since self.old.frames.device self.new.frames.device
            (IsBeforeOrAfter payloads (batch_bytes (record { notes = notes.now; rows = rows.now }))) }
        // It doesn't give up by itself: the disk has failed, there are 2^64 - 1 frames, or memory ran out.
        ensures failed { IsErrOf result (DeviceFault Failed) → D.faults self.old.frames.device < D.faults self.new.frames.device }
        ensures full { IsErrOf result Full → 2 ^ 64 ≤ self.old.frames.count + 1 }
        ensures uncut { IsErrOf result (DeviceFault Unkept) → ⊥ }
        ensures undamaged { (number : ℕ) → IsErrOf result (Damaged number) → ⊥ }
    {
        let payload = batch_bytes(alloc, notes, rows)?;
        self.frames.append(alloc, &payload)
    }
}
