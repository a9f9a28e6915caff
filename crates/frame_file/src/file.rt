// A file of frames over a device.

ghost use Rattle.std.specs.Prelude.{◌≡◌, ◌<◌, ◌≤◌, ◌+◌, ◌^◌, ◌++◌, [], ◌∷◌, ℕ, List, length, drop, IfOk, OnOk, IsErrOf};
ghost use Rattle.frame_file.specs.Device.{Only, LeavesOnly};
ghost use Rattle.frame_file.specs.Frame.{frames_from};
ghost use Rattle.frame_file.specs.Reading.{Reads, IsFound, IsDamaged, IsSettled, IsBeforeOrAfter, ReadsAs, payloads_in};
ghost use Rattle.frame_file.specs.declared.device.DeviceError.TheVariants.{Failed, Unkept};
ghost use Rattle.frame_file.specs.declared.reading.FrameFault.TheVariants.{Device as DeviceFault, Full, Damaged};

use crate::device::{Device, DeviceError};
use crate::frame::{HEAD, write_frame};
use crate::reading::{Found, FrameFault, read_frames};
use std::alloc::Global;

/// A file of frames: recovered ([`FrameFile::recover`]) before anything is appended. After each `Err` of a
/// call, `recover`'s too, the file has to be opened again first: a new device over it as it is then, and
/// a new `FrameFile`.
#[derive(Drop)]
pub struct FrameFile<D: Device> {
    device: D,
    count: u64,
}

impl<D: Device> FrameFile<D> {
    /// Over a device whose file isn't recovered yet.
    pub fn new(device: D) -> FrameFile<D>
        ensures device { result.device ≡ device }
        ensures count { result.count ≡ 0 }
    {
        FrameFile { device, count: 0 }
    }

    /// The device.
    pub fn device(&self) -> &D
        ensures { result.now ≡ self.now.device }
    {
        &self.device
    }

    /// Cuts off the end behind the frames that were found in the file's bytes, once it is kept elsewhere.
    /// This may be cut short by a crash too, which leaves a file that is read the same.
    pub fn settle(&mut self, bytes: &[u8], found: &Found) -> Result<(), DeviceError>
        requires bytes { bytes.now ≡ D.seen self.old.device }
        requires found { IsFound (D.seen self.old.device) found.now }
        // After a restart, what is read is what is on the disk.
        requires settled { Only (D.seen self.old.device) (D.may_leave self.old.device) }
        ensures settled { OnOk result (IsSettled D.seen D.may_leave self.new (payloads_in found.now.payloads.items)) }
        ensures kept { OnOk result (D.kept self.new.device ≡ D.kept self.old.device ++ drop found.now.end (D.seen self.old.device)) }
        ensures any_moment { LeavesOnly D.moment D.left_since self.old.device self.new.device (ReadsAs (D.seen self.old.device)) }
        ensures failed { IsErrOf result Failed → D.faults self.old.device < D.faults self.new.device }
    {
        self.device.cut(found.end, &bytes[found.end..])?;
        self.device.sync()?;
        self.count = found.payloads.len() as u64;
        Ok(())
    }

    /// The payloads of a file with these bytes, which a crash may have left. Its end, where it isn't a whole
    /// frame, is cut off, as [`FrameFile::settle`] does. A file that isn't read isn't changed.
    pub fn recover(&mut self, alloc: Global, bytes: &[u8]) -> Result<Vec<Vec<u8>>, FrameFault>
        requires bytes { bytes.now ≡ D.seen self.old.device }
        // After a restart, what is read is what is on the disk.
        requires settled { Only (D.seen self.old.device) (D.may_leave self.old.device) }
        ensures reads { IfOk result (λ payloads. Reads (D.seen self.old.device) (payloads_in payloads.items)) }
        ensures settled { IfOk result (λ payloads. IsSettled D.seen D.may_leave self.new (payloads_in payloads.items)) }
        ensures kept { IfOk result (λ payloads. D.kept self.new.device
            ≡ D.kept self.old.device ++ drop (length (frames_from 0 (payloads_in payloads.items))) (D.seen self.old.device)) }
        ensures damaged { (number : ℕ) → IsErrOf result (Damaged number) → IsDamaged (D.seen self.old.device) number }
        ensures unchanged { (number : ℕ) → IsErrOf result (Damaged number) → D.seen self.new.device ≡ D.seen self.old.device }
        ensures any_moment { LeavesOnly D.moment D.left_since self.old.device self.new.device (ReadsAs (D.seen self.old.device)) }
        ensures failed { IsErrOf result (DeviceFault Failed) → D.faults self.old.device < D.faults self.new.device }
    {
        let found = read_frames(alloc, bytes)?;
        self.settle(bytes, &found)?;
        Ok(found.payloads)
    }

    /// One frame more, behind those that the file has. At `Ok` it is acknowledged: from then on each crash
    /// leaves a file that has it. Refused as [`FrameFault::Full`] behind 2^64 - 1 frames.
    pub fn append(&mut self, alloc: Global, payload: &[u8]) -> Result<(), FrameFault>
        ensures acknowledged { (payloads : List (List ℕ)) → IsSettled D.seen D.may_leave self.old payloads →
            OnOk result (IsSettled D.seen D.may_leave self.new (payloads ++ payload.now ∷ [])) }
        // A crash at any moment of the call leaves the frames from before it, with the new one or without.
        ensures any_moment { (payloads : List (List ℕ)) → IsSettled D.seen D.may_leave self.old payloads
            → LeavesOnly D.moment D.left_since self.old.device self.new.device (IsBeforeOrAfter payloads payload.now) }
        // It doesn't give up by itself.
        ensures failed { IsErrOf result (DeviceFault Failed) → D.faults self.old.device < D.faults self.new.device }
        ensures later { D.faults self.old.device ≤ D.faults self.new.device }
        ensures full { IsErrOf result Full → 2 ^ 64 ≤ self.old.count + 1 }
        ensures uncut { IsErrOf result (DeviceFault Unkept) → ⊥ }
        ensures undamaged { (number : ℕ) → IsErrOf result (Damaged number) → ⊥ }
    {
        let Some(next) = self.count.checked_add(1) else {
            return Err(FrameFault::Full);
        };
        let mut frame = Vec::with_capacity(alloc, HEAD + payload.len())?;
        write_frame(&mut frame, self.count, payload)?;
        self.device.append(&frame)?;
        self.device.sync()?;
        self.count = next;
        Ok(())
    }
}
