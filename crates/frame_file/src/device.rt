// A file as a log sees it: its bytes, and what a crash may leave.

ghost use Rattle.std.specs.Prelude.{◌≡◌, ◌≤◌, ◌++◌, List, ℕ, length, take, drop, OnOk, IsErrOf};
ghost use Rattle.frame_file.specs.declared.device.DeviceError.TheVariants.{Memory, Unkept};
ghost use Rattle.frame_file.specs.Device.{Only, Follows, Torn, Cut, KeepsFirst, Elapses, HasCause};

use std::alloc::{AllocError, AllocFailed};

/// Why a call of a device failed.
#[derive(Clone, Copy, Debug, PartialEq, Eq)]
pub enum DeviceError {
    /// Memory ran out.
    Memory,
    /// The disk failed.
    Failed,
    /// There is no place for what would be cut off.
    Unkept,
}

impl From<AllocError> for DeviceError {
    ghost from_gives = { λ _ e. e ≡ Memory };

    fn from(_: AllocError) -> Self {
        DeviceError::Memory
    }
}

impl<T: Drop> From<AllocFailed<T>> for DeviceError {
    ghost from_gives = { λ _ e. e ≡ Memory };

    fn from(_: AllocFailed<T>) -> Self {
        DeviceError::Memory
    }
}

/// A file that grows at its end. Who opens it has read it; the device hands out no bytes. Between two syncs a crash
/// may leave any part of what was appended, with zeros in the place of some of its words of 8 bytes.
pub trait Device {
    /// Its bytes: those that it was opened with, and what was written since.
    ghost seen: { Self → List ℕ };

    /// What a crash at this moment may leave.
    ghost may_leave: { Self → List ℕ → Type 0 };

    /// The moment, as a number that doesn't fall.
    ghost moment: { Self → ℕ };

    /// What a crash at some moment from that one on might have left, during a call or between two.
    ghost left_since: { Self → ℕ → List ℕ → Type 0 };

    /// How often the disk has failed.
    ghost faults: { Self → ℕ };

    /// What was cut off and is kept elsewhere, one piece behind another.
    ghost kept: { Self → List ℕ };

    /// Writes behind the last byte. Until a sync, a crash may leave a part of these bytes there, and holes.
    fn append(&mut self, bytes: &[u8]) -> Result<(), DeviceError>
        ensures written { OnOk result (seen self.new ≡ seen self.old ++ bytes.now) }
        ensures crash { Follows (Torn bytes.now) (may_leave self.old) (may_leave self.new) }
        ensures time { Elapses (moment self.old) (moment self.new) (left_since self.old) (left_since self.new) (may_leave self.new) }
        ensures cause { HasCause (faults self.old) (faults self.new) result }
        // Nothing is cut off.
        ensures uncut { IsErrOf result Unkept → ⊥ };

    /// Cuts the file to a length, once what is cut off, which is this end of it, is kept, and synced, elsewhere.
    fn cut(&mut self, len: usize, end: &[u8]) -> Result<(), DeviceError>
        requires inside { len ≤ length (seen self.old) }
        requires end { end.now ≡ drop len (seen self.old) }
        ensures cut { OnOk result (seen self.new ≡ take len (seen self.old)) }
        ensures kept { OnOk result (kept self.new ≡ kept self.old ++ drop len (seen self.old)) }
        ensures first { KeepsFirst (drop len (seen self.old)) (kept self.old) (kept self.new) (may_leave self.old) (may_leave self.new) }
        ensures crash { Follows (Cut len) (may_leave self.old) (may_leave self.new) }
        ensures time { Elapses (moment self.old) (moment self.new) (left_since self.old) (left_since self.new) (may_leave self.new) }
        ensures cause { HasCause (faults self.old) (faults self.new) result };

    /// After it, a crash leaves its bytes.
    fn sync(&mut self) -> Result<(), DeviceError>
        ensures durable { OnOk result (Only (seen self.old) (may_leave self.new)) }
        ensures seen { seen self.new ≡ seen self.old }
        ensures kept { kept self.new ≡ kept self.old }
        ensures crash { (c : List ℕ) → may_leave self.new c → may_leave self.old c }
        ensures time { Elapses (moment self.old) (moment self.new) (left_since self.old) (left_since self.new) (may_leave self.new) }
        ensures cause { HasCause (faults self.old) (faults self.new) result }
        ensures uncut { IsErrOf result Unkept → ⊥ };

    /// This moment is one of those since an earlier one.
    ghost counts_now: { (file : Self) (t : ℕ) (c : List ℕ) → t ≤ moment file → may_leave file c → left_since file t c };

    /// Since this moment there is no other.
    ghost only_now: { (file : Self) (c : List ℕ) → left_since file (moment file) c → may_leave file c };
}
