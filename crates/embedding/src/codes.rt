//! What a call answers: 0, or why it did nothing, as a letter and a number in one word.

ghost use Rattle.std.specs.Prelude.{◌≡◌, ◌≢◌};
ghost use Rattle.embedding.specs.Codes.{decode_number, decode_place, violation_number, decl_number, decl_place, news_number, checkpoint_number};
ghost use Rattle.embedding.specs.Codes.{read_number, read_place, recover_number, recover_place};
ghost use Rattle.embedding.specs.Codes.{ahead_number, open_number, open_place, back_number, back_place};

use access_slots::decl::DeclFault;
use bpf_encoding::decode::DecodeFault;
use engine_log::{AheadFault, BackFault};
use frame_file::FrameFault;
use log_file::OpenFault;
use register_kinds::kind::Violation;
use tc_core::beginning::CheckpointFault;
use tc_core::checking::CheckFault;
use tc_core::recovery::RecoverFault;
use tc_core::state::NewsFault;
use tc_log::read::LogFault;

/// It was done.
pub const DONE: u32 = 0;
/// W1: this engine has no such call, as long as it is what it is.
pub const NO_SUCH_CALL: u32 = 0x5701;
/// W2: a number in the frame is outside of its range.
pub const BAD_FRAME: u32 = 0x5702;
/// W3: a name isn't UTF-8.
pub const NOT_TEXT: u32 = 0x5703;
/// W5: memory ran out.
pub const MEMORY: u32 = 0x5705;
/// W6: there is nothing at this place.
pub const NO_PLACE: u32 = 0x5706;
/// W7: the data component doesn't reply to this wire.
pub const SILENT: u32 = 0x5707;
/// B1: a lock of another transaction stands in the way.
pub const BUSY: u32 = 0x4201;
/// B2: too few request numbers are left.
pub const NUMBERS_SPENT: u32 = 0x4202;
/// B4: there is no such procedure.
pub const NO_PROCEDURE: u32 = 0x4204;
/// B5: it takes another number of arguments.
pub const ARGUMENT_COUNT: u32 = 0x4205;
/// I2: no such transaction is open.
pub const NO_TXN: u32 = 0x4902;
/// I5: it can't end now.
pub const NOT_OVER: u32 = 0x4905;
/// I6: it waits for nothing.
pub const NOTHING_OPEN: u32 = 0x4906;
/// I9: this is no reply to what is waited for.
pub const STRANGER: u32 = 0x4909;
/// I10: there is no such data component.
pub const NO_DC: u32 = 0x490a;
/// I12: the data component has restarted 2^62 times.
pub const INCARNATIONS_SPENT: u32 = 0x490c;
/// I13: the data component is down, so nothing is sent there.
pub const DOWN: u32 = 0x490d;
/// I15: this restart, or a later one, is known.
pub const OLD_NEWS: u32 = 0x490f;
/// I16: the data component isn't down.
pub const NOT_DOWN: u32 = 0x4910;
/// Q3: the news' mark is below the numbers behind which the log begins.
pub const FORGOTTEN: u32 = 0x5103;
/// R1: something has happened here already.
pub const BEGUN: u32 = 0x5201;
/// R2: there isn't one note for each data component.
pub const NOTE_COUNT: u32 = 0x5202;
/// L1: the rows aren't 96 bytes each.
pub const ROW_LENGTH: u32 = 0x4c01;
/// L2: a row is no event's.
pub const NO_EVENT: u32 = 0x4c02;
/// U1: an event may not stand behind the ones before it.
pub const LOG_ILLEGAL: u32 = 0x5501;
/// F1: the frame isn't whole, and what stands there is no end that a crash left.
pub const FILE_DAMAGED: u32 = 0x4601;
/// F2: the file is no log.
pub const FILE_FOREIGN: u32 = 0x4602;
/// F3: the file is the log of other procedures, or of another number of data components.
pub const FILE_OTHERS: u32 = 0x4603;
/// F4: the frame is no part of a base.
pub const FILE_NO_BASE: u32 = 0x4604;
/// F5: the frame is no batch.
pub const FILE_NO_BATCH: u32 = 0x4605;
/// F6: the file has 2^64 - 1 frames.
pub const FILE_FULL: u32 = 0x4606;
/// F7: the file begins with records of data components.
pub const FILE_RECORDS: u32 = 0x4607;
/// F11: the log has a session that stays: its file says it, or wires may have it.
pub const SESSION_STAYS: u32 = 0x460b;
/// P1: the name is taken.
pub const NAME_TAKEN: u32 = 0x5001;
/// P2: a slot names a data component that isn't there.
pub const DC_UNKNOWN: u32 = 0x5002;

/// E1 to E7, or W5, and the slot of the code.
pub fn decode_code(fault: &DecodeFault) -> (u32, u64)
    ensures refused { result.0 ≢ 0 }
    ensures number { result.0 ≡ decode_number fault.now }
    ensures place { result.1 ≡ decode_place fault.now }
{
    match fault {
        DecodeFault::NoCode => (0x4501, 0),
        DecodeFault::Length => (0x4502, 0),
        DecodeFault::TooLong => (0x4503, 0),
        DecodeFault::WideCut(slot) => (0x4504, *slot as u64),
        DecodeFault::UnusedField(slot) => (0x4505, *slot as u64),
        DecodeFault::Undefined(slot) => (0x4506, *slot as u64),
        DecodeFault::OutsideProfile(slot, _) => (0x4507, *slot as u64),
        DecodeFault::Memory => (MEMORY, 0),
    }
}

/// V1 to V14.
pub fn violation_code(violation: Violation) -> u32
    ensures refused { result ≢ 0 }
    ensures number { result ≡ violation_number violation }
{
    match violation {
        Violation::Backward => 0x5601,
        Violation::OutOfCode => 0x5602,
        Violation::IntoWide => 0x5603,
        Violation::FallsOff => 0x5604,
        Violation::EmptyRegister => 0x5605,
        Violation::WritesR10 => 0x5606,
        Violation::NotAPointer => 0x5607,
        Violation::OutOfBounds => 0x5608,
        Violation::ReadOnly => 0x5609,
        Violation::MaybeNull => 0x560a,
        Violation::UnknownHelper => 0x560b,
        Violation::SlotUnknown => 0x560c,
        Violation::ModeTooWeak => 0x560d,
        Violation::PointerReturned => 0x560e,
    }
}

/// S1 to S3, and the slot of the declaration.
pub fn decl_code(fault: DeclFault) -> (u32, u64)
    ensures refused { result.0 ≢ 0 }
    ensures number { result.0 ≡ decl_number fault }
    ensures place { result.1 ≡ decl_place fault }
{
    match fault {
        DeclFault::TooManyArgs => (0x5301, 0),
        DeclFault::TooManySlots => (0x5302, 0),
        DeclFault::NoSuchArg(slot) => (0x5303, slot as u64),
    }
}

/// I10, I15 or Q3.
pub fn news_code(fault: NewsFault) -> u32
    ensures refused { result ≢ 0 }
    ensures number { result ≡ news_number fault }
{
    match fault {
        NewsFault::NoDc => NO_DC,
        NewsFault::OldNews => OLD_NEWS,
        NewsFault::Forgotten => FORGOTTEN,
    }
}

/// G1 to G6.
pub fn checkpoint_code(fault: CheckpointFault) -> u32
    ensures refused { result ≢ 0 }
    ensures number { result ≡ checkpoint_number fault }
{
    match fault {
        CheckpointFault::Nothing => 0x4701,
        CheckpointFault::Open(_) => 0x4702,
        CheckpointFault::DcCount => 0x4703,
        CheckpointFault::Down => 0x4704,
        CheckpointFault::Behind => 0x4705,
        CheckpointFault::Spent => 0x4706,
    }
}

/// L1, L2 or W5, and the row.
pub fn read_code(fault: LogFault) -> (u32, u64)
    ensures refused { result.0 ≢ 0 }
    ensures number { result.0 ≡ read_number fault }
    ensures place { result.1 ≡ read_place fault }
{
    match fault {
        LogFault::Length => (ROW_LENGTH, 0),
        LogFault::Kind(row) => (NO_EVENT, row as u64),
        LogFault::Memory => (MEMORY, 0),
    }
}

/// R1, R2, U1, W5 or Q3, and the place in the log or the data component.
pub fn recover_code(fault: RecoverFault) -> (u32, u64)
    ensures refused { result.0 ≢ 0 }
    ensures number { result.0 ≡ recover_number fault }
    ensures place { result.1 ≡ recover_place fault }
{
    match fault {
        RecoverFault::Begun => (BEGUN, 0),
        RecoverFault::DcCount => (NOTE_COUNT, 0),
        RecoverFault::Unfit(CheckFault::LogIllegal(place)) => (LOG_ILLEGAL, place as u64),
        RecoverFault::Unfit(CheckFault::Memory) => (MEMORY, 0),
        RecoverFault::Forgotten(dc) => (FORGOTTEN, dc as u64),
    }
}

/// F3, F6 or W5.
pub fn ahead_code(fault: AheadFault) -> u32
    ensures refused { result ≢ 0 }
    ensures number { result ≡ ahead_number fault }
{
    match fault {
        AheadFault::Memory => MEMORY,
        AheadFault::Others => FILE_OTHERS,
        AheadFault::Full => FILE_FULL,
    }
}

// F1, F2, F4, F5, L2 or W5, and the frame or the row.
fn open_code(fault: OpenFault) -> (u32, u64)
    ensures refused { result.0 ≢ 0 }
    ensures number { result.0 ≡ open_number fault }
    ensures place { result.1 ≡ open_place fault }
{
    match fault {
        OpenFault::Frames(FrameFault::Damaged(frame)) => (FILE_DAMAGED, frame),
        OpenFault::Frames(FrameFault::Device(_) | FrameFault::Full) => (MEMORY, 0),
        OpenFault::Empty | OpenFault::Other => (FILE_FOREIGN, 0),
        OpenFault::NoBase(frame) => (FILE_NO_BASE, frame as u64),
        OpenFault::NoBatch(frame) => (FILE_NO_BATCH, frame as u64),
        OpenFault::Row(row) => (NO_EVENT, row as u64),
    }
}

/// Those of a file that isn't read, F3 or F7, and the frame or the row.
pub fn back_code(fault: BackFault) -> (u32, u64)
    ensures refused { result.0 ≢ 0 }
    ensures number { result.0 ≡ back_number fault }
    ensures place { result.1 ≡ back_place fault }
{
    match fault {
        BackFault::Unread(fault) => open_code(fault),
        BackFault::Others => (FILE_OTHERS, 0),
        BackFault::Records => (FILE_RECORDS, 0),
    }
}
