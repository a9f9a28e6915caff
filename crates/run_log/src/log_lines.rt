//! The lines that say how a run goes on from a log's file, and why it doesn't.

ghost use Rattle.std.specs.Prelude.{◌≡◌, ◌++◌, IfOk, OnOk, option_map, string_bytes};
ghost use Rattle.run_log.specs.LogLines.{others_line, open_refusal, IsOtherRefusal, overfull_refusal, kind_word, kind_refusal, back_refusal};
ghost use Rattle.run_log.specs.LogLines.{recovered_line, dropped_line, resumed_line, resumed_lines, back_lines};

use coming_back::{ComeBackFault, Resumed};
use disk_file::FileKind;
use frame_file::FrameFault;
use log_file::{Header, OpenFault, read_file};
use procedure_digest::{is_same_but_digest, other_line};
use state_lines::operation_texts::outcome_text;
use std::alloc::{AllocError, Global};
use tc_core::checking::CheckFault;
use tc_core::recovery::RecoverFault;

// The line of a log of others. Where their procedures alone differ, it says what lets others go on from it.
fn others_line(alloc: Global, log: &Header, script: &Header) -> Result<String, AllocError>
    ensures { IfOk result (λ line. string_bytes line ≡ others_line log.now script.now) }
{
    if is_same_but_digest(log, script) {
        return String::from_str(
            alloc,
            "refused log Other digest: checkpoint it with its own procedures first\n",
        );
    }
    other_line(alloc, log, script)
}

/// The line that refuses a file that is no log of the script with this header: in what the log's header
/// differs, where the file is a log.
pub fn other_refusal(alloc: Global, header: &Header, file: &[u8]) -> Result<String, AllocError>
    ensures { IfOk result (λ line. IsOtherRefusal header.now file.now (string_bytes line)) }
{
    match read_file(alloc, file) {
        Ok(stored) => others_line(alloc, &stored.header, header),
        Err(_) => String::from_str(alloc, "refused log Other\n"),
    }
}

/// The line that says why a log's file isn't read. There is none of what is no log of the script, whose line is
/// [`other_refusal`]'s, nor where the disk failed or memory ran out.
pub fn open_refusal(alloc: Global, fault: &OpenFault) -> Result<Option<String>, AllocError>
    ensures { IfOk result (λ line. option_map string_bytes line ≡ open_refusal fault.now) }
{
    Ok(match fault {
        OpenFault::Frames(FrameFault::Device(_)) | OpenFault::Other => None,
        OpenFault::Frames(FrameFault::Full) => {
            Some(String::from_str(alloc, "refused log Full\n")?)
        }
        OpenFault::Frames(FrameFault::Damaged(number)) => {
            Some(format!(in alloc; "refused log Damaged frame {number}\n")?)
        }
        OpenFault::Empty => Some(String::from_str(alloc, "refused log Empty\n")?),
        OpenFault::NoBase(number) => {
            Some(format!(in alloc; "refused log NoBase frame {number}\n")?)
        }
        OpenFault::NoBatch(number) => {
            Some(format!(in alloc; "refused log NoBatch frame {number}\n")?)
        }
        OpenFault::Row(place) => Some(format!(in alloc; "refused log L2 Kind {place}\n")?),
    })
}

fn kind_word(kind: FileKind) -> &'static str
    ensures { result.now ≡ kind_word kind }
{
    match kind {
        FileKind::Directory => "directory",
        FileKind::Fifo => "fifo",
        FileKind::Socket => "socket",
        FileKind::CharacterDevice => "character device",
        FileKind::BlockDevice => "block device",
        FileKind::Unknown => "unknown",
    }
}

/// The line that says what stands in the place of a log's file.
pub fn kind_refusal(alloc: Global, kind: FileKind) -> Result<String, AllocError>
    ensures { IfOk result (λ line. string_bytes line ≡ kind_refusal kind) }
{
    let word = kind_word(kind);
    format!(in alloc; "refused log NotAFile {word}\n")
}

/// The line that says why nothing goes on from a log. There is none where memory ran out.
pub fn back_refusal(alloc: Global, fault: &ComeBackFault) -> Result<Option<String>, AllocError>
    ensures { IfOk result (λ line. option_map string_bytes line ≡ back_refusal fault.now) }
{
    Ok(match fault {
        ComeBackFault::Recover(RecoverFault::Unfit(CheckFault::LogIllegal(place))) => {
            Some(format!(in alloc; "refused log U1 LogIllegal place {place}\n")?)
        }
        ComeBackFault::Recover(RecoverFault::Unfit(CheckFault::Memory)) => None,
        ComeBackFault::Recover(RecoverFault::Begun) => {
            Some(String::from_str(alloc, "refused log Begun\n")?)
        }
        ComeBackFault::Recover(RecoverFault::DcCount) => {
            Some(String::from_str(alloc, "refused log DcCount\n")?)
        }
        ComeBackFault::Recover(RecoverFault::Forgotten(dc)) => {
            Some(format!(in alloc; "refused log Forgotten dc {dc}\n")?)
        }
        ComeBackFault::NoRoom(dc) => Some(format!(in alloc; "refused log NoRoom dc {dc}\n")?),
        ComeBackFault::Otherwise(dc) => {
            Some(format!(in alloc; "refused log Otherwise dc {dc}\n")?)
        }
        ComeBackFault::Memory => None,
    })
}

/// The line that refuses a log that leaves this data component with more records than it has room for.
pub fn overfull_refusal(alloc: Global, dc: usize) -> Result<String, AllocError>
    ensures { IfOk result (λ line. string_bytes line ≡ overfull_refusal dc) }
{
    format!(in alloc; "refused log NoRoom dc {dc}\n")
}

// What came of a transaction that was open.
fn resumed_line(alloc: Global, resumed: &Resumed) -> Result<String, AllocError>
    ensures { IfOk result (λ s. string_bytes s ≡ resumed_line resumed.now) }
{
    match resumed {
        Resumed::Ended(receipt) => {
            let txn = receipt.txn;
            let place = receipt.place;
            let outcome = outcome_text(alloc, receipt.outcome)?;
            format!(in alloc; "resumed {txn} {outcome} at {place}\n")
        }
        Resumed::InDoubt { txn, number } => {
            format!(in alloc; "resumed {txn} in doubt {number}\n")
        }
    }
}

// Adds a line for each of them.
fn write_resumed(alloc: Global, resumed: &[Resumed], lines: &mut String) -> Result<(), AllocError>
    ensures { OnOk result (string_bytes lines.new ≡ string_bytes lines.old ++ resumed_lines resumed.now) }
{
    for one in resumed {
        let line = resumed_line(alloc, one)?;
        lines.push_str(line.as_str())?;
    }
    Ok(())
}

fn recovered_line(alloc: Global, events: usize, left: usize) -> Result<String, AllocError>
    ensures { IfOk result (λ s. string_bytes s ≡ recovered_line events left) }
{
    if events == 0 {
        return Ok(String::new(alloc));
    }
    format!(in alloc; "recovered {events} events, {left} open\n")
}

fn dropped_line(alloc: Global, bytes: usize, path: &str) -> Result<String, AllocError>
    ensures { IfOk result (λ s. string_bytes s ≡ dropped_line bytes path.now) }
{
    if bytes == 0 {
        return Ok(String::new(alloc));
    }
    format!(in alloc; "dropped {bytes} bytes to {path}.dropped\n")
}

/// The lines of a log that is gone on from: how many events it has, if any, how many bytes at the end of its
/// file, which has this path, were cut off, if any, and where they are, and what came of each transaction that
/// was open.
pub fn back_lines(
    alloc: Global,
    events: usize,
    dropped: usize,
    path: &str,
    resumed: &[Resumed],
) -> Result<String, AllocError>
    ensures { IfOk result (λ s. string_bytes s ≡ back_lines events dropped path.now resumed.now) }
{
    let mut lines = recovered_line(alloc, events, resumed.len())?;
    let dropped = dropped_line(alloc, dropped, path)?;
    lines.push_str(dropped.as_str())?;
    write_resumed(alloc, resumed, &mut lines)?;
    Ok(lines)
}
