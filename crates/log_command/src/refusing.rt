//! Why a file isn't read as a log, and why data components aren't brought to where it left them.

ghost use Rattle.std.specs.Prelude.{◌≡◌, Some, IfOk, OnOk, string_bytes};
ghost use Rattle.std.specs.Prelude.{◌++◌};
ghost use Rattle.procedure_digest.specs.Difference.{other_line};
ghost use Rattle.log_command.specs.LogReport.{refusal_line, unfit_line, unfinished_line};
ghost use Rattle.base_records.specs.Lines.{base_fault_line};
ghost use Rattle.log_command.specs.Joining.Beginning.{IsOfLog};

use base_records::{BaseFault, base_fault_line};
use coming_back::ComeBackFault;
use frame_file::FrameFault;
use log_file::{Header, OpenFault};
use procedure_digest::other_line;
use report_texts::output::Output;
use std::alloc::{AllocError, Global};
use tc_core::checking::CheckFault;
use tc_core::recovery::RecoverFault;

// The line of a fault; want of memory has none.
fn refusal_line(alloc: Global, fault: OpenFault) -> Result<String, AllocError>
    ensures { IfOk result (λ line. refusal_line fault ≡ Some (string_bytes line)) }
{
    match fault {
        OpenFault::Frames(FrameFault::Damaged(number)) => {
            format!(in alloc; "refused log Damaged frame {number}\n")
        }
        OpenFault::Frames(_) => Err(AllocError),
        OpenFault::Empty => String::from_str(alloc, "refused log Empty\n"),
        OpenFault::Other => String::from_str(alloc, "refused log Other\n"),
        OpenFault::NoBase(number) => format!(in alloc; "refused log NoBase frame {number}\n"),
        OpenFault::NoBatch(number) => format!(in alloc; "refused log NoBatch frame {number}\n"),
        OpenFault::Row(place) => format!(in alloc; "refused log L2 Kind {place}\n"),
    }
}

/// The report of a file that isn't read.
pub(crate) fn refused(alloc: Global, fault: OpenFault) -> Result<Output, AllocError>
    ensures line { IfOk result (λ r. refusal_line fault ≡ Some (string_bytes r.lines)) }
    ensures status { IfOk result (λ r. r.status ≡ 1) }
{
    Ok(Output::refusal(refusal_line(alloc, fault)?))
}

/// The report of a log that has another header than the script's.
pub(crate) fn anothers(alloc: Global, log: &Header, script: &Header) -> Result<Output, AllocError>
    ensures line { IfOk result (λ r. string_bytes r.lines ≡ other_line log.now script.now) }
    ensures status { IfOk result (λ r. r.status ≡ 1) }
{
    Ok(Output::refusal(other_line(alloc, log, script)?))
}

/// The line that says why data components aren't brought to where the log left them; want of memory has
/// none.
pub(crate) fn unfit_line(alloc: Global, fault: &ComeBackFault) -> Result<String, AllocError>
    requires { IsOfLog fault.now }
    ensures { IfOk result (λ line. unfit_line fault.now ≡ Some (string_bytes line)) }
{
    match fault {
        ComeBackFault::Recover(RecoverFault::Unfit(CheckFault::LogIllegal(place))) => {
            format!(in alloc; "refused U1 LogIllegal place {place}\n")
        }
        ComeBackFault::Recover(RecoverFault::Unfit(CheckFault::Memory)) => Err(AllocError),
        ComeBackFault::Recover(RecoverFault::Begun) => unreachable!(),
        ComeBackFault::Recover(RecoverFault::DcCount) => unreachable!(),
        ComeBackFault::Recover(RecoverFault::Forgotten(dc)) => {
            format!(in alloc; "refused log Forgotten dc {dc}\n")
        }
        ComeBackFault::NoRoom(dc) => format!(in alloc; "refused log NoRoom dc {dc}\n"),
        ComeBackFault::Otherwise(dc) => format!(in alloc; "refused log Otherwise dc {dc}\n"),
        ComeBackFault::Memory => Err(AllocError),
    }
}

/// The report of data components that don't begin with the rows with which the log begins.
pub(crate) fn unbegun(alloc: Global, fault: BaseFault) -> Result<Output, AllocError>
    ensures line { IfOk result (λ r. string_bytes r.lines ≡ base_fault_line fault) }
    ensures status { IfOk result (λ r. r.status ≡ 1) }
{
    Ok(Output::refusal(base_fault_line(alloc, fault)?))
}

/// Adds how many bytes at the end are no whole frame, where there are such.
pub(crate) fn write_unfinished(
    alloc: Global,
    unfinished: usize,
    lines: &mut String,
) -> Result<(), AllocError>
    ensures { OnOk result (string_bytes lines.new ≡ string_bytes lines.old ++ unfinished_line unfinished) }
{
    if unfinished == 0 {
        return Ok(());
    }
    let line = format!(in alloc; "unfinished {unfinished} bytes\n")?;
    lines.push_str(line.as_str())
}
