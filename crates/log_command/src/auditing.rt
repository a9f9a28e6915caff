//! `log --audit`: whether a file is a log of the procedures of a script, or of an object file with one, and data components
//! that are redone from it agree with it.

ghost use Rattle.std.specs.Prelude.{◌≡◌, ℕ, List, [], length, IfOk, string_bytes};
ghost use Rattle.std.specs.List.{All};
ghost use Rattle.script_loading.specs.Loading.{beginning_of};
ghost use Rattle.scripts.specs.declared.keyword.Command.TheVariants as command;
ghost use Rattle.coming_back.specs.Coming.{HasOnlyRows};
ghost use Rattle.log_file.specs.Stored.{IsStored};
ghost use Rattle.log_command.specs.LogReport.{AreAuditLines, IsUnfit, IsChecked, IsBeside, IsAudit};
ghost use Rattle.log_command.specs.Joining.Beginning.{IsOfLog};

use crate::refusing::{anothers, refused, unbegun, unfit_line, write_unfinished};
use base_records::begin;
use coming_back::{ComeBackFault, bring_back};
use data_component::dc::Dc;
use log_file::{Stored, read_file};
use procedure_digest::header_of_session;
use report_texts::output::Output;
use script_loading::loading::{Loading, Source, load_source};
use scripts::keyword::Command;
use state_lines::audit_lines::write_audit;
use std::alloc::{AllocError, Global};
use tc_core::procs::Procs;
use tc_core::state::TcState;

// Why data components aren't brought to where the log left them.
fn unfit(alloc: Global, fault: &ComeBackFault) -> Result<Output, AllocError>
    requires { IsOfLog fault.now }
    ensures { IfOk result (λ r. IsUnfit fault.now r.status (string_bytes r.lines)) }
{
    Ok(Output {
        status: 1,
        lines: unfit_line(alloc, fault)?,
        notes: None,
    })
}

// What an audit of the log and of these data components finds, and the end that isn't whole.
fn audited(alloc: Global, procs: &Procs, stored: &Stored, dcs: &[Dc]) -> Result<Output, AllocError>
    ensures { IfOk result (λ r. AreAuditLines procs.now.codes stored.now dcs.now r.status (string_bytes r.lines)) }
{
    let mut lines = String::new(alloc);
    let sound = write_audit(alloc, procs, &stored.log, dcs, &mut lines)?;
    write_unfinished(alloc, stored.unfinished, &mut lines)?;
    Ok(Output {
        status: u8::from(!sound),
        lines,
        notes: None,
    })
}

// A log whose header is that of the state's procedures, whichever its session, and the data components that it left: they begin with
// the rows with which it does.
fn checked(
    alloc: Global,
    state: &mut TcState,
    dcs: &mut [Dc],
    stored: &Stored,
) -> Result<Output, AllocError>
    requires begun { state.old.events ≡ [] }
    requires count { length dcs.old ≡ state.old.dcs }
    requires empty { All HasOnlyRows dcs.old }
    ensures { IfOk result (λ r. IsChecked state.old dcs.old stored.now r.status (string_bytes r.lines)) }
{
    if let Some(fault) = begin(dcs, &stored.base, &stored.log)? {
        return unbegun(alloc, fault);
    }
    match bring_back(alloc, state, dcs, &stored.log) {
        Ok(()) => audited(alloc, state.procs(), stored, dcs),
        Err(fault) => unfit(alloc, &fault),
    }
}

// A file that was read beside a state in which the script's procedures are loaded, and its data components.
fn stored_beside(
    alloc: Global,
    state: &mut TcState,
    dcs: &mut [Dc],
    stored: &Stored,
) -> Result<Output, AllocError>
    requires begun { state.old.events ≡ [] }
    requires count { length dcs.old ≡ state.old.dcs }
    requires empty { All HasOnlyRows dcs.old }
    ensures { (file : List ℕ) → IsStored file stored.now → IfOk result (λ r. IsBeside file state.old dcs.old r.status (string_bytes r.lines)) }
{
    let header = header_of_session(alloc, state.procs(), stored.header.session)?;
    if stored.header == header {
        checked(alloc, state, dcs, stored)
    } else {
        anothers(alloc, &stored.header, &header)
    }
}

// The same of its bytes.
fn beside(
    alloc: Global,
    state: &mut TcState,
    dcs: &mut [Dc],
    file: &[u8],
) -> Result<Output, AllocError>
    requires begun { state.old.events ≡ [] }
    requires count { length dcs.old ≡ state.old.dcs }
    requires empty { All HasOnlyRows dcs.old }
    ensures { IfOk result (λ r. IsBeside file.now state.old dcs.old r.status (string_bytes r.lines)) }
{
    match read_file(alloc, file) {
        Ok(stored) => {
            let report = stored_beside(alloc, state, dcs, &stored);
            drop(stored);
            report
        }
        Err(fault) => refused(alloc, fault),
    }
}

/// Whether a file is a log of these procedures, each event allowed behind the ones before it, and what an audit finds of
/// it and of the script's data components, which begin with the rows with which it does, and are redone from it: nothing
/// is sent for transactions that are open.
pub fn auditing(alloc: Global, file: &[u8], source: Source) -> Result<Output, AllocError>
    ensures { IfOk result (λ r. IsAudit file.now (beginning_of command.Run source.entry) r.status (string_bytes r.lines)) }
{
    match load_source(alloc, Command::Run, source)? {
        Loading::Ready(loaded) => {
            let mut loaded = loaded;
            let report = beside(alloc, &mut loaded.state, loaded.dcs.as_mut_slice(), file);
            drop(loaded);
            report
        }
        Loading::Refused(report) => Ok(report),
    }
}
