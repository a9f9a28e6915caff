//! `world`: a script's steps, a line for each, and then what the data components keep.

ghost use Rattle.std.specs.Prelude.{◌≡◌, ◌++◌, [], IfOk, OnOk, string_bytes};
ghost use Rattle.scripts.specs.Reading.{Contents};
ghost use Rattle.scripts.specs.declared.keyword.Command.TheVariants as command;
ghost use Rattle.script_loading.specs.Loading.{IsReady, beginning_of};
ghost use Rattle.state_lines.specs.AuditLines.{AddsIf, AddsStateAudit};
ghost use Rattle.world_command.specs.WorldReport.{logged, IsLeft, IsStepped, IsWorld};

use crate::stepping::{take_steps, write_log};
use data_component::dc::Dc;
use report_texts::output::Output;
use script_loading::loading::{Loaded, Loading, Source, load_source};
use scripts::keyword::Command;
use state_lines::audit_lines::write_state_audit;
use state_lines::row_lines::write_all_rows;
use std::alloc::{AllocError, Global};
use tc_core::state::TcState;
use tc_log::log::Log;
use tc_world::world::World;

/// What is printed behind the rows: the line of an audit, and each event of the log.
#[derive(Clone, Copy, Debug)]
pub struct Behind {
    pub audit: bool,
    pub log: bool,
}

// Adds the line of an audit, where one is wanted, and answers whether nothing is wrong.
fn write_found(
    alloc: Global,
    with_audit: bool,
    state: &TcState,
    dcs: &[Dc],
    lines: &mut String,
) -> Result<bool, AllocError>
    ensures { IfOk result (λ sound. AddsIf with_audit (string_bytes lines.old) (string_bytes lines.new) sound
        (AddsStateAudit state.now.sites state.now.procs state.now.events dcs.now (string_bytes lines.old) (string_bytes lines.new) sound)) }
{
    if !with_audit {
        return Ok(true);
    }
    write_state_audit(alloc, state, dcs, lines)
}

// Adds a line for each event, where they are wanted.
fn write_events(
    alloc: Global,
    with_log: bool,
    log: &Log,
    lines: &mut String,
) -> Result<(), AllocError>
    ensures { OnOk result (string_bytes lines.new ≡ string_bytes lines.old ++ logged with_log log.now.events) }
{
    if !with_log {
        return Ok(());
    }
    let bytes = log.print(alloc)?;
    write_log(bytes.as_slice(), lines)
}

// The lines of the steps, and behind them those of what is left.
fn report_of(
    alloc: Global,
    behind: Behind,
    all: bool,
    state: &TcState,
    dcs: &[Dc],
    mut lines: String,
) -> Result<Output, AllocError>
    ensures { IfOk result (λ r. IsLeft state.now dcs.now behind all (string_bytes lines) r.status (string_bytes r.lines)) }
{
    write_all_rows(alloc, dcs, &mut lines)?;
    let sound = write_found(alloc, behind.audit, state, dcs, &mut lines)?;
    write_events(alloc, behind.log, state.log(), &mut lines)?;
    Ok(Output {
        status: u8::from(!(all && sound)),
        lines,
        notes: None,
    })
}

// Takes the steps, and says what they did and what is left.
fn stepped(alloc: Global, behind: Behind, loaded: Loaded) -> Result<Output, AllocError>
    requires { loaded.state.events ≡ [] }
    ensures { IfOk result (λ r. (contents : Contents) → IsReady contents loaded
        → IsStepped contents behind r.status (string_bytes r.lines)) }
{
    let Loaded {
        state,
        dcs,
        steps,
        first: _,
        calls: _,
    } = loaded;
    let mut world = World::new(alloc, state, dcs);
    let mut lines = String::new(alloc);
    let taken = take_steps(alloc, &mut world, steps.as_slice(), &mut lines);
    let (state, dcs) = world.close();
    let report = match taken {
        Ok(all) => report_of(alloc, behind, all, &state, dcs.as_slice(), lines),
        Err(AllocError) => Err(AllocError),
    };
    drop(state);
    report
}

/// Takes the steps of a script one after another, also behind one that isn't possible: a line for
/// each, then a line for each record that is kept, and then what is wanted behind these.
pub fn world(alloc: Global, behind: Behind, source: Source) -> Result<Output, AllocError>
    ensures { IfOk result (λ r. IsWorld behind (beginning_of command.World source.entry) r.status (string_bytes r.lines)) }
{
    match load_source(alloc, Command::World, source)? {
        Loading::Ready(loaded) => stepped(alloc, behind, loaded),
        Loading::Refused(report) => Ok(report),
    }
}
