//! From a script's text to what its steps or calls begin with.

ghost use Rattle.std.specs.Prelude.{◌≡◌, [], ◌∷◌, ◌++◌, length, map, option_map, Some, None, IfOk, IfErr, OnOk, codes, decimal, string_bytes};
ghost use Rattle.std.specs.List.{find};
ghost use Rattle.scripts.specs.Reading.{parsed_of, said_behind, script_said};
ghost use Rattle.report_texts.specs.ScriptRefusal.{script_refusal};
ghost use Rattle.script_loading.specs.Joining.Loads.{IsReadied, IsRefusal};
ghost use Rattle.script_loading.specs.Loading.{place_name, place_behind, unverified_line, unverified, first_unverified, IsUnloaded};
ghost use Rattle.script_loading.specs.Loading.{name_of, with_procedures, empty_core, empty_store, IsLoading, IsLoadingOf};
ghost use Rattle.script_loading.specs.Loading.{reaches_past, unknown_dc_line, fault_or_line, of_both, beginning_of};
ghost use Rattle.script_loading.specs.Loading.{IsAcceptanceBeside, IsAcceptanceOf};

use crate::copies::{code_again, decl_again};
use data_component::dc::Dc;
use object_procedures::given::{Ungiven, given};
use object_procedures::named_place::named_place;
use register_kinds::kind::Violation;
use report_texts::fault_names::violation_name;
use report_texts::output::Output;
use report_texts::script_refusal::refusal;
use scripts::keyword::Command;
use scripts::reading::{Fault, Parsed, parse, parse_behind};
use scripts::script::{self, Call, Procedure, Script, Step};
use std::alloc::{AllocError, Global};
use tc_core::state::TcState;
use verifier::verify::{VerifyFault, verify};

/// A script's text, and an object file whose procedures are there as well, if there is one.
#[derive(Clone, Copy)]
pub struct Source<'a> {
    pub object: Option<&'a [u8]>,
    pub text: &'a str,
}

/// Why procedures aren't loaded: the report of the first that the verifier refuses, or want of memory.
#[derive(Drop)]
pub enum Unloaded {
    Refused(Output),
    Memory,
}

impl From<AllocError> for Unloaded {
    ghost use Rattle.std.specs.Prelude.{◌≡◌};
    ghost use Rattle.script_loading.specs.declared.loading.Unloaded.TheVariants.{Memory};

    ghost from_gives = { λ _ e. e ≡ Memory };

    fn from(_e: AllocError) -> Unloaded {
        Unloaded::Memory
    }
}

/// What a script's steps or calls begin with: its procedures are loaded, its data components are
/// empty, and nothing has happened.
#[derive(Drop)]
pub struct Loaded {
    pub state: TcState,
    pub dcs: Vec<Dc>,
    pub steps: Vec<Step>,
    pub first: Vec<Call>,
    pub calls: Vec<Call>,
}

/// A script that isn't refused, as it was read, with the state that its procedures are loaded in. Of the script further
/// states and data components are made, by [`state_of`] and [`empty_dcs`].
#[derive(Drop)]
pub struct Accepted<'a> {
    pub script: Script<'a>,
    pub state: TcState,
}

/// What a script comes to before it has data components.
#[derive(Drop)]
pub enum Acceptance<'a> {
    Accepted(Accepted<'a>),
    /// As below.
    Refused(Output),
}

/// What a script comes to before its first step or call.
#[derive(Drop)]
pub enum Loading {
    Ready(Loaded),
    /// The line of the first procedure that the verifier refuses, or else of the text's fault.
    Refused(Output),
}

// Where a procedure stands.
fn place_name(alloc: Global, line: Option<usize>, name: &str) -> Result<String, AllocError>
    ensures { IfOk result (λ s. string_bytes s ≡ place_name line name.now) }
{
    match line {
        Some(line) => format!(in alloc; "line {line}"),
        None => format!(in alloc; "object {name}"),
    }
}

// The line of the source that a slot of a procedure comes from, where the procedure stands at no line of the text and
// the object file says it.
fn place_behind(
    alloc: Global,
    object: Option<&[u8]>,
    line: Option<usize>,
    name: &str,
    slot: usize,
) -> Result<String, AllocError>
    ensures { IfOk result (λ s. string_bytes s ≡ place_behind (option_map (λ file. file.now) object.entry) line name.now slot) }
{
    match (object, line) {
        (Some(file), None) => named_place(alloc, file, name, slot),
        _ => Ok(String::new(alloc)),
    }
}

// The report of a procedure of this name, which the verifier refuses at a slot.
fn unverified_report(
    alloc: Global,
    object: Option<&[u8]>,
    line: Option<usize>,
    name: &str,
    slot: usize,
    violation: Violation,
) -> Result<Output, AllocError>
    ensures lines { IfOk result (λ r. string_bytes r.lines
        ≡ unverified_line (option_map (λ file. file.now) object.entry) line name.now slot violation) }
    ensures status { IfOk result (λ r. r.status ≡ 1) }
{
    let place = place_name(alloc, line, name)?;
    let behind = place_behind(alloc, object, line, name, slot)?;
    let violation = violation_name(violation);
    Ok(Output {
        status: 1,
        lines: format!(in alloc; "refused {place} F7 Verify {violation} slot {slot}{behind}\n")?,
        notes: None,
    })
}

// Verifies one procedure more, and loads it.
fn load_one(
    alloc: Global,
    object: Option<&[u8]>,
    state: &mut TcState,
    procedure: &Procedure,
) -> Result<(), Unloaded>
    ensures verified { OnOk result (unverified (option_map (λ file. file.now) object.entry) procedure.now ≡ None) }
    ensures ok { OnOk result (state.new ≡ with_procedures state.old (procedure.now ∷ [])) }
    ensures err { IfErr result (IsUnloaded (unverified (option_map (λ file. file.now) object.entry) procedure.now)) }
{
    let name = procedure.name.as_str();
    let decl = decl_again(&procedure.decl);
    let code = code_again(alloc, &procedure.code)?;
    match verify(alloc, code, decl) {
        Ok(verified) => match state.load(name, verified) {
            Ok(_) => Ok(()),
            Err(_) => Err(Unloaded::Memory),
        },
        Err(VerifyFault::At(slot, violation)) => {
            let line = procedure.line;
            let report = unverified_report(alloc, object, line, name, slot, violation)?;
            Err(Unloaded::Refused(report))
        }
        Err(VerifyFault::Memory) => Err(Unloaded::Memory),
    }
}

// Loads the procedures in their order, up to the first that the verifier refuses.
fn load_all(
    alloc: Global,
    object: Option<&[u8]>,
    state: &mut TcState,
    procedures: &[Procedure],
) -> Result<(), Unloaded>
    ensures verified { OnOk result (first_unverified (option_map (λ file. file.now) object.entry) procedures.now ≡ None) }
    ensures ok { OnOk result (state.new ≡ with_procedures state.old procedures.now) }
    ensures err { IfErr result (IsUnloaded (first_unverified (option_map (λ file. file.now) object.entry) procedures.now)) }
{
    'procedures: for procedure in procedures {
        load_one(alloc, object, state, procedure)?;
    }
    Ok(())
}

/// The state of so many data components with copies of these procedures, perhaps of an object file, where nothing has
/// happened, or the report of the first that the verifier refuses.
pub fn state_of(
    alloc: Global,
    object: Option<&[u8]>,
    dcs: usize,
    procedures: &[Procedure],
) -> Result<TcState, Unloaded>
    ensures verified { OnOk result (first_unverified (option_map (λ file. file.now) object.entry) procedures.now ≡ None) }
    ensures ok { IfOk result (λ s. s ≡ with_procedures (empty_core dcs) procedures.now) }
    ensures err { IfErr result (IsUnloaded (first_unverified (option_map (λ file. file.now) object.entry) procedures.now)) }
{
    let Ok(dcs) = u16::try_from(dcs) else {
        return Err(Unloaded::Memory);
    };
    let mut state = TcState::new(alloc, dcs)?;
    match load_all(alloc, object, &mut state, procedures) {
        Ok(()) => Ok(state),
        Err(unloaded) => {
            drop(state);
            Err(unloaded)
        }
    }
}

/// The data components, empty.
pub fn empty_dcs(alloc: Global, dcs: &[script::Dc]) -> Result<Vec<Dc>, AllocError>
    ensures { IfOk result (λ made. made.items ≡ map empty_store dcs.now) }
{
    let mut made = Vec::with_capacity(alloc, dcs.len())?;
    for dc in dcs {
        made.push(Dc::new(alloc, dc.rows, dc.ops)?)?;
    }
    Ok(made)
}

// Nothing is loaded, since the text has this fault.
fn refused_text<'a>(alloc: Global, fault: Fault) -> Result<Acceptance<'a>, AllocError>
    ensures { IfOk result (IsRefusal (script_refusal fault)) }
{
    Ok(Acceptance::Refused(refusal(alloc, fault)?))
}

// Verifies and loads what was read, perhaps behind the procedures of an object file.
fn accept_read<'a>(
    alloc: Global,
    object: Option<&[u8]>,
    parsed: Parsed<'a>,
) -> Result<Acceptance<'a>, AllocError>
    ensures { IfOk result (IsAcceptanceBeside (option_map (λ file. file.now) object.entry) (parsed_of parsed.entry)) }
{
    let Parsed { script, fault } = parsed;
    match state_of(
        alloc,
        object,
        script.dcs.len(),
        script.procedures.as_slice(),
    ) {
        Ok(state) => match fault {
            None => Ok(Acceptance::Accepted(Accepted { script, state })),
            Some(fault) => {
                drop(state);
                drop(script);
                refused_text(alloc, fault)
            }
        },
        Err(Unloaded::Refused(report)) => Ok(Acceptance::Refused(report)),
        Err(Unloaded::Memory) => Err(AllocError),
    }
}

// Whether a slot of the procedure is of a data component that there isn't.
fn reaches_past(dcs: usize, procedure: &Procedure) -> bool
    ensures { result ≡ reaches_past dcs procedure.now }
{
    procedure
        .decl
        .slots()
        .iter()
        .any(|slot| usize::from(slot.dc) >= dcs)
}

// The name of the first procedure with such a slot.
fn first_past<'a>(dcs: usize, procedures: &[Procedure<'a>]) -> Option<&'a str>
    ensures { option_map (λ name. name.now) result ≡ option_map name_of (find (reaches_past dcs) procedures.now) }
{
    'procedures: for procedure in procedures {
        if reaches_past(dcs, procedure) {
            return Some(procedure.name.as_str());
        }
    }
    None
}

// Nothing is loaded: the text has this fault, or else the procedure of this name of the object file such a slot.
fn refused_access<'a>(
    alloc: Global,
    fault: Option<Fault>,
    name: &str,
) -> Result<Acceptance<'a>, AllocError>
    ensures { IfOk result (IsRefusal (fault_or_line fault (unknown_dc_line name.now))) }
{
    match fault {
        Some(fault) => refused_text(alloc, fault),
        None => Ok(Acceptance::Refused(Output {
            status: 1,
            lines: format!(in alloc; "refused object {name} F8 DcUnknown\n")?,
            notes: None,
        })),
    }
}

// Reads, verifies and loads a script with these procedures of an object file.
fn accept_behind<'a>(
    alloc: Global,
    command: Command,
    object: &'a [u8],
    given: Vec<Procedure<'a>>,
    text: &'a str,
) -> Result<Acceptance<'a>, AllocError>
    ensures { IfOk result (IsAcceptanceOf (Some object.now) (of_both object.now (said_behind command given.entry.items text.now))) }
{
    let parsed = parse_behind(alloc, command, given, text)?;
    let dcs = parsed.script.dcs.len();
    match first_past(dcs, parsed.script.procedures.as_slice()) {
        Some(name) => refused_access(alloc, parsed.fault, name),
        None => accept_read(alloc, Some(object), parsed),
    }
}

/// Reads a text as a script of this command, and verifies and loads its procedures. It may come with an object file, whose
/// procedures are then there as if they stood behind the script's data components. Refused with the object file's fault;
/// else, where a procedure has a slot of a data component that there isn't, with the script's own fault or with that; else
/// as a script is, with the line of C behind a slot of the object file's where that says it.
pub fn accept_source<'a>(
    alloc: Global,
    command: Command,
    source: Source<'a>,
) -> Result<Acceptance<'a>, AllocError>
    ensures { IfOk result (IsAcceptanceOf (option_map (λ file. file.now) source.entry.object) (beginning_of command source.entry)) }
{
    let Some(file) = source.object else {
        return accept_read(alloc, None, parse(alloc, command, source.text)?);
    };
    match given(alloc, file) {
        Ok(given) => accept_behind(alloc, command, file, given, source.text),
        Err(Ungiven::Refused(report)) => Ok(Acceptance::Refused(report)),
        Err(Ungiven::Memory) => Err(AllocError),
    }
}

// What the steps and calls begin with.
fn ready(alloc: Global, accepted: Accepted) -> Result<Loading, AllocError>
    ensures { IfOk result (IsReadied accepted.entry) }
{
    let Accepted { script, state } = accepted;
    let Script {
        dcs,
        procedures: _,
        steps,
        first,
        calls,
    } = script;
    match empty_dcs(alloc, dcs.as_slice()) {
        Ok(dcs) => Ok(Loading::Ready(Loaded {
            state,
            dcs,
            steps,
            first,
            calls,
        })),
        Err(AllocError) => {
            drop(state);
            Err(AllocError)
        }
    }
}

/// The same, and makes the data components.
pub fn load_source(alloc: Global, command: Command, source: Source) -> Result<Loading, AllocError>
    ensures { IfOk result (IsLoadingOf (beginning_of command source.entry)) }
{
    match accept_source(alloc, command, source)? {
        Acceptance::Accepted(accepted) => ready(alloc, accepted),
        Acceptance::Refused(report) => Ok(Loading::Refused(report)),
    }
}

/// The same of a script with no object file.
pub fn load(alloc: Global, command: Command, text: &str) -> Result<Loading, AllocError>
    ensures { IfOk result (IsLoading (script_said command text.now)) }
{
    load_source(alloc, command, Source { object: None, text })
}
