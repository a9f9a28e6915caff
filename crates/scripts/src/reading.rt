//! A script's text read line by line, up to its first fault.

ghost use Rattle.std.specs.Prelude.{◌≡◌, [], ◌∷◌, ◌++◌, false, map, length, IfOk, IfErr, OnOk, OnErr, Ok};
ghost use Rattle.std.specs.Str.Lines.{lines};
ghost use Rattle.scripts.specs.Numbers.{IsStop};
ghost use Rattle.scripts.specs.Reading.{no_lines, parsed_of, read_from, said_behind, script_said, names_given, is_taken, may_go_on};
ghost use Rattle.scripts.specs.Reading.{has_no_further, call_of, next, stopped, taken};
ghost use Rattle.scripts.specs.Reading.{dc_added, proc_added, slot_declared, insn_written, procedure_ended};
ghost use Rattle.scripts.specs.Reading.{step_added, first_added, call_added, end_fault};

use crate::fault::{LineError, ScriptFault};
use crate::keyword::Command;
use crate::line::Line;
use crate::name::Name;
use crate::open::Open;
use crate::script::{Call, Dc, MOST_DCS, Procedure, Script, Step};
use access_slots::slot::Slot;
use bpf_encoding::insn::Insn;
use indexmap::IndexSet;
use std::alloc::{AllocError, Global};
use std::marker::Model;
use tc_log::event::Args;

/// A script's first fault.
#[derive(Clone, Copy, Debug, PartialEq, Eq)]
pub struct Fault {
    /// Its line, from 1; for what only the script's end shows, the last line, 0 where there is
    /// none.
    pub line: usize,
    pub fault: ScriptFault,
}

/// What a text says as a script: what stands before its first fault, and the fault.
#[derive(Drop)]
pub struct Parsed<'a> {
    pub script: Script<'a>,
    pub fault: Option<Fault>,
}

// What was read so far; contracts see a `State`.
#[derive(Drop)]
struct Reading<'a> {
    alloc: Global,
    script: Script<'a>,
    // Of the procedures so far, and of the open one.
    names: IndexSet<&'a str>,
    // How many of them were there to begin with.
    given: usize,
    current: Option<Open<'a>>,
}

impl<'a> Model for Reading<'a> {
    ghost use Rattle.std.specs.Prelude.{map};
    ghost use Rattle.scripts.specs.Reading.{State, contents_of};

    ghost Value = { State };

    ghost view = { λ r. record { contents = contents_of r.script; names = map (λ k. k.now) r.names.keys; given = r.given; current = r.current } };
}

// A name more, which isn't taken.
fn take_name<'a>(names: &mut IndexSet<&'a str>, name: &Name<'a>) -> Result<(), LineError>
    requires { is_taken (map (λ k. k.now) names.old.keys) name.now ≡ false }
    ensures ok { OnOk result (map (λ k. k.now) names.new.keys ≡ map (λ k. k.now) names.old.keys ++ name.now ∷ []) }
    ensures err { IfErr result (λ e. e ≡ LineError.Memory) }
{
    names.insert(name.as_str())?;
    Ok(())
}

// Whether there is a procedure of this name.
fn is_taken<'a>(names: &IndexSet<&'a str>, name: &Name<'a>) -> bool
    ensures { result ≡ is_taken (map (λ k. k.now) names.now.keys) name.now }
{
    names.contains(name.as_str())
}

// The names of procedures, no two of which are one.
fn names_given<'a>(alloc: Global, given: &[Procedure<'a>]) -> Result<IndexSet<&'a str>, LineError>
    ensures ok { IfOk result (λ names. names_given [] given.now ≡ Ok (map (λ k. k.now) names.keys)) }
    ensures err { IfErr result (IsStop (names_given [] given.now)) }
{
    let mut names = IndexSet::new(alloc);
    'given: for procedure in given {
        if is_taken(&names, &procedure.name) {
            return Err(LineError::Fault(ScriptFault::NameTaken));
        }
        take_name(&mut names, &procedure.name)?;
    }
    Ok(names)
}

impl<'a> Reading<'a> {
    fn new(alloc: Global, given: Vec<Procedure<'a>>, names: IndexSet<&'a str>) -> Reading<'a>
        ensures { result ≡ no_lines given.entry.items (map (λ k. k.now) names.entry.keys) }
    {
        let count = names.len();
        Reading {
            alloc,
            script: Script {
                dcs: Vec::new(alloc),
                procedures: given,
                steps: Vec::new(alloc),
                first: Vec::new(alloc),
                calls: Vec::new(alloc),
            },
            names,
            given: count,
            current: None,
        }
    }

    fn is_taken(&self, name: &Name<'a>) -> bool
        ensures { result ≡ is_taken self.now.names name.now }
    {
        is_taken(&self.names, name)
    }

    // Whether no line of the last part was read.
    fn has_no_further(&self) -> bool
        ensures { result ≡ has_no_further self.now.contents }
    {
        self.script.steps.is_empty() && self.script.first.is_empty() && self.script.calls.is_empty()
    }

    // Whether a line of the last part may stand here.
    fn may_go_on(&self) -> bool
        ensures { result ≡ may_go_on self.now }
    {
        self.current.is_none() && !self.script.dcs.is_empty()
    }

    fn add_dc(&mut self, dc: Dc) -> Result<(), LineError>
        ensures ok { OnOk result (dc_added self.old dc ≡ Ok self.new) }
        ensures err { IfErr result (IsStop (dc_added self.old dc)) }
        ensures kept { OnErr result (self.new.contents ≡ self.old.contents) }
    {
        let is_first = self.current.is_none()
            && self.names.len() == self.given
            && self.has_no_further();
        if !is_first || self.script.dcs.len() >= MOST_DCS {
            return Err(LineError::Fault(ScriptFault::Order));
        }
        self.script.dcs.push(dc)?;
        Ok(())
    }

    fn begin(&mut self, name: Name<'a>, args: u8) -> Result<(), LineError>
        ensures ok { OnOk result (proc_added self.old name.entry args ≡ Ok self.new) }
        ensures err { IfErr result (IsStop (proc_added self.old name.entry args)) }
        ensures kept { OnErr result (self.new.contents ≡ self.old.contents) }
    {
        if self.is_taken(&name) {
            return Err(LineError::Fault(ScriptFault::NameTaken));
        }
        if !self.may_go_on() || !self.has_no_further() {
            return Err(LineError::Fault(ScriptFault::Order));
        }
        take_name(&mut self.names, &name)?;
        self.current = Some(Open::new(self.alloc, name, args));
        Ok(())
    }

    fn declare(&mut self, slot: Slot) -> Result<(), LineError>
        ensures ok { OnOk result (slot_declared self.old slot ≡ Ok self.new) }
        ensures err { IfErr result (IsStop (slot_declared self.old slot)) }
        ensures kept { OnErr result (self.new.contents ≡ self.old.contents) }
    {
        if usize::from(slot.dc) >= self.script.dcs.len() {
            return Err(LineError::Fault(ScriptFault::DcUnknown));
        }
        match &mut self.current {
            Some(open) => open.declare(slot),
            None => Err(LineError::Fault(ScriptFault::Order)),
        }
    }

    fn add_insn(&mut self, insn: Insn) -> Result<(), LineError>
        ensures ok { OnOk result (insn_written self.old insn ≡ Ok self.new) }
        ensures err { IfErr result (IsStop (insn_written self.old insn)) }
        ensures kept { OnErr result (self.new.contents ≡ self.old.contents) }
    {
        match &mut self.current {
            Some(open) => open.add(insn),
            None => Err(LineError::Fault(ScriptFault::Order)),
        }
    }

    fn end(&mut self, line: usize) -> Result<(), LineError>
        ensures ok { OnOk result (procedure_ended self.old line ≡ Ok self.new) }
        ensures err { IfErr result (IsStop (procedure_ended self.old line)) }
        ensures kept { OnErr result (self.new.contents ≡ self.old.contents) }
    {
        let Some(open) = self.current.take() else {
            return Err(LineError::Fault(ScriptFault::Order));
        };
        self.script.procedures.push(open.finish(line)?)?;
        Ok(())
    }

    // The call of the procedure of this name.
    fn call_of(&self, name: &Name<'a>, args: Args) -> Result<Call, ScriptFault>
        ensures { result ≡ call_of self.now name.now args }
    {
        match self.names.get_index_of(name.as_str()) {
            Some(procedure) => Ok(Call { procedure, args }),
            None => Err(ScriptFault::NameUnknown),
        }
    }

    fn add_step(&mut self, step: Step) -> Result<(), LineError>
        ensures ok { OnOk result (step_added self.old step ≡ Ok self.new) }
        ensures err { IfErr result (IsStop (step_added self.old step)) }
        ensures kept { OnErr result (self.new.contents ≡ self.old.contents) }
    {
        if !self.may_go_on() {
            return Err(LineError::Fault(ScriptFault::Order));
        }
        self.script.steps.push(step)?;
        Ok(())
    }

    fn add_first(&mut self, call: Call) -> Result<(), LineError>
        ensures ok { OnOk result (first_added self.old call ≡ Ok self.new) }
        ensures err { IfErr result (IsStop (first_added self.old call)) }
        ensures kept { OnErr result (self.new.contents ≡ self.old.contents) }
    {
        if !self.may_go_on() || !self.script.calls.is_empty() {
            return Err(LineError::Fault(ScriptFault::Order));
        }
        self.script.first.push(call)?;
        Ok(())
    }

    fn add_call(&mut self, call: Call) -> Result<(), LineError>
        ensures ok { OnOk result (call_added self.old call ≡ Ok self.new) }
        ensures err { IfErr result (IsStop (call_added self.old call)) }
        ensures kept { OnErr result (self.new.contents ≡ self.old.contents) }
    {
        if !self.may_go_on() {
            return Err(LineError::Fault(ScriptFault::Order));
        }
        self.script.calls.push(call)?;
        Ok(())
    }

    // What the line of this number adds.
    fn add(&mut self, number: usize, line: Line<'a>) -> Result<(), LineError>
        ensures ok { OnOk result (next self.old number line.entry ≡ Ok self.new) }
        ensures err { IfErr result (IsStop (next self.old number line.entry)) }
        ensures kept { OnErr result (self.new.contents ≡ self.old.contents) }
    {
        match line {
            Line::Nothing => Ok(()),
            Line::Dc(dc) => self.add_dc(dc),
            Line::Proc(name, args) => self.begin(name, args),
            Line::Slot(slot) => self.declare(slot),
            Line::Insn(insn) => self.add_insn(insn),
            Line::End => self.end(number),
            Line::Step(step) => self.add_step(step),
            Line::Admit(name, args) => {
                let call = self.call_of(&name, args)?;
                self.add_step(Step::Admit(call))
            }
            Line::First(name, args) => {
                let call = self.call_of(&name, args)?;
                self.add_first(call)
            }
            Line::Call(name, args) => {
                let call = self.call_of(&name, args)?;
                self.add_call(call)
            }
        }
    }

    // Takes the line of this number.
    fn take(&mut self, command: Command, number: usize, text: &'a [u8]) -> Result<(), LineError>
        ensures ok { OnOk result (taken command self.old number text.entry.now ≡ Ok self.new) }
        ensures err { IfErr result (IsStop (taken command self.old number text.entry.now)) }
        ensures kept { OnErr result (self.new.contents ≡ self.old.contents) }
    {
        let line = Line::parse(self.alloc, command, self.current.is_some(), text)?;
        self.add(number, line)
    }

    // What is missing where the script ends.
    fn end_fault(&self) -> Option<ScriptFault>
        ensures { result ≡ end_fault self.now }
    {
        if self.current.is_some() {
            Some(ScriptFault::BadLine)
        } else if self.script.dcs.is_empty() {
            Some(ScriptFault::Order)
        } else {
            None
        }
    }

    // All that stands before a fault at this line, or all.
    fn parsed(self, line: usize, fault: Option<ScriptFault>) -> Parsed<'a>
        ensures { parsed_of result ≡ stopped self.entry.contents line fault }
    {
        Parsed {
            script: self.script,
            fault: fault.map(|fault| Fault { line, fault }),
        }
    }
}

// All lines of a text, up to its first fault.
fn read_lines<'a>(
    mut reading: Reading<'a>,
    command: Command,
    text: &'a str,
) -> Result<Parsed<'a>, AllocError>
    ensures { IfOk result (λ p. parsed_of p ≡ read_from command 0 reading.entry (lines text.entry.now)) }
{
    let mut number = 0;
    'lines: for line in text.lines() {
        number += 1;
        match reading.take(command, number, line.as_bytes()) {
            Ok(()) => {}
            Err(LineError::Fault(fault)) => return Ok(reading.parsed(number, Some(fault))),
            Err(LineError::Memory) => return Err(AllocError),
        }
    }
    let fault = reading.end_fault();
    Ok(reading.parsed(number, fault))
}

/// What a text says as a script of this command, where these procedures are there to begin with: as if they stood
/// behind its `dc` lines, but that nobody looks whether their slots are of its data components. Where two of them
/// have one name, that is the fault, of line 0.
pub fn parse_behind<'a>(
    alloc: Global,
    command: Command,
    given: Vec<Procedure<'a>>,
    text: &'a str,
) -> Result<Parsed<'a>, AllocError>
    ensures { IfOk result (λ p. parsed_of p ≡ said_behind command given.entry.items text.entry.now) }
{
    match names_given(alloc, given.as_slice()) {
        Ok(names) => read_lines(Reading::new(alloc, given, names), command, text),
        Err(LineError::Fault(fault)) => {
            let nothing = Reading::new(alloc, Vec::new(alloc), IndexSet::new(alloc));
            Ok(nothing.parsed(0, Some(fault)))
        }
        Err(LineError::Memory) => Err(AllocError),
    }
}

/// What a text says as a script of this command: its data components, its procedures, not yet
/// verified, and the further lines, up to its first fault.
pub fn parse<'a>(alloc: Global, command: Command, text: &'a str) -> Result<Parsed<'a>, AllocError>
    ensures { IfOk result (λ p. parsed_of p ≡ script_said command text.entry.now) }
{
    parse_behind(alloc, command, Vec::new(alloc), text)
}
