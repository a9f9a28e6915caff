//! What a script has: data components, procedures by name, and the further lines of its command.

use crate::name::Name;
use access_slots::decl::Decl;
use access_slots::op::Reply;
use bpf_encoding::code::Code;
use tc_log::event::Args;

/// Data components of a script, at most.
pub const MOST_DCS: usize = 16;

/// Rows of a data component, at most.
pub const MOST_ROWS: u64 = 65_536;

/// Operations that a data component performs, at most.
pub const MOST_OPS: u64 = 1_048_576;

/// A data component: how many rows it has room for, 0 to 65536, and how many operations it
/// performs, 0 to 1048576.
#[derive(Clone, Copy, Debug, PartialEq, Eq)]
pub struct Dc {
    pub rows: usize,
    pub ops: usize,
}

/// A procedure, not yet verified.
#[derive(Drop)]
pub struct Procedure<'a> {
    pub name: Name<'a>,
    pub decl: Decl,
    pub code: Code,
    /// The line of its `end`, from 1, if it stands in the text.
    pub line: Option<usize>,
}

/// A call of a procedure of the script.
#[derive(Drop)]
pub struct Call {
    /// The procedure's place among the script's, from 0.
    pub procedure: usize,
    /// As many as the line has, however many the procedure takes.
    pub args: Args,
}

/// A step of a world.
#[derive(Drop)]
pub enum Step {
    Admit(Call),
    /// Of the transaction of this serial number, as the next three.
    Ask(u64),
    Undo(u64),
    End(u64),
    Resend(u64),
    /// The copy at this place, from 0.
    Perform(u64),
    /// The reply at this place, from 0.
    Take(u64),
    /// The data component of this number.
    Restart(u16),
    /// The data component of this number.
    Checkpoint(u16),
    /// The news at this place, from 0.
    Tell(u64),
    /// The data component of this number.
    Redo(u16),
    /// When so many events of the log were written.
    Crash(u64),
    Cut,
    Forge(Reply),
}

/// What a script says. `steps` are of the scripts of `world`, `first` and `calls` of those of
/// `run`.
#[derive(Drop)]
pub struct Script<'a> {
    /// 1 to 16 data components.
    pub dcs: Vec<Dc>,
    /// The procedures in order, no two of one name.
    pub procedures: Vec<Procedure<'a>>,
    pub steps: Vec<Step>,
    pub first: Vec<Call>,
    pub calls: Vec<Call>,
}
