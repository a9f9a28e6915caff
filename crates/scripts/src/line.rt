//! What a line says by itself.

ghost use Rattle.std.specs.Prelude.{◌≡◌};
ghost use Rattle.scripts.specs.Words.{words_of};
ghost use Rattle.scripts.specs.Numbers.{Gives, number_to};
ghost use Rattle.scripts.specs.Lines.{value_of, dc_said, proc_said, mode_said, key_said, slot_said, end_said};
ghost use Rattle.scripts.specs.Lines.{one_number, one_dc, alone_said, plain_answer, answer_said, forge_said};
ghost use Rattle.scripts.specs.Lines.{fixed_by, named_said, known_said, foreign_fault, assembly_said, inside_said, outside_said, line_said};
ghost use Rattle.scripts.specs.Keywords.{keyword_said};

use crate::fault::{LineError, ScriptFault};
use crate::keyword::{Command, Keyword};
use crate::name::Name;
use crate::number::{decimal, number_to, numbers};
use crate::script::{Dc, MOST_OPS, MOST_ROWS, Step};
use crate::words::{Words, cut, first_word};
use access_slots::op::{Reply, Said};
use access_slots::slot::{Key, Mode, Slot, Value};
use bpf_asm::cut::{before, split_word, trim};
use bpf_asm::line::{insn_of_word, is_mnemonic};
use bpf_encoding::insn::Insn;
use std::alloc::Global;
use tc_log::event::Args;

/// What a line says by itself; names are not looked up yet.
#[derive(Drop)]
pub enum Line<'a> {
    Nothing,
    Dc(Dc),
    /// A procedure of this name begins, with so many arguments.
    Proc(Name<'a>, u8),
    Slot(Slot),
    Insn(Insn),
    /// The end of a procedure.
    End,
    /// A step that calls no procedure.
    Step(Step),
    Admit(Name<'a>, Args),
    First(Name<'a>, Args),
    Call(Name<'a>, Args),
}

// A record's value that begins with this number, the lowest byte first, and is zero behind it.
fn value_of(number: u64) -> Value
    ensures { result ≡ value_of number }
{
    let mut value = [0; 64];
    value[..8].copy_from_slice(&number.to_le_bytes());
    value
}

// `dc ROWS OPS`
fn dc<'a>(words: &Words) -> Result<Line<'a>, ScriptFault>
    ensures { result ≡ dc_said words.now.count words.now.first.now words.now.second.now }
{
    if words.count != 2 {
        return Err(ScriptFault::BadLine);
    }
    Ok(Line::Dc(Dc {
        rows: number_to(MOST_ROWS, words.first)? as usize,
        ops: number_to(MOST_OPS, words.second)? as usize,
    }))
}

fn small_number(word: &[u8]) -> Result<u8, ScriptFault>
    ensures { result ≡ number_to 255 word.now }
{
    Ok(number_to(255, word)? as u8)
}

fn short_number(word: &[u8]) -> Result<u16, ScriptFault>
    ensures { result ≡ number_to 65535 word.now }
{
    Ok(number_to(65_535, word)? as u16)
}

// `proc NAME ARGS`
fn proc<'a>(words: &Words<'a>) -> Result<Line<'a>, ScriptFault>
    ensures { result ≡ proc_said words.now.count words.now.first.now words.now.second.now }
{
    if words.count != 2 {
        return Err(ScriptFault::BadLine);
    }
    Ok(Line::Proc(Name::parse(words.first)?, small_number(words.second)?))
}

fn mode(word: &[u8]) -> Result<Mode, ScriptFault>
    ensures { result ≡ mode_said word.now }
{
    if word == "read".as_bytes() {
        Ok(Mode::Read)
    } else if word == "write".as_bytes() {
        Ok(Mode::Write)
    } else {
        Err(ScriptFault::BadLine)
    }
}

// A number, or `$` and the number of an argument.
fn key(word: &[u8]) -> Result<Key, ScriptFault>
    ensures { result ≡ key_said word.now }
{
    match word {
        [b'$', argument @ ..] => Ok(Key::Arg(small_number(argument)?)),
        _ => Ok(Key::Fixed(decimal(word)?)),
    }
}

// `slot read|write DC TABLE KEY`
fn slot<'a>(words: &Words) -> Result<Line<'a>, ScriptFault>
    ensures { result ≡ slot_said words.now.count words.now.first.now words.now.second.now words.now.third.now words.now.fourth.now }
{
    if words.count != 4 {
        return Err(ScriptFault::BadLine);
    }
    Ok(Line::Slot(Slot {
        mode: mode(words.first)?,
        dc: short_number(words.second)?,
        table: short_number(words.third)?,
        key: key(words.fourth)?,
    }))
}

// The one number of a line.
fn one_number(words: &Words) -> Result<u64, ScriptFault>
    ensures { result ≡ one_number words.now.count words.now.first.now }
{
    if words.count != 1 {
        return Err(ScriptFault::BadLine);
    }
    decimal(words.first)
}

// The one data component of a line.
fn one_dc(words: &Words) -> Result<u16, ScriptFault>
    ensures { result ≡ one_dc words.now.count words.now.first.now }
{
    if words.count != 1 {
        return Err(ScriptFault::BadLine);
    }
    short_number(words.first)
}

// What is said in one word.
fn plain_answer(word: &[u8]) -> Result<Said, ScriptFault>
    ensures { result ≡ plain_answer word.now }
{
    if word == "absent".as_bytes() {
        Ok(Said::Absent)
    } else if word == "done".as_bytes() {
        Ok(Said::Done(None))
    } else if word == "duplicate".as_bytes() {
        Ok(Said::Duplicate)
    } else if word == "missing".as_bytes() {
        Ok(Said::Missing)
    } else if word == "noroom".as_bytes() {
        Ok(Said::NoRoom)
    } else if word == "old".as_bytes() {
        Ok(Said::Old)
    } else {
        Err(ScriptFault::BadLine)
    }
}

// `forge NUMBER SAID`: what is said.
fn answer(words: &Words) -> Result<Said, ScriptFault>
    ensures { result ≡ answer_said words.now.count words.now.second.now words.now.third.now words.now.fourth.now }
{
    match words.count {
        2 => plain_answer(words.second),
        3 if words.second == "value".as_bytes() => {
            Ok(Said::Value(value_of(decimal(words.third)?)))
        }
        4 if words.second == "done".as_bytes() && words.third == "was".as_bytes() => {
            Ok(Said::Done(Some(value_of(decimal(words.fourth)?))))
        }
        _ => Err(ScriptFault::BadLine),
    }
}

// `forge NUMBER SAID`: a reply of incarnation 0.
fn forge(words: &Words) -> Result<Step, ScriptFault>
    ensures { result ≡ forge_said words.now.count words.now.first.now words.now.second.now words.now.third.now words.now.fourth.now }
{
    let said = answer(words)?;
    Ok(Step::Forge(Reply {
        number: decimal(words.first)?,
        incarnation: 0,
        said,
    }))
}

// `end` inside of a procedure.
fn end<'a>(words: &Words) -> Result<Line<'a>, ScriptFault>
    ensures { result ≡ end_said words.now.count }
{
    if words.count != 0 {
        return Err(ScriptFault::BadLine);
    }
    Ok(Line::End)
}

// A step whose word stands alone.
fn alone<'a>(words: &Words, step: Step) -> Result<Line<'a>, ScriptFault>
    ensures { result ≡ alone_said words.now.count step }
{
    if words.count != 0 {
        return Err(ScriptFault::BadLine);
    }
    Ok(Line::Step(step))
}

// A line of a fixed number of words, which begins with this keyword.
fn fixed<'a>(keyword: Keyword, is_step: bool, words: &Words<'a>) -> Result<Line<'a>, ScriptFault>
    ensures { result ≡ fixed_by keyword is_step words.now.count words.now.first.now words.now.second.now
        words.now.third.now words.now.fourth.now }
{
    match keyword {
        Keyword::Dc => dc(words),
        Keyword::Proc => proc(words),
        Keyword::Slot => slot(words),
        Keyword::End if is_step => Ok(Line::Step(Step::End(one_number(words)?))),
        Keyword::End => end(words),
        Keyword::Ask => Ok(Line::Step(Step::Ask(one_number(words)?))),
        Keyword::Undo => Ok(Line::Step(Step::Undo(one_number(words)?))),
        Keyword::Resend => Ok(Line::Step(Step::Resend(one_number(words)?))),
        Keyword::Perform => Ok(Line::Step(Step::Perform(one_number(words)?))),
        Keyword::Take => Ok(Line::Step(Step::Take(one_number(words)?))),
        Keyword::Restart => Ok(Line::Step(Step::Restart(one_dc(words)?))),
        Keyword::Checkpoint => Ok(Line::Step(Step::Checkpoint(one_dc(words)?))),
        Keyword::Tell => Ok(Line::Step(Step::Tell(one_number(words)?))),
        Keyword::Redo => Ok(Line::Step(Step::Redo(one_dc(words)?))),
        Keyword::Crash => Ok(Line::Step(Step::Crash(one_number(words)?))),
        Keyword::Cut => alone(words, Step::Cut),
        Keyword::Forge => Ok(Line::Step(forge(words)?)),
        Keyword::Admit | Keyword::First | Keyword::Call => Err(ScriptFault::BadLine),
    }
}

// `NAME ARG..`
fn named<'a>(alloc: Global, rest: &'a [u8]) -> Result<(Name<'a>, Args), LineError>
    ensures { Gives (named_said (words_of rest.entry.now)) result }
{
    let Some((name, rest)) = first_word(rest) else {
        return Err(LineError::Fault(ScriptFault::BadLine));
    };
    Ok((Name::parse(name)?, numbers(alloc, rest)?))
}

// A line of the script's own, which begins with this keyword; outside of procedures `end` may be
// a step.
fn known<'a>(
    alloc: Global,
    keyword: Keyword,
    is_step: bool,
    rest: &'a [u8],
) -> Result<Line<'a>, LineError>
    ensures { Gives (known_said keyword is_step (words_of rest.entry.now)) result }
{
    match keyword {
        Keyword::Admit => {
            let (name, args) = named(alloc, rest)?;
            Ok(Line::Admit(name, args))
        }
        Keyword::First => {
            let (name, args) = named(alloc, rest)?;
            Ok(Line::First(name, args))
        }
        Keyword::Call => {
            let (name, args) = named(alloc, rest)?;
            Ok(Line::Call(name, args))
        }
        _ => Ok(fixed(keyword, is_step, &cut(rest))?),
    }
}

// A line of assembly.
fn assembly<'a>(word: &[u8], rest: &[u8]) -> Result<Line<'a>, ScriptFault>
    ensures { result ≡ assembly_said word.now rest.now }
{
    match insn_of_word(word, rest) {
        Ok(insn) => Ok(Line::Insn(insn)),
        Err(fault) => Err(ScriptFault::Asm(fault)),
    }
}

// A line outside of procedures whose word isn't the script's own: assembly isn't at its place
// there.
fn foreign(word: &[u8]) -> ScriptFault
    ensures { result ≡ foreign_fault word.now }
{
    if is_mnemonic(word) {
        ScriptFault::Order
    } else {
        ScriptFault::BadLine
    }
}

// A line inside of a procedure, where `call`, and all that is no keyword, is assembly.
fn inside<'a>(
    alloc: Global,
    command: Command,
    word: &[u8],
    rest: &'a [u8],
) -> Result<Line<'a>, LineError>
    ensures { Gives (inside_said command (keyword_said word.now) word.now rest.entry.now) result }
{
    match Keyword::parse(word) {
        None | Some(Keyword::Call) => Ok(assembly(word, rest)?),
        Some(keyword) if command.knows(keyword) => known(alloc, keyword, false, rest),
        Some(_) => Err(LineError::Fault(ScriptFault::BadLine)),
    }
}

// A line outside of procedures.
fn outside<'a>(
    alloc: Global,
    command: Command,
    word: &[u8],
    rest: &'a [u8],
) -> Result<Line<'a>, LineError>
    ensures { Gives (outside_said command (keyword_said word.now) word.now rest.entry.now) result }
{
    match Keyword::parse(word) {
        Some(keyword) if command.knows(keyword) => {
            known(alloc, keyword, command == Command::World, rest)
        }
        Some(_) => Err(LineError::Fault(ScriptFault::BadLine)),
        None => Err(LineError::Fault(foreign(word))),
    }
}

impl<'a> Line<'a> {
    /// What a line of this command's scripts says by itself; `is_open` inside of a procedure,
    /// where assembly stands. Of several faults it is the one of the lowest code.
    pub fn parse(
        alloc: Global,
        command: Command,
        is_open: bool,
        line: &'a [u8],
    ) -> Result<Line<'a>, LineError>
        ensures { Gives (line_said command is_open line.entry.now) result }
    {
        let text = trim(before(line, b';'));
        if text.is_empty() {
            return Ok(Line::Nothing);
        }
        let (word, rest) = split_word(text);
        if is_open {
            inside(alloc, command, word, rest)
        } else {
            outside(alloc, command, word, rest)
        }
    }
}
