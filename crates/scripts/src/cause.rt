//! What a script's fault is about: the word, or the form of the line.

ghost use Rattle.std.specs.Prelude.{IfSome};
ghost use Rattle.scripts.specs.Causes.{IsCause, IsBadNumber};

use crate::fault::ScriptFault;
use crate::keyword::{Command, Keyword};
use crate::line::Line;
use crate::number::number_to;
use crate::reading::Fault;
use crate::script::{MOST_OPS, MOST_ROWS};
use crate::words::first_word;
use bpf_asm::cut::{before, split_word, trim};
use std::alloc::Global;

/// What is wrong with a line that is bad, or that has a bad number.
#[derive(Clone, Copy)]
pub enum Cause<'a> {
    /// Lines of scripts don't begin with this word.
    UnknownWord(&'a [u8]),
    /// They do, but not those of the command's scripts.
    ForeignWord(Keyword),
    /// The line isn't of the form of those that begin with this word.
    Form(Keyword),
    /// This is no number, or a greater one than this.
    Number(&'a [u8], u64),
    /// The script ends inside a procedure.
    Unended,
}

// The greatest number that may stand as the word at this place behind the keyword, from 0, if a number is wanted there.
fn most_at(keyword: Keyword, place: usize) -> Option<u64> {
    match (keyword, place) {
        (Keyword::Dc, 0) => Some(MOST_ROWS),
        (Keyword::Dc, _) => Some(MOST_OPS),
        (Keyword::Slot, 1 | 2) => Some(65_535),
        (Keyword::Restart | Keyword::Checkpoint | Keyword::Redo, _) => Some(65_535),
        (Keyword::Proc, 1) => Some(255),
        (Keyword::Proc | Keyword::Slot | Keyword::Admit | Keyword::First | Keyword::Call, 0) =>
            None,
        (Keyword::Forge, 1) => None,
        _ => Some(u64::MAX),
    }
}

// The number of an argument behind a `$`, which a slot's key may be, or the whole word.
fn digits_of(keyword: Keyword, word: &[u8]) -> (&[u8], bool) {
    match word {
        [b'$', argument @ ..] if keyword == Keyword::Slot => (argument, true),
        _ => (word, false),
    }
}

// Behind this keyword, the first word that isn't the number that is wanted there, and the greatest that may be.
fn bad_number(keyword: Keyword, text: &[u8]) -> Option<(&[u8], u64)>
    ensures { IfSome result (λ r. IsBadNumber r.0.now r.1) }
{
    let mut rest = text;
    let mut place = 0;
    'words: while let Some((word, after)) = first_word(rest) {
        let (digits, is_argument) = digits_of(keyword, word);
        let is_answer = keyword == Keyword::Forge && word == "was".as_bytes();
        if let (Some(most), false) = (most_at(keyword, place), is_answer) {
            let most = if is_argument { 255 } else { most };
            if number_to(most, digits).is_err() {
                return Some((digits, most));
            }
        }
        place += 1;
        rest = after;
    }
    None
}

// The word that a line begins with, and what follows it.
fn begun(line: &[u8]) -> (&[u8], &[u8]) {
    split_word(trim(before(line, b';')))
}

// The line of this number, from 1, and whether it stands inside a procedure.
fn line_at(text: &str, number: usize) -> Option<(&[u8], bool)> {
    let mut before = number.checked_sub(1)?;
    let mut is_open = false;
    for line in text.lines() {
        if before == 0 {
            return Some((line.as_bytes(), is_open));
        }
        before -= 1;
        match Keyword::parse(begun(line.as_bytes()).0) {
            Some(Keyword::Proc) => is_open = true,
            Some(Keyword::End) => is_open = false,
            _ => {}
        }
    }
    None
}

// Why this line has this fault, if it is of a bad line or a bad number.
fn cause_in<'a>(command: Command, fault: ScriptFault, line: &'a [u8]) -> Option<Cause<'a>>
    ensures { IfSome result (IsCause command) }
{
    let (word, rest) = begun(line);
    match (Keyword::parse(word), fault) {
        (None, ScriptFault::BadLine) => Some(Cause::UnknownWord(word)),
        (Some(keyword), ScriptFault::BadLine) if !command.knows(keyword) => {
            Some(Cause::ForeignWord(keyword))
        }
        (Some(keyword), ScriptFault::BadLine) => Some(Cause::Form(keyword)),
        (Some(keyword), ScriptFault::BadNumber) => {
            let (word, most) = bad_number(keyword, rest)?;
            Some(Cause::Number(word, most))
        }
        _ => None,
    }
}

/// What this fault of the text, as a script of the command, is about, if it is of a bad line or a bad number.
pub fn cause_of<'a>(
    alloc: Global,
    command: Command,
    text: &'a str,
    fault: Fault,
) -> Option<Cause<'a>>
    ensures { IfSome result (IsCause command) }
{
    let (line, is_open) = line_at(text, fault.line)?;
    let is_good = Line::parse(alloc, command, is_open, line).is_ok();
    if is_good && fault.fault == ScriptFault::BadLine {
        return Some(Cause::Unended);
    }
    cause_in(command, fault.fault, line)
}
