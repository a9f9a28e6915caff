//! What is wrong with a line of a script, in words for who wrote it.

use scripts::cause::{Cause, cause_of};
use scripts::keyword::{Command, Keyword};
use scripts::reading::parse;
use std::alloc::{AllocError, Global};

// The form of a line that begins with this word.
fn form_of(keyword: Keyword) -> &'static str {
    match keyword {
        Keyword::Dc => "dc ROWS OPS",
        Keyword::Proc => "proc NAME ARGS, with a NAME of 1 to 32 of a to z, 0 to 9 and _",
        Keyword::Slot => "slot read|write DC TABLE KEY",
        Keyword::End => "end, or as a step end T",
        Keyword::Admit => "admit NAME ARG..",
        Keyword::Ask => "ask T",
        Keyword::Undo => "undo T",
        Keyword::Resend => "resend T",
        Keyword::Perform => "perform I",
        Keyword::Take => "take I",
        Keyword::Restart => "restart D",
        Keyword::Checkpoint => "checkpoint D",
        Keyword::Tell => "tell I",
        Keyword::Redo => "redo D",
        Keyword::Crash => "crash P",
        Keyword::Cut => "cut",
        Keyword::Forge => "forge NUMBER SAID",
        Keyword::First => "first NAME ARG..",
        Keyword::Call => "call NAME ARG..",
    }
}

// What the lines of a command's scripts begin with outside of procedures.
fn beginnings_of(command: Command) -> &'static str {
    match command {
        Command::Verify => "of verify these are dc and proc",
        Command::World => "of world these are dc, proc and the steps, as admit or ask",
        Command::Run => "of run these are dc, proc, first and call",
    }
}

// The command whose scripts have lines that begin with a word which others don't know.
fn owner_of(keyword: Keyword) -> &'static str {
    match keyword {
        Keyword::First | Keyword::Call => "run",
        _ => "world",
    }
}

// A word as text: words of a text are cut at blanks, so they are text too.
fn shown(word: &[u8]) -> &str {
    str::from_utf8(word).unwrap_or("")
}

fn number_text(alloc: Global, line: usize, word: &[u8], most: u64) -> Result<String, AllocError> {
    let word = shown(word);
    if most == u64::MAX {
        return format!(in alloc;
            "line {line}: {word:?} is no number of 64 bits in decimal digits\n"
        );
    }
    format!(in alloc; "line {line}: {word:?} is no number from 0 to {most} in decimal digits\n")
}

fn cause_text(
    alloc: Global,
    command: Command,
    line: usize,
    cause: Cause,
) -> Result<String, AllocError> {
    match cause {
        Cause::UnknownWord(word) => {
            let (word, known) = (shown(word), beginnings_of(command));
            format!(in alloc;
                "line {line}: {word:?} is no word that a line outside of procedures begins with; {known}\n"
            )
        }
        Cause::ForeignWord(keyword) => {
            let (word, owner) = (keyword.name(), owner_of(keyword));
            format!(in alloc; "line {line}: {word:?} is a word of scripts for {owner} alone\n")
        }
        Cause::Form(keyword) => {
            let (word, form) = (keyword.name(), form_of(keyword));
            format!(in alloc;
                "line {line}: a line that begins with {word:?} is of the form {form}\n"
            )
        }
        Cause::Number(word, most) => number_text(alloc, line, word, most),
        Cause::Unended => {
            format!(in alloc;
                "line {line}: the script ends inside of a procedure: a line \"end\" is missing\n"
            )
        }
    }
}

/// A line that says what is wrong with the text, where a script of the command has a bad line or a bad number first.
pub fn explanation(
    alloc: Global,
    command: Command,
    text: &str,
) -> Result<Option<String>, AllocError> {
    let Some(fault) = parse(alloc, command, text)?.fault else {
        return Ok(None);
    };
    match cause_of(alloc, command, text, fault) {
        Some(cause) => Ok(Some(cause_text(alloc, command, fault.line, cause)?)),
        None => Ok(None),
    }
}
