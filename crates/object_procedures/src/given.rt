//! The procedures of an object file as those of a script, for commands that run them.

ghost use Rattle.std.specs.Prelude.{◌≡◌, IfOk, IfErr, Ok, string_bytes};
ghost use Rattle.std.specs.Option.{option_map};
ghost use Rattle.object_file.specs.LineSections.{line_bytes};
ghost use Rattle.object_procedures.specs.Given.{code_refusal, given_of, all_given, given_in, IsStop, Gives};
ghost use Rattle.object_procedures.specs.SourcePlaces.{fault_text};

use crate::finding::{FindError, Found, find};
use crate::refusal::refusal;
use crate::source_place::Origin;
use bpf_encoding::decode::DecodeFault;
use object_file::{LineSections, line_sections};
use report_texts::fault_names::fault_name;
use report_texts::output::Output;
use scripts::script::Procedure;
use std::alloc::{AllocError, AllocFailed, Global};

/// Why no procedures are given: the report that says why, or want of memory.
#[derive(Drop)]
pub enum Ungiven {
    Refused(Output),
    Memory,
}

impl From<AllocError> for Ungiven {
    ghost use Rattle.std.specs.Prelude.{◌≡◌};
    ghost use Rattle.object_procedures.specs.declared.given.Ungiven.TheVariants.{Memory};

    ghost from_gives = { λ _ e. e ≡ Memory };

    fn from(_e: AllocError) -> Ungiven {
        Ungiven::Memory
    }
}

impl<T: Drop> From<AllocFailed<T>> for Ungiven {
    ghost use Rattle.std.specs.Prelude.{◌≡◌};
    ghost use Rattle.object_procedures.specs.declared.given.Ungiven.TheVariants.{Memory};

    ghost from_gives = { λ _ e. e ≡ Memory };

    fn from(_e: AllocFailed<T>) -> Ungiven {
        Ungiven::Memory
    }
}

// The report of a procedure whose bytes aren't code.
fn code_refusal(
    alloc: Global,
    name: &str,
    fault: &DecodeFault,
    origin: &Origin<'_>,
) -> Result<Output, AllocError>
    ensures lines { IfOk result (λ r. string_bytes r.lines
        ≡ code_refusal name.now fault.now (fault_text (option_map line_bytes origin.now.lines) origin.now.section fault.now)) }
    ensures status { IfOk result (λ r. r.status ≡ 1) }
{
    let place = origin.fault_text(alloc, fault)?;
    let fault = fault_name(alloc, fault)?;
    Ok(Output {
        status: 1,
        lines: format!(in alloc; "refused object {name} {fault}{place}\n")?,
        notes: None,
    })
}

// The procedure of a script that this one is.
fn given_of<'a>(
    alloc: Global,
    lines: Option<LineSections<'a>>,
    found: Found<'a>,
) -> Result<Procedure<'a>, Ungiven>
    ensures { Gives (given_of (option_map line_bytes lines.entry) found.entry) result }
{
    let Found {
        name,
        decl,
        code,
        section,
    } = found;
    match code {
        Ok(code) => Ok(Procedure {
            name,
            decl,
            code,
            line: None,
        }),
        Err(fault) => {
            let origin = Origin { lines, section };
            let report = code_refusal(alloc, name.as_str(), &fault, &origin)?;
            Err(Ungiven::Refused(report))
        }
    }
}

// The same of all.
fn all_given<'a>(
    alloc: Global,
    lines: Option<LineSections<'a>>,
    found: Vec<Found<'a>>,
) -> Result<Vec<Procedure<'a>>, Ungiven>
    ensures ok { IfOk result (λ given. all_given (option_map line_bytes lines.entry) found.entry.items ≡ Ok given.items) }
    ensures err { IfErr result (IsStop (all_given (option_map line_bytes lines.entry) found.entry.items)) }
{
    let mut given = Vec::new(alloc);
    'found: for one in found {
        given.push(given_of(alloc, lines, one)?)?;
    }
    Ok(given)
}

/// The procedures of an object file, not yet verified.
///
/// Refused as [`find`] says, else with the first procedure whose bytes aren't code.
pub fn given<'a>(alloc: Global, file: &'a [u8]) -> Result<Vec<Procedure<'a>>, Ungiven>
    ensures ok { IfOk result (λ given. given_in file.entry.now ≡ Ok given.items) }
    ensures err { IfErr result (IsStop (given_in file.entry.now)) }
{
    match find(alloc, file) {
        Ok(found) => all_given(alloc, line_sections(alloc, file)?, found),
        Err(FindError::Refused(why)) => Err(Ungiven::Refused(refusal(alloc, file, why)?)),
        Err(FindError::Memory) => Err(Ungiven::Memory),
    }
}
