//! The procedures of an object file that the verifier refuses, for who mends their C.

use crate::cure::cure_of;
use crate::verification::refused_at;
use object_file::{LineSections, line_sections};
use object_procedures::finding::{FindError, Found, find_all};
use object_procedures::source_place::Origin;
use scripts::name::Name;
use source_lines::SourceLine;
use std::alloc::{AllocError, Global};

/// A procedure that the verifier refuses.
#[derive(Drop)]
pub struct RefusedProcedure<'a> {
    pub name: Name<'a>,
    /// The line of C that is refused, where the object file says it.
    pub line: Option<SourceLine<'a>>,
    /// How it is mended.
    pub cure: &'static str,
}

// What the verifier refuses of a procedure whose bytes are code.
fn refused<'a>(
    alloc: Global,
    lines: Option<LineSections<'a>>,
    found: Found<'a>,
) -> Result<Option<RefusedProcedure<'a>>, AllocError> {
    let Found {
        name,
        decl,
        code,
        section,
    } = found;
    let Ok(code) = code else {
        drop(decl);
        return Ok(None);
    };
    match refused_at(alloc, code, decl)? {
        None => Ok(None),
        Some((slot, violation)) => Ok(Some(RefusedProcedure {
            name,
            line: Origin { lines, section }.line(slot),
            cure: cure_of(violation),
        })),
    }
}

// Adds a procedure where the verifier refuses it.
fn add_refused<'a>(
    alloc: Global,
    lines: Option<LineSections<'a>>,
    found: Found<'a>,
    all: &mut Vec<RefusedProcedure<'a>>,
) -> Result<(), AllocError> {
    if let Some(one) = refused(alloc, lines, found)? {
        all.push(one)?;
    }
    Ok(())
}

// Those of these procedures that the verifier refuses.
fn all_refused<'a>(
    alloc: Global,
    lines: Option<LineSections<'a>>,
    found: Vec<Found<'a>>,
) -> Result<Vec<RefusedProcedure<'a>>, AllocError> {
    let mut all = Vec::new(alloc);
    for procedure in found {
        add_refused(alloc, lines, procedure, &mut all)?;
    }
    Ok(all)
}

/// The procedures of an object file that the verifier refuses, in the order of its sections; none of a file that is no
/// such object file.
pub fn refused_procedures<'a>(
    alloc: Global,
    file: &'a [u8],
) -> Result<Vec<RefusedProcedure<'a>>, AllocError> {
    match find_all(alloc, file) {
        Ok(findings) => all_refused(alloc, line_sections(alloc, file)?, findings.found),
        Err(FindError::Refused(_)) => Ok(Vec::new(alloc)),
        Err(FindError::Memory) => Err(AllocError),
    }
}
