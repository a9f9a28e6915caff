//! The line of the source that a slot of a procedure comes from, by the procedure's name.

ghost use Rattle.std.specs.Prelude.{◌≡◌, IfOk, string_bytes};
ghost use Rattle.object_procedures.specs.NamedPlaces.{section_named, named_place};

use crate::finding::{FindError, Found, find};
use crate::source_place::Origin;
use object_file::line_sections;
use std::alloc::{AllocError, Global};

// The section with the code of the first procedure of this name.
fn section_named<'a>(found: &[Found<'a>], name: &str) -> Option<usize>
    ensures { result ≡ section_named name.now found.now }
{
    'procedures: for procedure in found {
        if procedure.name.as_str() == name {
            return Some(procedure.section);
        }
    }
    None
}

/// What is printed of the line of a slot of the procedure of this name in an object file: nothing where the file has no
/// such procedure, or no line for it.
pub fn named_place(
    alloc: Global,
    file: &[u8],
    name: &str,
    slot: usize,
) -> Result<String, AllocError>
    ensures { IfOk result (λ s. string_bytes s ≡ named_place file.now name.now slot) }
{
    let found = match find(alloc, file) {
        Ok(found) => found,
        Err(FindError::Refused(_)) => return Ok(String::new(alloc)),
        Err(FindError::Memory) => return Err(AllocError),
    };
    let Some(section) = section_named(found.as_slice(), name) else {
        return Ok(String::new(alloc));
    };
    let lines = line_sections(alloc, file)?;
    Origin { lines, section }.slot_text(alloc, slot)
}
