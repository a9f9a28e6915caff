// A file that is read by itself, whoever wrote it.

ghost use Rattle.std.specs.Prelude.{IfOk, IfErr};
ghost use Rattle.frame_file.specs.Reading.{Reads, payloads_in};
ghost use Rattle.log_file.specs.Stored.{IsStored, IsFileFault};
ghost use Rattle.log_file.specs.Joining.Fields.{BeginsWith};

use crate::base::BaseRow;
use crate::header::{Header, header_in, may_begin};
use crate::reading::{OpenFault, Recovered, read_log};
use frame_file::read_frames;
use std::alloc::Global;
use tc_core::SiteNote;
use tc_log::log::Log;

/// What a log's file says, and whose log it is.
#[derive(Drop)]
pub struct Stored {
    pub header: Header,
    /// The records with which data components begin, rising, where the log begins behind an earlier one.
    pub base: Option<Vec<BaseRow>>,
    pub log: Log,
    /// Of each data component what its last note says.
    pub notes: Vec<SiteNote>,
    /// How many frames there are, the header's too.
    pub frames: usize,
    /// How many bytes at the end are no whole frame: what a crash left of one.
    pub unfinished: usize,
}

// The header that the first payload may be, by its fields.
fn first_header(bytes: &[u8], payloads: &[Vec<u8>]) -> Result<Header, OpenFault>
    requires { Reads bytes.now (payloads_in payloads.now) }
    ensures begins { IfOk result (BeginsWith (payloads_in payloads.now)) }
    ensures fault { IfErr result (IsFileFault bytes.now) }
{
    let Some((first, _rest)) = payloads.split_first() else {
        return Err(if may_begin(bytes) {
            OpenFault::Empty
        } else {
            OpenFault::Other
        });
    };
    match header_in(first) {
        Some(header) => Ok(header),
        None => Err(OpenFault::Other),
    }
}

/// Reads the bytes of a log's file, whoever wrote it: nothing is compared with a header, and an end that
/// isn't a whole frame is left as it is.
pub fn read_file(alloc: Global, bytes: &[u8]) -> Result<Stored, OpenFault>
    ensures says { IfOk result (IsStored bytes.now) }
    ensures fault { IfErr result (IsFileFault bytes.now) }
{
    let found = read_frames(alloc, bytes)?;
    let header = first_header(bytes, &found.payloads)?;
    let Recovered { base, log, notes } = read_log(alloc, &header, &found.payloads)?;
    Ok(Stored {
        header,
        base,
        log,
        notes,
        frames: found.payloads.len(),
        unfinished: bytes.len() - found.end,
    })
}
