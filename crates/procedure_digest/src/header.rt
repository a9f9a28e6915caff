// The header.

ghost use Rattle.std.specs.Prelude.{◌≡◌, IfOk};
ghost use Rattle.sha2.specs.Sha256.{sha256};
ghost use Rattle.procedure_digest.specs.Bytes.{procedures_bytes};
ghost use Rattle.log_file.specs.Bytes.{of_session};
ghost use Rattle.procedure_digest.specs.Header.{header_of};

use crate::bytes::write_procedure;
use log_file::Header;
use sha2::{Digest, Sha256};
use std::alloc::{AllocError, Global};
use tc_core::Procs;

fn procedures_bytes(alloc: Global, procs: &Procs) -> Result<Vec<u8>, AllocError>
    ensures { IfOk result (λ bytes. bytes.items ≡ procedures_bytes procs.now.codes) }
{
    let mut out = Vec::new(alloc);
    'procedures: for number in 0..procs.len() {
        match procs.get(number) {
            Some(procedure) => write_procedure(alloc, &mut out, procedure)?,
            None => unreachable!(),
        }
    }
    Ok(out)
}

fn digest_of(bytes: &[u8]) -> [u8; 32]
    ensures { result ≡ sha256 bytes.now }
{
    Sha256::digest(bytes)
}

/// The header of the log of a transaction component that has these procedures loaded, and no session.
pub fn header_of(alloc: Global, procs: &Procs) -> Result<Header, AllocError>
    ensures { IfOk result (λ header. header ≡ header_of procs.now) }
{
    let bytes = procedures_bytes(alloc, procs)?;
    Ok(Header {
        dcs: procs.dcs(),
        procedures: procs.len() as u64,
        digest: digest_of(&bytes),
        session: None,
    })
}

/// The same of this session, where there is one.
pub fn header_of_session(
    alloc: Global,
    procs: &Procs,
    session: Option<u64>,
) -> Result<Header, AllocError>
    ensures { IfOk result (λ header. header ≡ of_session (header_of procs.now) session) }
{
    let plain = header_of(alloc, procs)?;
    Ok(Header { session, ..plain })
}
