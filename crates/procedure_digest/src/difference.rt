// In what a log of others differs.

ghost use Rattle.std.specs.Prelude.{◌≡◌, IfOk, string_bytes};
ghost use Rattle.procedure_digest.specs.Difference.{is_same_session, is_same_but_digest, other_line};

use log_file::Header;
use std::alloc::{AllocError, Global};

/// Whether both have the same session, or none.
pub fn is_same_session(log: &Option<u64>, script: &Option<u64>) -> bool
    ensures { result ≡ is_same_session log.now script.now }
{
    match (log, script) {
        (None, None) => true,
        (Some(log), Some(script)) => log == script,
        _ => false,
    }
}

/// Whether both have as many data components and procedures, and the same session: of two headers that differ, whether
/// their digests alone do.
pub fn is_same_but_digest(log: &Header, script: &Header) -> bool
    ensures { result ≡ is_same_but_digest log.now script.now }
{
    if log.dcs == script.dcs && log.procedures == script.procedures {
        return is_same_session(&log.session, &script.session);
    }
    false
}

/// The line that refuses a log that has another header than a script's procedures: the first in which they
/// differ of the number of data components, that of procedures, the session, and the digest, with both numbers
/// of the first two.
pub fn other_line(alloc: Global, log: &Header, script: &Header) -> Result<String, AllocError>
    ensures { IfOk result (λ line. string_bytes line ≡ other_line log.now script.now) }
{
    if log.dcs != script.dcs {
        let (has, wanted) = (log.dcs, script.dcs);
        return format!(in alloc; "refused log Other dcs {has} script {wanted}\n");
    }
    if log.procedures != script.procedures {
        let (has, wanted) = (log.procedures, script.procedures);
        return format!(in alloc; "refused log Other procedures {has} script {wanted}\n");
    }
    if !is_same_session(&log.session, &script.session) {
        return String::from_str(alloc, "refused log Other session\n");
    }
    String::from_str(alloc, "refused log Other digest\n")
}
