//! The texts of records and of values.

ghost use Rattle.std.specs.Prelude.{◌≡◌, ◌==◌, length, IfOk, string_bytes};
ghost use Rattle.std.specs.List.{list_all};
ghost use Rattle.std.specs.Int.{w64, from_le_bytes};
ghost use Rattle.state_lines.specs.RecordTexts.{record_text, value_text};

use access_slots::slot::{Record, Value};
use report_texts::hex::hex_text;
use std::alloc::{AllocError, Global};

/// A record: data component, table and key.
pub fn record_text(alloc: Global, record: &Record) -> Result<String, AllocError>
    ensures { IfOk result (λ s. string_bytes s ≡ record_text «record».now) }
{
    let dc = record.dc;
    let table = record.table;
    let key = record.key;
    format!(in alloc; "{dc}/{table}/{key}")
}

// The number that eight bytes say, the lowest first.
fn number_of(bytes: &[u8]) -> u64
    requires { length bytes.now ≡ 8 }
    ensures { result ≡ from_le_bytes w64 bytes.now }
{
    u64::from_le_bytes([
        bytes[0], bytes[1], bytes[2], bytes[3], bytes[4], bytes[5], bytes[6], bytes[7],
    ])
}

fn are_zeros(bytes: &[u8]) -> bool
    ensures { result ≡ list_all (λ b. b == 0) bytes.now }
{
    bytes.iter().all(|&b| b == 0)
}

/// The number that a value says, in decimal, or `x` and all of its bytes in hex.
pub fn value_text(alloc: Global, value: &Value) -> Result<String, AllocError>
    ensures { IfOk result (λ s. string_bytes s ≡ value_text value.now) }
{
    let bytes = &value[..];
    if are_zeros(&bytes[8..]) {
        let number = number_of(&bytes[..8]);
        return format!(in alloc; "{number}");
    }
    let digits = hex_text(alloc, bytes)?;
    format!(in alloc; "x{digits}")
}
