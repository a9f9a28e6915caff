//! The bytes of short logs, written by hand from the table of their records.

use std::alloc::{AllocError, Global};

/// An event of a log: kind, sub, transaction, word, key, and the first two words of the body. All else
/// is zero.
pub type LogRecord = (u8, u8, u64, u64, u64, [u64; 2]);

/// A transaction that puts 100 under 5, and one that writes 7 over it and is undone.
pub const PUT_AND_ABORT: [LogRecord; 12] = [
    (1, 2, 1, 0, 0, [5, 100]),
    (2, 2, 1, 1, 5, [100, 0]),
    (3, 3, 1, 1, 0, [0, 0]),
    (5, 1, 1, 0, 0, [0, 0]),
    (1, 1, 2, 2, 0, [5, 0]),
    (2, 1, 2, 2, 5, [0, 0]),
    (3, 1, 2, 2, 0, [100, 0]),
    (2, 3, 2, 3, 5, [7, 0]),
    (3, 4, 2, 3, 0, [100, 0]),
    (4, 3, 2, 4, 5, [100, 0]),
    (3, 4, 2, 4, 0, [7, 0]),
    (5, 2, 2, 5, 0, [0, 0]),
];

fn write_record(bytes: &mut Vec<u8>, record: &LogRecord) -> Result<(), AllocError> {
    let (kind, sub, txn, word, key, body) = record;
    bytes.extend_from_slice(&[*kind, *sub, 0, 0, 0, 0, 0, 0])?;
    for word in [txn, word, key, &body[0], &body[1]] {
        bytes.extend_from_slice(&word.to_le_bytes())?;
    }
    bytes.extend_from_slice(&[0; 48])
}

/// The bytes of these events, 96 each.
pub fn log_bytes(alloc: Global, records: &[LogRecord]) -> Result<Vec<u8>, AllocError> {
    let mut bytes = Vec::new(alloc);
    for record in records {
        write_record(&mut bytes, record)?;
    }
    Ok(bytes)
}
