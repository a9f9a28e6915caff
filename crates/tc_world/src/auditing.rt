//! The audit of a log and of data components, whoever made them.

pub use audit::auditing::{AuditFault, Audited, audit};
