//! What procedures declare and ask for: records, access slots, operations and answers.
//!
//! ```
//! let slots = [read_of_argument_0, write_of_argument_0];      // one record, named twice
//! let decl = Decl::new(1, &slots)?;                           // of one argument
//! let locks = decl.resolve(&[5]);                             // one lock: Write on the record under 5
//! locks.covers(&Op::Delete(record(5)));                       // true
//! locks.covers(&Op::Read(record(6)));                         // false
//! ```
//!
//! (`one_record_in_two_modes` in `slot_tests` of `lower_tests`, which has its tests.)
#![tactic(auto)]

pub mod decl;
pub mod kind;
pub mod lock;
pub mod op;
pub mod slot;

pub use decl::{Decl, DeclFault};
pub use kind::{OpKind, SaidKind};
pub use lock::{Lock, LockSet};
pub use op::{News, Op, Reply, Said, Wire};
pub use slot::{Key, Mode, Record, Slot};
