//! BPF instructions (RFC 9669) and the bytes that spell them.
//!
//! ```
//! let code = Code::from_insns(alloc, &[Insn::Call(2)])?;      // a row of places that has a spelling
//! let bytes = encode(alloc, &code)?;                          // 0x85, 0, 0, 0, 2, 0, 0, 0
//! let again = decode(alloc, bytes.as_slice())?;               // the same places
//! ```
//!
//! (`encoding_tests` of `component_tests`, which has its tests.)
#![tactic(auto)]

pub mod code;
pub mod decode;
pub mod encode;
pub mod insn;
mod read;
pub mod slot;

pub use code::{Code, MOST_SLOTS};
pub use decode::DecodeFault;
pub use insn::{Insn, Place, Register};
pub use slot::{Outside, SlotFault};
