//! The text of BPF code: an instruction a line.
//!
//! ```
//! let code = assemble(alloc, "mov r0, 6\nmul r0, 7\nexit\n")?;
//! let text = disassemble(alloc, &code)?;                      // a text that says the code again
//! ```
//!
//! (`samples` assembles so; that the text says the code again is in `disassemble`'s contract.)
//! [`line::insn_of`] reads one line.
#![tactic(auto)]

pub mod assemble;
pub mod cut;
pub mod disassemble;
pub mod line;
mod mnemonic;
pub mod number;
mod operand;
mod parts;

pub use assemble::AsmFault;
pub use line::LineFault;
