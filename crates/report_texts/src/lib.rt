//! What a command prints, whichever it is: the output, hex text, the printed name of each
//! fault, and the output of a script that is refused.
//!
//! ```
//! let bytes = bytes_of(alloc, b"b7 00 00 00 07 00 00 00")?; // eight, or HexFault::NotHex(place)
//! let text = hex_text(alloc, bytes.as_slice())?; // "b700000007000000"
//! let name = violation_name(Violation::EmptyRegister); // "V5 EmptyRegister"
//! ```
#![tactic(auto)]

pub mod explanation;
pub mod fault_names;
pub mod hex;
pub mod output;
pub mod script_refusal;
