//! From a script's text to what its steps or calls begin with: its procedures verified and loaded, its data
//! components empty.
//!
//! ```
//! match load(alloc, Command::Run, text)? {
//!     Loading::Ready(loaded) => begin(loaded.state, loaded.dcs, loaded.first, loaded.calls),
//!     Loading::Refused(report) => print(report.lines), // refused line 4 F7 Verify V5 EmptyRegister slot 0
//! }
//! ```
#![tactic(auto)]

mod copies;
pub mod loading;
