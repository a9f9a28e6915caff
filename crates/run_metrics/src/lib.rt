//! What a run tells of itself in files: its metrics, for Prometheus, while it lasts, and the spans of its calls and of their
//! phases behind it, as a trace for a browser.
//!
//! ```text
//! let file = OutputFile::new(alloc, "calls.prom", Kind::Metrics, stderr)?;
//! let metrics = Metrics::new(alloc, file, calls, None)?;
//! metrics.count(Outcome::Committed, Some(12_000));                   // it took 12 microseconds
//! metrics.write(&rt, alloc, delays, None);                           // `calls.prom` is the new one, whole
//! ```
#![tactic(auto)]

mod counters;
mod exposition;
mod lanes;
mod metrics;
mod moments;
mod outcome;
mod output_file;
mod phase;
mod span_text;
mod trace;

pub use exposition::Delays;
pub use metrics::Metrics;
pub use outcome::Outcome;
pub use output_file::{Kind, OutputFile};
pub use phase::Phase;
pub use trace::Trace;
