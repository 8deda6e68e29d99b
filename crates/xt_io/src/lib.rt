//! What xt reads bytes from and writes bytes to, and the lines of those bytes. A `Source` and a
//! `Sink` count their faults, so that a failure is told only where something failed; over memory
//! they also tell their bytes. `Lines` cuts the bytes of a source into lines, and takes no more
//! of them than its limit.
//!
//! ```text
//! let mut lines = Lines::new(alloc, 1 << 48)?;
//! while let Some(line) = lines.next_line(&mut input)? {
//!     write_all(&mut output, line.as_bytes())?;
//! }
//! ```
#![tactic(auto)]

mod buffer;
mod fault;
mod head;
mod line;
mod line_buffer;
mod lines;
mod memory_sink;
mod memory_source;
mod sink;
mod source;
mod standard;

pub use fault::{Failed, LineFault, SkipFault};
pub use head::Head;
pub use line::Line;
pub use lines::Lines;
pub use memory_sink::{MemSink, SureSink};
pub use memory_source::{MemSource, SureSource};
pub use sink::{Sink, write_all};
pub use source::Source;
pub use standard::{StdSink, StdSource};
