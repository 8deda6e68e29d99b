//! The session of xt: commands in, one reply each out. `serve` reads commands from a source and
//! answers each but `quit`, before it takes the next line; `run` does all that the program does, and answers
//! the commands of a generated session for a demonstration.
//!
//! Its contract is the headline: the bytes written are the replies of a run of the session machine
//! over the whole commands, in order, and nothing else; and what `stats` tells in them is what the changes cost.
//!
//! ```text
//! let mut input = MemSource::new(alloc, b"show\n", &[])?;
//! let mut output = MemSink::new(alloc, 100, &[])?;
//! let status = serve(alloc, &mut input, &mut output, 1 << 48);   // 0, and `refused S01 -` is written
//! ```
#![tactic(auto)]

mod answer;
mod changes;
mod command;
mod counts;
mod demo;
mod meet;
mod messages;
mod names;
mod program;
mod replies;
mod session;
mod summary;
mod take;

pub use program::run;
pub use session::serve;
