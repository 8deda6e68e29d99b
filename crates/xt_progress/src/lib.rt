//! How far the run of one instantiation has come: the stream that it writes, with holes for what it enters,
//! what it read, and how deep it went. Each function does one step of what a run does, as the definitions say
//! it (`spec_run`).
//!
//! ```text
//! let mut going = Going::new(alloc);
//! going.begin(alloc)?;
//! going.put(item)?;                          // into the sink that was begun last
//! going.end_wrapped(alloc, Wrapping::Comment)?;      // which is a comment in the one around it
//! let stream = going.close(alloc)?;
//! ```
#![tactic(auto)]

mod going;
mod wrapped;

pub use going::Going;
