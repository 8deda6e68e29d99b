//! The engine that runs one instantiation (of a template, a built-in rule or a global, for a node): `Runner`, of
//! which the clause `Advances` of the trait `Engine` says that it does what the plan of its call says.
//!
//! ```text
//! let mut runner = Runner::new();
//! let mut run = runner.start(alloc, &call, room)?;
//! let turn = runner.resume(alloc, &mut run, None, world)?;      // wants a call or a global, or is done
//! ```
#![tactic(auto)]

mod frames;
mod go;
mod parameters;
mod runner;
mod start;
mod step;

pub use runner::Runner;
