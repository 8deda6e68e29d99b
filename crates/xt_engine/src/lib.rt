//! What executes stylesheets, one instantiation at a time: what is entered, what a run is given and what it
//! wants, and the trait of engines. An engine runs one instantiation (of a template, a built-in rule or a
//! global, for a node) as far as the next that it enters or the next global that it needs; drivers know only
//! this trait. That an engine does what the plan of its call says is the clause `Advances`
//! (`specs/Advances.antt`).
//!
//! ```text
//! let mut run = engine.start(alloc, &call, room)?;
//! let turn = engine.resume(alloc, &mut run, None, world)?;   // wants a call or a global, or is done
//! ```
#![tactic(auto)]

mod call;
mod engine;
mod event;
mod global;
mod turn;
mod wrapping;

pub use call::{Call, Refused, Ruling, Target};
pub use engine::Engine;
pub use event::{Ended, Event, Ran};
pub use global::NamedGlobal;
pub use turn::{Entered, RunFault, Turn};
pub use wrapping::Wrapping;
