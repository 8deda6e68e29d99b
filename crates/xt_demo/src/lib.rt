//! The generated session of a size from 1 to 1000: a stylesheet, a source of 20 rows for each unit of the size, 10 changes for
//! each, of which the rows and values are drawn, and a request to show the result. A session of one size is always the same.
//!
//! ```text
//! let mut commands = Gen::new(10);
//! while let Some(command) = commands.next(alloc)? {
//!     answer(command.line, command.body);
//! }
//! ```
#![tactic(auto)]

mod change;
mod command;
mod draws;
mod first;
mod generator;

pub use command::GeneratedCommand;
pub use generator::Gen;
