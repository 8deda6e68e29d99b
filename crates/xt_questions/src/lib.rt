//! Worlds, which answer questions about a stylesheet, a source and parameters, and what goes in and out of
//! what asks them. Every function that asks has one clause, `Runs` (`specs/Runs.antt`): its result, and what
//! the world has noted, are those of a program of questions (`spec_meaning`).
//!
//! ```text
//! let text = ask_text(alloc, world, node)?;      // the string-value, which the world may note as read
//! ```
#![tactic(auto)]

mod alike;
mod answer;
mod ask;
mod context;
mod copies;
mod evaluate;
mod fault;
mod hold;
mod logged;
mod pieces;
mod question;
mod read;
mod world;

pub use answer::{Answer, ChosenRule, NamedSets, NamedTemplate, ResolvedUnit};
pub use ask::{ask_nodes, ask_order, ask_text};
pub use context::{Binding, Bindings, Context, Focus, Known, Supplies};
pub use copies::{copy_place, copy_test, copy_value};
pub use evaluate::Evaluate;
pub use fault::{EvalFault, Refusal};
pub use hold::holds;
pub use logged::Logged;
pub use question::{Candidates, CurrentRule, Given, Question, Wanted, copy_rule_if};
pub use read::Read;
pub use world::World;
