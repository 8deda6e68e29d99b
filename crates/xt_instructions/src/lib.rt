//! What each instruction does (XSLT 1.0, sections 5 to 11 and 13). An instruction is a step of a run: it evaluates
//! its expressions, writes, and leaves its content as frames. Where an expression lacks a global, the frame of the
//! instruction is left as it was, and nothing that it did stands.
//!
//! ```text
//! let next = perform(alloc, run, &instr, body, world)?;     // the next instruction of the body, whose frame was taken off
//! ```
#![tactic(auto)]

mod aliases;
mod attributes;
mod choose;
mod control;
mod copying;
mod imports;
mod instruction;
mod literal;
mod making;
mod namespaces;
mod sets;
mod simple;
mod sorting;
mod variables;

pub use attributes::go_on_attributes;
pub use choose::choose_from;
pub use copying::{kind_in, put_copy};
pub use imports::call_of_choice;
pub use instruction::perform;
pub use sets::{go_on_inside, go_on_sets, used_sets};
pub use sorting::{go_on_sorting, unsorted};
