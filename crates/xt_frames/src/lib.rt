//! Runs of instantiations that pause: what is left of the contents that run, in frames, and what is done. What is
//! left of a run is a plan (`spec_run`), and what each step does with it says `Steps` (`specs/Left.antt`).
//!
//! ```text
//! match value(alloc, run, &expr, &site, &here, world)? {      // what is read is noted in the run, at the element
//!     Came::Is(value) => ..,
//!     Came::Halts(why) => ..,                                 // refused there
//!     Came::Lacks(name) => ..,                                // nothing is done: the global is to be given first
//! }
//! ```
#![tactic(auto)]

mod frame;
mod held;
mod meant;
mod noting;
mod operand;
mod run;
mod settle;
mod standing;

pub use frame::{
    Application, Arguments, Attributes, Body, Branches, Copies, Frame, Holder, Inside, Items, Loop,
    Ordered, Parameters, Passing, Sets, Sorting,
};
pub use held::{hold, holding, take_held};
pub use operand::{
    attribute, criterion, element, expansion, instruction, key_value, nodes, number, text, truth,
    value,
};
pub use run::{
    Came, Next, Run, Waiting, go_into, lack, push, sink, want, write_fragment, write_text,
};
pub use standing::{Standing, share_bindings, share_content, share_keys};
