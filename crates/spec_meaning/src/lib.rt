//! What xt believes about the meaning of stylesheets: what is asked of a world and what it answers, programs
//! that ask, the values of expressions and the streams that instructions write, and what every expression
//! means.
//!
//! Read `specs/Stream.antt`, `specs/Value.antt` and `specs/Step.antt`; then `specs/Question.antt` and
//! `specs/Program.antt`, on which all meanings stand; then `specs/Context.antt`, `Convert`, `Compare`,
//! `Operation`, `Function`, `Call` and `Meaning`, which say what an expression means; last `specs/Truth.antt`,
//! which says what a document answers. `specs/Related.antt` and `specs/Naming.antt` say what relates worlds
//! whose nodes have other names. There is no code here but the laws, whose functions have no body, and the
//! enums of the functions.
#![tactic(auto)]

mod function;
mod laws;

pub use function::{
    ContextFunction, Function, NodesFunction, TextFunction, TextsFunction, ValueFunction,
};
pub use laws::{agreement, steps_give_each_node_once, told};
