//! What xt believes about stylesheets (XSLT 1.0): the trees of patterns, value templates, sort keys,
//! counts, instructions, units and whole stylesheets.
//!
//! Read `specs/Pattern.antt` and `specs/ValueTemplate.antt` first, then `specs/Instruction.antt` and
//! `specs/Sheet.antt`. The expressions in these trees are those of `spec_expression`.
//!
//! There is no code here but the types that the definitions share with the code. Those that hold texts
//! or names have them of any type.
#![tactic(auto)]

mod method;
mod number_level;
mod pattern;

pub use method::Method;
pub use number_level::NumberLevel;
pub use pattern::{Separator, Start};
