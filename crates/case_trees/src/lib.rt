//! What the libraries of cases on texts of stylesheets have in common: the scope of the texts, and the forms
//! in which trees and refusals are written.
#![tactic(auto)]

mod avt;
mod code;
mod pattern;
mod prefixes;
mod syntax;
mod tree;

pub use avt::push_avt_part;
pub use code::push_code;
pub use pattern::push_pattern;
pub use prefixes::scope;
pub use syntax::{push_axis, push_operator, push_test};
pub use tree::{push_step, push_tree};
