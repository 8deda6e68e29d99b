//! The structure of stylesheet modules (XSLT 1.0, section 2): which modules a module names, and the first fault that
//! an element of it has by the table of XSLT elements.
//!
//! ```text
//! let module = check(alloc, &document)?;
//! module.links                  // its xsl:import and xsl:include elements
//! module.fault                  // None, or the first of S05 to S09, S15, S23 and S25 with its place
//! ```
#![tactic(auto)]

mod attributes;
mod code;
mod expanded;
mod fault;
mod inside;
mod links;
mod module;
mod names;
mod table;
mod text;
mod values;
mod walk;

pub use attributes::kind_named;
pub use code::{after_role, is_left};
pub use expanded::{Meaning, expanded_of, meaning_of, value_of};
pub use fault::{Fault, below};
pub use inside::{
    Inside, Role, copies, inside_of, preserves_within, push_uris, role_of, scope_within,
};
pub use links::Link;
pub use module::{Module, check};
pub use names::element_named;
pub use table::{
    Row, after_element, after_other, allows, content_of, is_instruction, is_top, is_top_level,
    literal_rows, rows_of, takes_literals, takes_text,
};
pub use text::{is_among, is_white, words};
