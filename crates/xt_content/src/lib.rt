//! The contents of templates, variables and instructions (XSLT 1.0, sections 5 to 13): the instructions that the
//! children of an element are, with its parameters, sort keys and branches, and what the elements among them name.
//!
//! ```text
//! let below = children_among(alloc, &around, ContentKind::Body, &path, node.children())?;
//! below.children                // instructions, parameters, sort keys and branches
//! below.outline                 // the variables, templates and attribute sets that each element names
//! ```
#![tactic(auto)]

mod around;
mod binding;
mod body;
mod child;
mod fault;
mod instruction;
mod kind;
mod literal;
mod met;
mod numbering;
mod outline;
mod text;
mod value;

pub use around::{Around, around_of, excluded_by, site_of};
pub use binding::binding_of;
pub use body::{children_among, content_at};
pub use child::{Below, Child, Parts, content_in, parted};
pub use fault::ContentFault;
pub use met::standing_at;
pub use outline::{Outline, Outlined, Uses, uses_of};
pub use value::{
    expr_at, name_at, names_at, or_itself, take_avt, take_expr, take_name, take_pattern,
};
