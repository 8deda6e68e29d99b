//! What a stylesheet module says at its top (XSLT 1.0, sections 2.2, 2.3, 3.4, 5.3, 7.1.1, 7.1.4, 11.4, 12.2 and 16):
//! its templates, global variables and parameters, attribute sets, keys and other declarations, in document order.
//!
//! ```text
//! let top_levels = module_of(alloc, &name, &document)?;     // S10 to S16, S24 or S26 at an element
//! top_levels[0].declaration                                 // a template, with its pattern, priority and mode, ..
//! top_levels[0].outline                                     // what the elements below it name
//! ```
#![tactic(auto)]

mod alias;
mod declaration;
mod element;
mod module;
mod path;
mod siblings;
mod simplified;
mod top_level;

pub use module::module_of;
pub use top_level::{Declaration, NamedSpace, RuleTemplate, TopLevel};
