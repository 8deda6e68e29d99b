//! The values of the attributes of an element of a stylesheet, read by the table of elements (XSLT 1.0, sections 2.4,
//! 3.4, 5.5, 7.1.1, 7.6.2 and 16), or the least of the codes S10 to S16, S24 and S26 that stand at it.
//!
//! `Entries` has what each attribute says; which it is, `attributes_of` and `xslt_attributes_of` of the definitions
//! say, as readings that ask the grammars. `specs/Answers.antt` has how the answers of such readings are put together.
//!
//! ```text
//! let entries = attributes_of(alloc, &scope, XsltElement::ValueOf, attributes)?;      // S10 where select is none
//! let select = into_expr(entries.take("select"));
//! ```
#![tactic(auto)]

mod attributes;
mod barred;
mod entries;
mod fault;
mod gathered;
mod names;
mod priority;
mod read;
mod template;
mod value;
mod variables;
mod walk;

pub use attributes::{attributes_of, xslt_attributes_of};
pub use entries::{Entries, Entry};
pub use fault::AttributeFault;
pub use gathered::Gathered;
pub use template::template_of;
pub use value::{
    Value, into_avt, into_expr, into_method, into_name, into_names, into_pattern, into_priority,
    into_tests, into_text,
};
pub use variables::{add_template_variables, add_variables};
