//! What xt believes of the structure of stylesheets (XSLT 1.0, section 2): the one table of XSLT elements, which
//! faults an element has by it, and how modules import and include one another.
//!
//! Read `specs/Elements.antt`, which is the table, then `specs/Inside.antt`, `specs/Structure.antt` and
//! `specs/Modules.antt`. There is no code here but a law, whose function has no body, and the enums that the
//! definitions share with the code.
#![tactic(auto)]

mod content;
mod element;
mod laws;
mod value;

pub use content::ContentKind;
pub use element::XsltElement;
pub use laws::modules_have_one_reading_order;
pub use value::ValueKind;
