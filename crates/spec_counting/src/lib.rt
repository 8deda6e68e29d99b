//! Laws of what xsl:number counts (`spec_transform/specs/Numbering.antt`), in a crate of their own since nothing stands
//! on them.
//!
//! There is no code here but the laws, whose functions have no body.
#![tactic(auto)]

mod counting;

pub use counting::{counting_is_refused_for_width_alone, the_single_number_is_the_last};
