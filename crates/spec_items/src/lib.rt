//! Records for each item of xsl:for-each: the stylesheet in which the content of each xsl:for-each stands in a template
//! of its own, so that what runs, keeps and reuses instantiations of templates serves each item as it is.
//!
//! Read `specs/Mentioned.antt`, then `specs/Lifted.antt`, `specs/Liftable.antt` and `specs/Fits.antt`. There is no code
//! here but laws, whose functions have no body.
#![tactic(auto)]

mod laws;

pub use laws::{
    free_variables_are_in_scope, items_change_no_outcome, items_change_no_result,
    items_change_no_run,
};
