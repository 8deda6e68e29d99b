//! What xt believes about results: the tree that a stream of items shapes, with the recoveries of XSLT 1.0
//! and the declarations of namespaces that its names need; and the messages of a stream.
//!
//! Read `specs/Recovery.antt`, which says what of a stream stands, and then `specs/Shape.antt`, which
//! declares the namespaces. There is no code here but the laws, whose functions have no body.
#![tactic(auto)]

mod laws;

pub use laws::{names_are_declared, results_are_normal, texts_are_those_of_the_stream};
