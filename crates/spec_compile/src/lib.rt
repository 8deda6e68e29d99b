//! What xt believes of what stylesheet modules say: how the values of attributes, instructions and top-level
//! elements are read, which stylesheet the modules are, and which static refusal stands where they are none.
//!
//! Read `specs/Reading.antt`, `specs/Value.antt`, `specs/Content.antt`, `specs/Unit.antt`, `specs/Scoping.antt`
//! and `specs/Sheet.antt`. There is no code here but laws, whose functions have no bodies of their own.
#![tactic(auto)]

mod laws;

pub use laws::{no_want_of_reading, no_want_of_sheet, one_sheet};
