//! The stylesheet that modules are, or its static refusal (XSLT 1.0, sections 2.6, 5.5, 6, 7.1.4 and 11).
//!
//! ```text
//! match sheet(alloc, &modules, &main) {
//!     Ok(sheet) => ..                            // its units, rules and other declarations
//!     Err(SheetFault::Refused(refusal)) => ..    // S03 to S26, and the place where it stands
//!     Err(SheetFault::NoMain) => ..              // S01
//!     Err(SheetFault::Memory) => ..              // it may be tried again
//! }
//! ```
#![tactic(auto)]

mod aliases;
mod between;
mod compiled;
mod declared;
mod fault;
mod opened;
mod placing;
mod read;
mod rules;
mod space;
mod stock;

pub use compiled::sheet;
pub use fault::{SheetFault, StaticRefusal};
