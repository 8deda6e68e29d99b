//! Which questions a change of the source, of modules or of a parameter marks. A question that is not marked has the same
//! true answer before the change and after it (`spec_touch`).
//!
//! ```text
//! let change = seen_change(alloc, &change, &old, &new)?;      // of the source as it is seen
//! let asking = Modes::asking(alloc, &rules)?;
//! let loose = loose_children(alloc, &new, change.node)?;
//! let since = since.and(alloc, WorldChange::SourceEdited { change, asking, loose })?;
//! since.marks(&question)                                      // a few look-ups a change, however much it holds
//! since.asks(&question)                                       // less: of children that stay elements are as they were
//! let named = Named::nothing().with(&question).with(&other);
//! since.spares_all(&named)                                    // whether it surely marks none of them, by a few comparisons
//! ```
#![tactic(auto)]

mod children;
mod elements;
mod loose;
mod marks;
mod modes;
mod moved;
mod named;
mod numbers;
mod sight;
mod since;
mod source;
mod world_change;

pub use children::loose_children;
pub use elements::Elements;
pub use marks::Marks;
pub use modes::Modes;
pub use named::{Bounds, Named};
pub use sight::seen_change;
pub use since::Since;
pub use world_change::WorldChange;
