//! What a run asked for each choice of a template rule and for each key, so that a later run asks again only where one
//! of these questions has another answer.
//!
//! A change of the source marks each choice in a mode that has a rule with a predicate or key(), and each key. After a
//! run, each such choice that it asked is made once more, and the questions that it asks are kept; and likewise for
//! each key, of each node. Before the next run this tells which of them need not be asked again.
//!
//! ```text
//! let (prepared, found) = own.prepare(alloc, &since, &source, &stylesheet, &last)?;  // before a run, by the records of the last
//! prepared.spared                                                          // for what asks again
//! found                                                                    // indexes of keys, for the world of the run
//! let own = prepared.gather(alloc, &source, &stylesheet, &kept)?;           // after it
//! ```
#![tactic(auto)]

mod asked;
mod choices;
mod choosing;
mod gathering;
mod indexing;
mod moved;
mod own_key;
mod own_node;
mod own_questions;
mod own_reads;
mod pass;
mod stay;

pub use own_key::OwnKey;
pub use own_node::OwnNode;
pub use own_reads::{OwnReads, Prepared};
pub use stay::{KeptKey, KeysAfter};
