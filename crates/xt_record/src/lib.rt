//! Records: what is kept of each instantiation that came to its end, and which of what was kept may serve a call.
//!
//! A record never goes stale, since all on which it depends is among what it did (`specs/View.antt`); only what it read
//! may no longer hold. `Reuse` has what the last finished run kept, and what this run keeps: it finds what may serve a
//! call, and asks each question of the last run at most once, and none that is spared (`xt_spared`).
//!
//! ```text
//! let mut reuse = Reuse::new(alloc, &last, &spared)?;
//! let found = reuse.find(alloc, &mut world, &call, below, 0)?;     // a record whose questions have their answers
//! reuse.keep(alloc, record)?;                                      // for calls after this one, and for the next run
//! let (kept, steps) = reuse.ended();
//! ```
#![tactic(auto)]

mod asking;
mod block;
mod calls;
mod entry;
mod filling;
mod frames;
mod growing;
mod index;
mod keeping;
mod key;
mod matching;
mod piece;
mod pieces;
mod places;
mod pool;
mod reach;
mod recalling;
mod record;
mod reuse;
mod same;
mod taking;
mod tree;
mod units;

pub use calls::same_call;
pub use filling::{is_silent_with, with_parts};
pub use keeping::a_record_lasts;
pub use places::a_record_stands;
pub use pool::Pool;
pub use record::Record;
pub use reuse::{Found, Reuse, Said, Steps};
pub use same::{same_rule_if, same_streams, same_value};
pub use tree::Summary;
