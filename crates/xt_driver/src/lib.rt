//! Whole runs of a stylesheet, over any engine and any world: the globals in their order, and then the root, each
//! call with all that it enters. A call is served by a record that was kept in this run or in the last one, where all
//! that it read holds (`xt_record`), and run by the engine otherwise. What a run comes to is `run_of` of `spec_run`
//! (`specs/Meaning.antt`), whatever was kept, and for whatever engine does what the plans of its calls say.
//!
//! ```text
//! let mut reuse = Reuse::new(alloc, &last, &spared)?;
//! let whole = run(alloc, &mut engine, &mut world, root, &globals, &mut reuse)?;
//! whole.content       // the stream of the root
//! whole.refusal       // why there is none
//! ```
#![tactic(auto)]

mod calls;
mod came;
mod cut;
mod drive;
mod follow;
mod globals;
mod keep;
mod level;
mod lost;
mod memo;
mod outcome;
mod way;
mod whole;

pub use whole::{Whole, run};
