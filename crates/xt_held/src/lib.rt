//! What a session holds: the source, the modules by name, the values that parameters are given, and the outcome of the
//! transformation, which is that of all these. A change is made ready first, with the outcome that it will have, and
//! then adopted, so that a refused or failing one leaves all as it was. A document is given whole, or edited by path
//! with `edit`, or a node of it moves with `relocate`.
//!
//! What the last run that ended with a result kept stays, and the run of a change takes from it what still holds, so that it
//! comes to what a run from nothing would; of its questions those alone are asked again that some change since then marks, also
//! where refusals came between. `stats` tells what that took. The modules are compiled again where one changes.
//!
//! In a batch changes are pending: paths and further changes speak of the documents as they have left them, but nothing is compiled
//! or run, and outcome and `stats` stay. A commit makes all of them present as one change; or they are dropped.
//!
//! ```text
//! let mut held = Held::new(alloc);                   // S01 -
//! let ready = held.set_source(alloc, body)?;         // nothing is changed yet
//! let outcome = ready.outcome();                     // what it will come to
//! held.adopt(ready);                                 // takes no memory
//! let counts = held.stats();                         // what the change took
//! let ready = held.edit(alloc, name, &edit)?;        // a document by its name, edited by path
//! let ready = held.relocate(alloc, name, &path, &other)?;  // a node of it moved, by two paths
//! let ready = held.set_param(alloc, name, value)?;   // the same for a parameter
//! let ready = held.drop_module(alloc, name)?;        // a module taken away
//! held.begin(alloc)?;                                // changes are pending from here on, and told no outcome
//! let ready = held.commit(alloc)?;                   // what is pending becomes present: one change
//! held.abandon()?;                                   // or all goes back to what is present; takes no memory
//! ```
#![tactic(auto)]

mod batch;
mod counts;
mod held;
mod last_run;
mod marking;
mod name;
mod origin;
mod outcome;
mod parameter;
mod ready;
mod sighting;
mod stylesheet;
mod tried;
mod unread;

pub use counts::Counts;
pub use held::Held;
pub use name::DocName;
pub use outcome::Outcome;
pub use ready::Ready;
pub use xt_edit::{Edit, EditFault};
