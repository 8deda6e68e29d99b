//! Which questions a run need not ask again, of those that the last finished run asked.
//!
//! A question that no change since marks is one of them. So is a choice of a template rule of which this is so of each
//! question that was asked for it, although the change marks choices in its mode; and what is asked of keys that stay, but
//! for the values in which they do not.
//!
//! ```text
//! let mut own = OwnChoices::new(alloc);
//! own.add(Rc::new(alloc, OwnChoice { question, reads })?)?;         // a choice, and what was asked for it
//! keys.push(KeyThatStays { name, but })?;                            // each value is answered as before, but for these
//! let spared = Spared::new(&since, keys, Some(&own), OwnChoices::new(alloc));
//! spared.spares(&question)                                          // a few look-ups, and one for each question that was asked for it
//! ```
#![tactic(auto)]

mod choices;
mod spared;

pub use choices::{OwnChoice, OwnChoices, is_same_choice};
pub use spared::{KeyThatStays, Spared, is_text_among};
