//! Which nodes match a pattern (XSLT 1.0, section 5.2), and which template rule is chosen for a node (sections
//! 5.5 and 5.6), in a world that evaluates expressions. Every function that asks has the clause `Runs`
//! (`xt_questions`). Matching is never refused: a predicate that is refused is false.
//!
//! ```text
//! let is_counted = matches(alloc, &count, node, &context, &supplies, world)?;
//! let mut table = RuleTable::new(alloc, &rules);
//! let rule = choose(alloc, &mut table, units, node, &mode, Candidates::AllRules, &supplies, world)?;   // None: a built-in rule
//! ```
#![tactic(auto)]

mod called;
mod choice;
mod fitting;
mod pattern;
mod position;
mod predicate;
mod same;
mod step;
mod table;
mod test;

pub use choice::choose;
pub use pattern::matches;
pub use table::RuleTable;
