//! Cases of matching and of choice. A line is one of these, and is printed with what it asks behind it:
//!
//! - `document LINE..`: the document whose lines these are, its nodes numbered from 0, the root; rules are
//!   forgotten
//! - `PATTERN ->`: the nodes of all kinds that match the pattern, in document order, which are printed after the
//!   arrow: `1 3@1`, a namespace node as `1#1`
//! - `rule MODE PRECEDENCE PATTERN`: one more template rule, which counts for less than those before it; `-` is
//!   no mode
//! - `choose NODE MODE`: the number of the rule for the node, from 0, or `built-in`; `import NODE MODE FIRST
//!   LAST`: the same of the rules with a precedence from FIRST on and below LAST
//!
//! In scope are the prefix p for urn:p, and xsl for the namespace of XSLT. Words are written as the crate `cases` tells.
#![tactic(auto)]

mod rules;
mod scene;

use scene::Scene;
use std::alloc::Global;
use std::io;
use xt_text::Memory;

/// Prints the head of a section, and the answer to each of its lines.
pub fn answer_all(rt: &impl Print, alloc: Global, section: &str) -> io::Result<()> {
    match Scene::new(alloc) {
        Ok(mut scene) => cases::answer_all(rt, alloc, section, &mut scene),
        Err(Memory) => rt.println("memory"),
    }
}
