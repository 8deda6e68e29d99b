//! Cases of evaluation. A line is one of these, and is printed with what it asks behind it:
//!
//! - `document LINE..`: the document whose lines these are, its nodes numbered from 0, the root; variables
//!   are forgotten, and the root is the context node and the current node
//! - `at NODE`: the context node, as `3`, an attribute as `3@1`, a namespace node as `3#1`; `current NODE`
//! - `let NAME EXPRESSION`: a local variable; `fragment NAME TEXT`: one that is a fragment of this text
//! - `global NAME EXPRESSION`: a global that is given
//! - `EXPRESSION ->`: what it evaluates to, which is printed after the arrow: `number 3`, `text "a"`,
//!   `boolean true`, `nodes 1 3@1`, `fragment`, a code as `D01`, or `wants NAME` for a global that is not given
//! - `TEMPLATE =>`: the string that this value template stands for, printed likewise
//! - `keep EXPRESSION`: what is read for it is kept; `again`: that is asked again in the present document, and
//!   it is printed how many reads there are, how many were asked, and the first that has changed, from 0
//!
//! In scope are the prefixes p for urn:p and xsl for XSLT's namespace. Words are written as the crate `cases`
//! tells. Position and size of the context are 7 and 9, as those of an instantiation.
#![tactic(auto)]

mod scene;
mod show;

use scene::Scene;
use std::alloc::Global;
use std::io;
use xt_text::Memory;

/// Prints the head of a section, and the answer to each of its lines.
pub fn answer_all(rt: &impl Print, alloc: Global, section: &str) -> io::Result<()> {
    match Scene::new(alloc) {
        Ok(mut scene) => cases::answer_all(rt, alloc, section, &mut scene),
        Err(Memory) => rt.println("memory"),
    }
}
