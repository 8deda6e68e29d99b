// The keys of a name (XSLT 1.0, section 12.2), as they were found.
ghost use Rattle.std.specs.Prelude.{◌≡◌, ℕ, List, IfOk};
ghost use Rattle.std.specs.Option.{option_copied};
ghost use Rattle.spec_meaning.specs.Question as question;
ghost use Rattle.xt_questions.specs.View.{answer_of};
ghost use Rattle.xt_keys.specs.View.{nodes_found};
ghost use Rattle.xt_match.specs.Context.{units_in};
ghost use Rattle.xt_world.specs.KeyView.{IsFoundBy, answer_found, found_for, keyed_in};

use std::alloc::Global;
use std::rc::Rc;
use xp_eval::Eval;
use xt_document_world::PlainWorld;
use xt_keys::{KeyIndex, all_nodes, index};
use xt_names::Expanded;
use xt_questions::{Answer, EvalFault, Refusal, ResolvedUnit};
use xt_text::{Memory, Text};
use xt_tree::Doc;

/// What all keys of one name come to for all nodes of a source.
#[derive(Drop)]
pub enum Found {
    Index(KeyIndex),
    /// One of them is refused.
    Refused(Refusal),
    /// One of them needs a global, so that no node has a value.
    Nothing,
}

/// The keys of one name.
#[derive(Drop)]
pub struct FoundKeys {
    pub name: Expanded,
    pub found: Found,
}

/// What was found for the keys of this name, if they were sought before.
pub(crate) fn found_for<'a>(keys: &'a [FoundKeys], name: &Expanded) -> Option<&'a Found>
    ensures { option_copied result ≡ found_for keys.now name.now }
{
    for known in keys {
        if known.name.same(name) {
            return Some(&known.found);
        }
    }
    None
}

/// The nodes that have this value, or why there are none.
pub(crate) fn answer_found(alloc: Global, found: &Found, text: &Text) -> Result<Answer, Memory>
    ensures { IfOk result (λ a. answer_of a ≡ answer_found found.now text.now) }
{
    match found {
        Found::Index(index) => with_value(alloc, index, text),
        Found::Refused(refusal) => Ok(Answer::Refused(refusal.copy(alloc)?)),
        Found::Nothing => Ok(Answer::Nodes(Vec::new(alloc))),
    }
}

fn with_value(alloc: Global, index: &KeyIndex, text: &Text) -> Result<Answer, Memory>
    ensures { IfOk result (λ a. answer_of a ≡ question.SomeNodes (nodes_found text.now index.now)) }
{
    let nodes = Vec::from_slice(alloc, index.find(text.as_str()))?;
    Ok(Answer::Nodes(nodes))
}

/// What the keys of this name come to.
pub(crate) fn find(
    alloc: Global,
    document: &Doc,
    units: &[Rc<ResolvedUnit>],
    name: &Expanded,
) -> Result<Found, Memory>
    ensures { IfOk result (λ found. (text : List ℕ) → answer_found found text ≡ keyed_in (units_in units.now) document.now name.now text) }
{
    let nodes = all_nodes(alloc, document)?;
    let mut world = Eval {
        world: PlainWorld { alloc, document },
    };
    let found = index(alloc, units, name, nodes.as_slice(), &mut world);
    found_by(found)
}

fn found_by(found: Result<KeyIndex, EvalFault>) -> Result<Found, Memory>
    ensures { IfOk result (λ f. IsFoundBy found f) }
{
    match found {
        Ok(index) => Ok(Found::Index(index)),
        Err(EvalFault::Memory) => Err(Memory),
        Err(EvalFault::Refused(refusal)) => Ok(Found::Refused(refusal)),
        Err(EvalFault::Wants(wanted)) => {
            drop(wanted);
            Ok(Found::Nothing)
        }
    }
}
