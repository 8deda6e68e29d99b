// A node and the keys of one name, with its values and what was asked for them.
ghost use Rattle.std.specs.Prelude.{◌≡◌, ℕ, IfOk, IfSome};
ghost use Rattle.spec_document.specs.Forest.{Document};
ghost use Rattle.spec_document.specs.Name.{Expanded as ExpandedName};
ghost use Rattle.spec_run.specs.Documents.{Parameters};
ghost use Rattle.xt_world.specs.View.{truth_in};
ghost use Rattle.xt_world.specs.declared.stylesheet.Stylesheet.{Stylesheet};
ghost use Rattle.xt_own.specs.Keys.{IsNodeOf};
ghost use Rattle.xt_own.specs.Logs.{IsLog, IsReadFor};

use crate::own_questions::own_questions;
use std::alloc::Global;
use std::rc::Rc;
use xp_eval::Eval;
use xt_document_world::PlainWorld;
use xt_keys::texts_at_node;
use xt_names::Expanded;
use xt_questions::{EvalFault, Logged, Question, Read};
use xt_text::{Memory, Text};
use xt_tree::{Doc, NodeRef};
use xt_world::Stylesheet;

/// A node with its values in the keys of one name, and what these ask for them, but for what the node is called.
#[derive(Drop)]
pub struct OwnNode {
    pub(crate) node: NodeRef,
    pub(crate) texts: Vec<Text>,
    pub(crate) reads: Vec<Question>,
}

/// What is asked of a node for the keys of this name. None where one of them is refused or needs a global, or asks anything
/// but the tree.
pub(crate) fn own_node(
    alloc: Global,
    document: &Doc,
    stylesheet: &Stylesheet,
    name: &Expanded,
    node: NodeRef,
) -> Result<Option<Rc<OwnNode>>, Memory>
    ensures node { IfOk result (λ o. IfSome o (λ own. own.value.node ≡ node)) }
    ensures known { (parameters : Parameters) → IfOk result (λ o. IfSome o (λ own. IsNodeOf stylesheet.now (truth_in stylesheet.now parameters document.now) name.now own.value)) }
{
    let mut world = Eval {
        world: Logged::new(alloc, PlainWorld { alloc, document }),
    };
    let units = stylesheet.units.as_slice();
    let found = texts_at_node(alloc, units, name, node, &mut world);
    let reads = world.world.reads.as_slice();
    told_by(alloc, node, found, reads)
}

// What is told by the values that were found of a node, and by what was read for them.
fn told_by(
    alloc: Global,
    node: NodeRef,
    found: Result<Vec<Text>, EvalFault>,
    reads: &[Read],
) -> Result<Option<Rc<OwnNode>>, Memory>
    ensures node { IfOk result (λ o. IfSome o (λ own. own.value.node ≡ node)) }
    ensures known { (s : Stylesheet) (parameters : Parameters) (document : Document ℕ) (name : ExpandedName) → IsLog s document name node found reads.now
        → IfOk result (λ o. IfSome o (λ own. IsNodeOf s (truth_in s parameters document) name own.value)) }
{
    match found {
        Ok(texts) => told_of(alloc, node, texts, reads),
        Err(EvalFault::Memory) => Err(Memory),
        Err(EvalFault::Refused(refusal)) => {
            drop(refusal);
            Ok(None)
        }
        Err(EvalFault::Wants(wanted)) => {
            drop(wanted);
            Ok(None)
        }
    }
}

// What is told by these values.
fn told_of(
    alloc: Global,
    node: NodeRef,
    texts: Vec<Text>,
    reads: &[Read],
) -> Result<Option<Rc<OwnNode>>, Memory>
    ensures node { IfOk result (λ o. IfSome o (λ own. own.value.node ≡ node)) }
    ensures known { (s : Stylesheet) (parameters : Parameters) (document : Document ℕ) (name : ExpandedName) → IsReadFor s document name node texts.items reads.now
        → IfOk result (λ o. IfSome o (λ own. IsNodeOf s (truth_in s parameters document) name own.value)) }
{
    let Ok(kept) = own_questions(alloc, node, reads) else {
        drop(texts);
        return Err(Memory);
    };
    match kept {
        None => {
            drop(texts);
            Ok(None)
        }
        Some(reads) => shared(alloc, node, texts, reads),
    }
}

fn shared(
    alloc: Global,
    node: NodeRef,
    texts: Vec<Text>,
    reads: Vec<Question>,
) -> Result<Option<Rc<OwnNode>>, Memory>
    ensures { IfOk result (λ o. IfSome o (λ own. own.value ≡ record { node = node; texts = texts; reads = reads })) }
{
    let own = OwnNode { node, texts, reads };
    Ok(Some(Rc::new(alloc, own)?))
}
