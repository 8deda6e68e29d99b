// The keys that stay.
ghost use Rattle.std.specs.Prelude.{◌≡◌, ℕ, [], map, IfOk, IfSome, List, OnOk};
ghost use Rattle.spec_document.specs.Forest.{Document};
ghost use Rattle.spec_document.specs.Order.{entries_of};
ghost use Rattle.spec_node.specs.Naming.{ref_of};
ghost use Rattle.spec_run.specs.Documents.{Parameters};
ghost use Rattle.xt_keys.specs.View.{AreNodesApart};
ghost use Rattle.xt_touch.specs.View.{since_of};
ghost use Rattle.xt_spared.specs.View.{Agrees, Ask};
ghost use Rattle.xt_world.specs.View.{truth_in};
ghost use Rattle.xt_world.specs.declared.stylesheet.Stylesheet.{Stylesheet as Sheet};
ghost use Rattle.xt_own.specs.Keys.{AllKeys, AreAfter, IsKeyOf, Stays, nodes_of};

use crate::indexing::add_found;
use crate::own_key::{OwnKey, key_of};
use crate::own_node::OwnNode;
use crate::pass::{Scene, nodes_that_stay};
use std::alloc::Global;
use std::rc::Rc;
use xt_keys::all_nodes;
use xt_names::{Expanded, copy_name};
use xt_spared::KeyThatStays;
use xt_text::{Memory, Text};
use xt_touch::Since;
use xt_tree::{Doc, NodeRef};
use xt_world::{FoundKeys, Stylesheet};

/// The keys that stay, as questions are spared by them, with what is known of them, and the indexes of those of which some
/// values may be others: which nodes have these is likely to be asked.
#[derive(Drop)]
pub struct KeysAfter {
    pub(crate) stay: Vec<KeyThatStays>,
    pub(crate) keys: Vec<OwnKey>,
    pub(crate) found: Vec<FoundKeys>,
}

// A key that stays, but for these values.
#[derive(Drop)]
pub struct KeptKey {
    key: OwnKey,
    but: Vec<Text>,
}

/// None.
pub(crate) fn no_keys(alloc: Global) -> KeysAfter
    ensures { (s : Sheet) (was : Ask) (parameters : Parameters) (document : Document ℕ) → AreAfter s was parameters document result }
{
    KeysAfter {
        stay: Vec::new(alloc),
        keys: Vec::new(alloc),
        found: Vec::new(alloc),
    }
}

/// The keys that stay after these changes: each has as many nodes as there are now, and answers for each value as before, but
/// for those of nodes that are gone, that came, or of which a question must be asked again.
pub(crate) fn keys_that_stay(
    alloc: Global,
    keys: &[OwnKey],
    since: &Since,
    document: &Doc,
    stylesheet: &Stylesheet,
) -> Result<KeysAfter, Memory>
    ensures { (was : Ask) (parameters : Parameters) → AllKeys stylesheet.now was keys.now → Agrees was (truth_in stylesheet.now parameters document.now) (since_of since.now)
        → IfOk result (AreAfter stylesheet.now was parameters document.now) }
{
    if keys.is_empty() {
        return Ok(no_keys(alloc));
    }
    let nodes = all_nodes(alloc, document)?;
    those_that_stay(alloc, keys, nodes.as_slice(), since, document, stylesheet)
}

// The same, where these are all nodes of the source.
fn those_that_stay(
    alloc: Global,
    keys: &[OwnKey],
    nodes: &[NodeRef],
    since: &Since,
    document: &Doc,
    stylesheet: &Stylesheet,
) -> Result<KeysAfter, Memory>
    requires nodes { nodes.now ≡ map ref_of (entries_of document.now) }
    requires apart { AreNodesApart nodes.now }
    ensures { (was : Ask) (parameters : Parameters) → AllKeys stylesheet.now was keys.now → Agrees was (truth_in stylesheet.now parameters document.now) (since_of since.now)
        → IfOk result (AreAfter stylesheet.now was parameters document.now) }
{
    let mut after = no_keys(alloc);
    for key in keys {
        let kept = one_that_stays(alloc, key, nodes, since, document, stylesheet)?;
        add_if_kept(alloc, &mut after, kept)?;
    }
    Ok(after)
}

fn add_if_kept(alloc: Global, after: &mut KeysAfter, kept: Option<KeptKey>) -> Result<(), Memory>
    requires { IfSome kept (λ k. AreNodesApart (nodes_of k.key.nodes.items)) }
    ensures { (s : Sheet) (was : Ask) (parameters : Parameters) (document : Document ℕ) → AreAfter s was parameters document after.old
        → IfSome kept (λ k. Stays s was (truth_in s parameters document) k.key k.but.items) → OnOk result (AreAfter s was parameters document after.new) }
{
    match kept {
        None => Ok(()),
        Some(kept) => add_kept(alloc, after, kept),
    }
}

fn add_kept(alloc: Global, after: &mut KeysAfter, kept: KeptKey) -> Result<(), Memory>
    requires { AreNodesApart (nodes_of kept.key.nodes.items) }
    ensures { (s : Sheet) (was : Ask) (parameters : Parameters) (document : Document ℕ) → AreAfter s was parameters document after.old
        → Stays s was (truth_in s parameters document) kept.key kept.but.items → OnOk result (AreAfter s was parameters document after.new) }
{
    let KeptKey { key, but } = kept;
    add_found(alloc, &mut after.found, &key, but.as_slice())?;
    let name = copy_name(alloc, &key.name)?;
    after.stay.push(KeyThatStays { name, but })?;
    after.keys.push(key)?;
    Ok(())
}

// The key with the nodes of now, where it stays.
fn one_that_stays(
    alloc: Global,
    key: &OwnKey,
    nodes: &[NodeRef],
    since: &Since,
    document: &Doc,
    stylesheet: &Stylesheet,
) -> Result<Option<KeptKey>, Memory>
    requires nodes { nodes.now ≡ map ref_of (entries_of document.now) }
    requires apart { AreNodesApart nodes.now }
    ensures apart { IfOk result (λ o. IfSome o (λ kept. AreNodesApart (nodes_of kept.key.nodes.items))) }
    ensures stays { (was : Ask) (parameters : Parameters) → IsKeyOf stylesheet.now was key.now → Agrees was (truth_in stylesheet.now parameters document.now) (since_of since.now)
        → IfOk result (λ o. IfSome o (λ kept. Stays stylesheet.now was (truth_in stylesheet.now parameters document.now) kept.key kept.but.items)) }
{
    let scene = Scene {
        since,
        document,
        stylesheet,
        name: &key.name,
    };
    let mut but = Vec::new(alloc);
    match nodes_that_stay(alloc, key.nodes.as_slice(), nodes, &scene, &mut but)? {
        None => Ok(None),
        Some(found) => with_values(alloc, &key.name, found, but),
    }
}

fn with_values(
    alloc: Global,
    name: &Expanded,
    nodes: Vec<Rc<OwnNode>>,
    but: Vec<Text>,
) -> Result<Option<KeptKey>, Memory>
    ensures name { IfOk result (λ o. IfSome o (λ kept. kept.key.name ≡ name.now)) }
    ensures nodes { IfOk result (λ o. IfSome o (λ kept. kept.key.nodes ≡ nodes)) }
    ensures but { IfOk result (λ o. IfSome o (λ kept. kept.but ≡ but)) }
{
    let Ok(key) = key_of(alloc, name, nodes) else {
        drop(but);
        return Err(Memory);
    };
    Ok(Some(KeptKey { key, but }))
}
