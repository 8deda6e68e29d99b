// The index of a key whose nodes and values are known.
ghost use Rattle.std.specs.Prelude.{◌≡◌, ℕ, IfOk, List, OnOk};
ghost use Rattle.spec_document.specs.Forest.{Document};
ghost use Rattle.spec_run.specs.Documents.{Parameters};
ghost use Rattle.xt_keys.specs.View.{AreNodesApart, nodes_found};
ghost use Rattle.xt_world.specs.SourceView.{AreFound};
ghost use Rattle.xt_world.specs.View.{truth_in};
ghost use Rattle.xt_world.specs.declared.stylesheet.Stylesheet.{Stylesheet};
ghost use Rattle.xt_own.specs.Keys.{IsKeyOf, having_in, nodes_of};

use crate::own_key::OwnKey;
use std::alloc::Global;
use xt_keys::{KeyIndex, grouped};
use xt_names::copy_name;
use xt_text::{Memory, Text};
use xt_world::{Found, FoundKeys};

/// Adds the index of the key, where some of its values may be others.
pub(crate) fn add_found(
    alloc: Global,
    found: &mut Vec<FoundKeys>,
    key: &OwnKey,
    but: &[Text],
) -> Result<(), Memory>
    requires { AreNodesApart (nodes_of key.now.nodes.items) }
    ensures { (s : Stylesheet) (parameters : Parameters) (document : Document ℕ) → AreFound s document found.old.items
        → IsKeyOf s (truth_in s parameters document) key.now → OnOk result (AreFound s document found.new.items) }
{
    if but.is_empty() {
        return Ok(());
    }
    let index = index_of(alloc, key)?;
    let Ok(name) = copy_name(alloc, &key.name) else {
        drop(index);
        return Err(Memory);
    };
    found.push(FoundKeys {
        name,
        found: Found::Index(index),
    })?;
    Ok(())
}

// No pattern and no use of an xsl:key is evaluated.
fn index_of(alloc: Global, key: &OwnKey) -> Result<KeyIndex, Memory>
    requires { AreNodesApart (nodes_of key.now.nodes.items) }
    ensures { IfOk result (λ index. (text : List ℕ) → nodes_found text index ≡ having_in text key.now.nodes.items) }
{
    let mut nodes = Vec::with_capacity(alloc, key.nodes.len())?;
    let mut lists = Vec::with_capacity(alloc, key.nodes.len())?;
    for own in &key.nodes {
        nodes.push(own.node)?;
        lists.push(copies(alloc, own.texts.as_slice())?)?;
    }
    grouped(alloc, nodes.as_slice(), lists.as_slice())
}

fn copies(alloc: Global, texts: &[Text]) -> Result<Vec<Text>, Memory>
    ensures { IfOk result (λ list. list.items ≡ texts.now) }
{
    let mut list = Vec::new(alloc);
    for text in texts {
        list.push(text.copy(alloc)?)?;
    }
    Ok(list)
}
