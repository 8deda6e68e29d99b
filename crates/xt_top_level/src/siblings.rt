// The children of a stylesheet.
ghost use Rattle.std.specs.Prelude.{◌≡◌, ◌++◌, OnOk, map};
ghost use Rattle.spec_compile.specs.Unit as spec;
ghost use Rattle.xt_content.specs.Sibling.{alone};
ghost use Rattle.xt_content.specs.View.{IsAnswer, around_in};
ghost use Rattle.xt_tree.specs.View.{forest_of, tree_of};
ghost use Rattle.xt_top_level.specs.View.{said, top_levels_in, top_levels_of};

use crate::element::element_at;
use crate::top_level::TopLevel;
use std::alloc::Global;
use std::rc::Rc;
use xt_content::{Around, ContentFault};
use xt_text::{Memory, Path};
use xt_tree::{Content, Node};

/// What these siblings below the element at this path say, one after another.
pub(crate) fn top_levels_among(
    alloc: Global,
    around: &Around,
    path: &Path,
    siblings: &[Rc<Node>],
) -> Result<Vec<TopLevel>, ContentFault>
    ensures { IsAnswer top_levels_of (spec.top_levels_among (around_in around.now) path.now 1 (forest_of siblings.now)) result }
{
    let mut top_levels = Vec::new(alloc);
    for (i, sibling) in siblings.iter().enumerate() {
        let top_level = top_level_at(alloc, around, path, i as u64 + 1, sibling)?;
        push(&mut top_levels, top_level)?;
    }
    Ok(top_levels)
}

fn push(top_levels: &mut Vec<TopLevel>, top_level: Option<TopLevel>) -> Result<(), Memory>
    ensures { OnOk result (top_levels_in top_levels.new.items ≡ top_levels_in top_levels.old.items ++ said top_level) }
{
    match top_level {
        None => Ok(()),
        Some(top_level) => {
            top_levels.push(top_level)?;
            Ok(())
        }
    }
}

// What the node says that has this position below the element at this path: nothing where it is none of XSLT's.
fn top_level_at(
    alloc: Global,
    around: &Around,
    path: &Path,
    position: u64,
    node: &Node,
) -> Result<Option<TopLevel>, ContentFault>
    ensures { IsAnswer said (spec.top_levels_among (around_in around.now) path.now position (alone (tree_of node.now))) result }
{
    match node.content() {
        Content::Element { name, attributes } => element_at(
            alloc,
            around,
            path,
            position,
            name,
            attributes.as_slice(),
            node.children(),
        ),
        Content::Text { .. } => Ok(None),
        Content::Comment { .. } => Ok(None),
        Content::Instruction { .. } => Ok(None),
    }
}
