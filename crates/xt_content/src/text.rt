// Texts among the children of an element.
ghost use Rattle.std.specs.Prelude.{◌≡◌, ◌++◌, IfOk, OnOk};
ghost use Rattle.spec_compile.specs.Content as spec;
ghost use Rattle.xt_content.specs.Sibling.{alone};
ghost use Rattle.xt_tree.specs.View.{forest_of, tree_of};

use std::alloc::Global;
use std::rc::Rc;
use xt_text::{Memory, Text};
use xt_tree::{Content, Node};

/// What the texts among these nodes are together.
pub(crate) fn text_among(alloc: Global, nodes: &[Rc<Node>]) -> Result<Text, Memory>
    ensures { IfOk result (λ text. text ≡ spec.text_among (forest_of nodes.now)) }
{
    let mut text = Text::new(alloc);
    for node in nodes {
        push_text(&mut text, node)?;
    }
    Ok(text)
}

fn push_text(text: &mut Text, node: &Node) -> Result<(), Memory>
    ensures { OnOk result (text.new ≡ text.old ++ spec.text_among (alone (tree_of node.now))) }
{
    match node.content() {
        Content::Text { text: more } => text.push_str(more.as_str()),
        Content::Element { .. } => Ok(()),
        Content::Comment { .. } => Ok(()),
        Content::Instruction { .. } => Ok(()),
    }
}
