// Nodes of the tree.
ghost use Rattle.std.specs.Prelude.{◌≡◌, Some};
ghost use Rattle.std.specs.Option.{option_map};
ghost use Rattle.spec_document.specs.Place.{at_number, attributes_in, kind_by};
ghost use Rattle.xt_tree.specs.View.{content_of, forest_of, tree_of, written_of};
ghost use Rattle.xt_tree.specs.declared.node.Node.{out-Node};

use crate::NodeId;
use crate::indexed::Indexed;
use spec_document::Kind;
use std::rc::Rc;
use xt_text::Text;

/// An attribute or a namespace declaration, as written.
#[derive(Drop)]
pub struct Written {
    pub name: Text,
    pub value: Text,
}

/// What a node is, but for what is below it.
#[derive(Drop)]
pub enum Content {
    /// An element; declarations stand among the attributes in the order in which they were written.
    Element {
        name: Text,
        attributes: Vec<Written>,
    },
    /// A text, which is not empty.
    Text {
        text: Text,
    },
    /// A comment.
    Comment {
        text: Text,
    },
    /// A processing instruction.
    Instruction {
        target: Text,
        text: Text,
    },
}

impl Content {
    /// The kind of a node with this content.
    pub fn kind(&self) -> Kind
        ensures { result ≡ kind_by (Some (content_of self.now)) }
    {
        match self {
            Content::Element { .. } => Kind::Element,
            Content::Text { .. } => Kind::Text,
            Content::Comment { .. } => Kind::Comment,
            Content::Instruction { .. } => Kind::Instruction,
        }
    }
}

/// A node with its number and what is below it.
#[derive(Drop)]
pub struct Node {
    pub(crate) id: NodeId,
    pub(crate) content: Rc<Indexed>,
    pub(crate) children: Vec<Rc<Node>>,
}

impl Node {
    /// Its number.
    pub fn id(&self) -> NodeId
        ensures { result.number ≡ (tree_of self.now).number }
    {
        self.id
    }

    /// What it is.
    pub fn content(&self) -> &Content
        ensures { content_of result.now ≡ (tree_of self.now).content }
    {
        self.content.content()
    }

    // The attribute of this number, where there is one.
    pub(crate) fn attribute(&self, number: u64) -> Option<&Written>
        ensures { option_map (λ a. written_of a.now) result ≡ at_number number (attributes_in (Some (tree_of self.now).content)) }
    {
        self.content.attribute(number)
    }

    /// The nodes directly below it, in their order.
    pub fn children(&self) -> &[Rc<Node>]
        ensures forest { forest_of result.now ≡ (tree_of self.now).children }
        ensures list { result.now ≡ (out-Node self.now).children.items }
    {
        self.children.as_slice()
    }
}
