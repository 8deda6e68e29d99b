// Names of nodes.
ghost use Rattle.std.specs.Prelude.{◌≡◌};
ghost use Rattle.spec_node.specs.declared.node_ref.Part.TheVariants as Part;

/// The number of a node. Numbers that a document's nodes have are below 2^62.
#[derive(Clone, Copy, Debug, PartialEq, Eq)]
pub struct NodeId {
    pub number: u64,
}

/// What of a node is meant.
#[derive(Clone, Copy, Debug, PartialEq, Eq)]
pub enum Part {
    /// The node itself.
    Itself,
    /// The attribute of this number, from 1 in the order of the element's attributes. Namespace
    /// declarations are no attributes and are not counted.
    Attribute(u64),
    /// The namespace node of this number, from 1 in document order.
    Namespace(u64),
}

/// A node of a document: a node of the tree, or an attribute or a namespace node of an element.
#[derive(Clone, Copy, Debug, PartialEq, Eq)]
pub struct NodeRef {
    /// The node of the tree.
    pub node: NodeId,
    /// What of it is meant.
    pub part: Part,
}

impl NodeRef {
    /// The node of this number itself.
    pub const fn of(node: NodeId) -> NodeRef
        ensures { result ≡ record { node = node; part = Part.Itself } }
    {
        NodeRef {
            node,
            part: Part::Itself,
        }
    }
}
