// The kinds of node.

/// The seven kinds of node (XPath 1.0, section 5).
#[derive(Clone, Copy, Debug, PartialEq, Eq)]
pub enum Kind {
    Root,
    Element,
    Attribute,
    Namespace,
    Text,
    Comment,
    /// A processing instruction.
    Instruction,
}
