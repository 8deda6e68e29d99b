// What is made of what a content writes.
use xt_names::Namespace;
use xt_text::Text;

/// What a sink becomes in the one around it.
#[derive(Drop)]
pub enum Wrapping {
    /// An element with its name as written and the URI of that name, and the namespace nodes that are copied
    /// to it.
    Element {
        name: Text,
        uri: Text,
        namespaces: Vec<Namespace>,
    },
    /// What was to be an element whose name is no good: its content stands without its first attributes.
    Nameless,
    /// An attribute with its name as written and the URI of that name.
    Attribute {
        name: Text,
        uri: Text,
    },
    Comment,
    /// A processing instruction with its target.
    Instruction(Text),
    Message,
}
