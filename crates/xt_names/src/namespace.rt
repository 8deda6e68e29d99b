// Namespaces.
use xt_text::Text;

/// A namespace in scope (Namespaces in XML 1.0, section 6).
#[derive(Debug, Drop)]
pub struct Namespace {
    /// The prefix, empty for the default namespace.
    pub prefix: Text,
    /// The URI. For the default namespace the empty one means that there is none.
    pub uri: Text,
}
