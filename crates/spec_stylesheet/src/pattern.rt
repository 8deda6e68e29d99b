// Parts of patterns, over texts and names of any type.

/// What stands before a step of a pattern (XSLT 1.0, section 5.2).
#[derive(Clone, Copy, Debug, PartialEq, Eq)]
pub enum Separator {
    /// `/`: the step leads from the node before it.
    Child,
    /// `//`: the step leads from the node before it, or from any node below that one.
    Descendant,
}

/// Where an alternative of a pattern starts (XSLT 1.0, section 5.2). `T` is the type of texts and `E`
/// that of expanded names.
#[derive(Drop)]
pub enum Start<T, E> {
    /// At any node: the pattern begins with a step, which has the separator `/`.
    Anywhere,
    /// At the root: the pattern begins with `/` or `//`.
    Root,
    /// At the elements with one of these IDs: `id('x')`.
    Id(T),
    /// At the nodes that have this value in the keys of this name: `key('k', 'x')`. Without a name,
    /// where the literal is no name or its prefix is not declared, at no node.
    Key(Option<E>, T),
}
