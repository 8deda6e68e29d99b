// Where siblings stand.

/// What siblings are to stand directly below.
#[derive(Clone, Copy, Debug, PartialEq, Eq)]
pub enum Parent {
    /// A root that has so many elements besides them.
    Root { elements: u64 },
    /// An element at this depth: a document element is at 1.
    Element { depth: u64 },
}
