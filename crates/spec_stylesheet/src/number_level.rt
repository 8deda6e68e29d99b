// Which nodes are counted.

/// Which nodes xsl:number counts, by its `level` (XSLT 1.0, section 7.7).
#[derive(Clone, Copy, Debug, PartialEq, Eq)]
pub enum NumberLevel {
    /// Siblings of one ancestor-or-self.
    Single,
    /// Siblings of each ancestor-or-self.
    Multiple,
    /// All nodes up to the current one.
    Any,
}
