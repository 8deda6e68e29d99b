// What may stand among the children of an element, from a place on.

/// What may stand among the children of an element, from a place on.
#[derive(Clone, Copy, Debug, PartialEq, Eq)]
pub enum ContentKind {
    /// Nothing.
    Nothing,
    /// xsl:import elements, and then top-level elements (XSLT 1.0, section 2.6.2).
    Imports,
    /// Top-level elements (section 2.2).
    TopLevel,
    /// xsl:param elements, and then a body (section 5.3).
    Params,
    /// xsl:sort elements, and then a body (section 8).
    Sorts,
    /// Instructions, literal result elements and text.
    Body,
    /// xsl:sort and xsl:with-param elements (section 5.4).
    SortsAndParams,
    /// xsl:with-param elements (section 6).
    WithParams,
    /// xsl:attribute elements (section 7.1.4).
    Attributes,
    /// An xsl:when element, and then further ones and an xsl:otherwise (section 9.2).
    FirstBranch,
    /// xsl:when elements, and then an xsl:otherwise.
    Branches,
    /// Text alone (section 7.2).
    Text,
}
