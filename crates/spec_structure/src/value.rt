// What the values of attributes are.

/// What the value of an attribute of an XSLT element is.
#[derive(Clone, Copy, Debug, PartialEq, Eq)]
pub enum ValueKind {
    /// Any text.
    Any,
    /// An expression (XPath 1.0, section 3).
    Expression,
    /// A pattern (XSLT 1.0, section 5.2).
    Pattern,
    /// An attribute value template (section 7.6.2).
    Template,
    /// A QName (section 2.4).
    Name,
    /// QNames, parted by white space (section 7.1.4).
    Names,
    /// Prefixes or `#default`, parted by white space (sections 7.1.1 and 14.1).
    Prefixes,
    /// A prefix or `#default` (section 7.1.1).
    Prefix,
    /// Name tests, parted by white space (section 3.4).
    Tests,
    /// `yes` or `no`.
    YesNo,
    /// `single`, `multiple` or `any` (section 7.7).
    Level,
    /// `xml`, `html`, `text` or a QName with a prefix (section 16).
    Method,
    /// A number (section 5.5).
    Priority,
}
