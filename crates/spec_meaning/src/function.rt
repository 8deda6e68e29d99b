// The functions of expressions, by what they take.

/// Functions without arguments (XPath 1.0, sections 4.1 and 4.3; XSLT 1.0, section 12.4).
#[derive(Clone, Copy, Debug, PartialEq, Eq)]
pub enum ContextFunction {
    /// `last()`: the size of the context.
    Last,
    /// `position()`: the position in the context.
    Position,
    /// `true()`.
    True,
    /// `false()`.
    False,
    /// `current()`: the current node.
    Current,
}

/// Functions of a node-set (XPath 1.0, sections 4.1 and 4.4; XSLT 1.0, section 12.4). Without an argument it
/// is the context node alone.
#[derive(Clone, Copy, Debug, PartialEq, Eq)]
pub enum NodesFunction {
    /// `count`.
    Count,
    /// `sum`: of the numbers of the string-values.
    Sum,
    /// `local-name`: of the first node.
    LocalName,
    /// `namespace-uri`: of the first node.
    NamespaceUri,
    /// `name`: of the first node, as it is written.
    Name,
    /// `generate-id`: a text that tells the first node.
    GenerateId,
}

/// Functions of texts (XPath 1.0, section 4.2).
#[derive(Clone, Copy, Debug, PartialEq, Eq)]
pub enum TextsFunction {
    /// `concat`.
    Concat,
    /// `starts-with`.
    StartsWith,
    /// `contains`.
    Contains,
    /// `substring-before`.
    SubstringBefore,
    /// `substring-after`.
    SubstringAfter,
    /// `translate`.
    Translate,
}

/// Functions of one text (XPath 1.0, sections 4.2 and 4.3; XSLT 1.0, sections 12.4 and 15). Without an argument
/// it is the string-value of the context node.
#[derive(Clone, Copy, Debug, PartialEq, Eq)]
pub enum TextFunction {
    /// `string-length`.
    StringLength,
    /// `normalize-space`.
    NormalizeSpace,
    /// `lang`: whether the context node is in this language.
    Lang,
    /// `system-property`.
    SystemProperty,
    /// `element-available`.
    ElementAvailable,
    /// `function-available`.
    FunctionAvailable,
    /// `unparsed-entity-uri`: no document has an entity.
    UnparsedEntityUri,
}

/// Functions of one value (XPath 1.0, sections 4.1, 4.2, 4.3 and 4.4). Without an argument it is the context
/// node alone.
#[derive(Clone, Copy, Debug, PartialEq, Eq)]
pub enum ValueFunction {
    /// `string`.
    String,
    /// `number`.
    Number,
    /// `boolean`.
    Boolean,
    /// `not`.
    Not,
    /// `floor`, `ceiling` and `round`: of whole numbers, the number itself.
    Rounded,
    /// `id`: no element has an ID.
    Id,
}

/// A function.
#[derive(Clone, Copy, Debug, PartialEq, Eq)]
pub enum Function {
    /// One without arguments.
    OfContext(ContextFunction),
    /// One of a node-set.
    OfNodes(NodesFunction),
    /// One of texts.
    OfTexts(TextsFunction),
    /// One of one text.
    OfText(TextFunction),
    /// One of one value.
    OfValue(ValueFunction),
    /// `substring`: of a text and one or two numbers.
    Substring,
    /// `key`: of a name and a value.
    Key,
}
