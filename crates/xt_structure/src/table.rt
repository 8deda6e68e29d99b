// The table of XSLT elements: which attributes they have, and where they may stand (XSLT 1.0, sections 2 to 16).
ghost use Rattle.std.specs.Prelude.{◌≡◌, map, if◌then◌else◌};
ghost use Rattle.spec_structure.specs.Elements as spec;
ghost use Rattle.xt_structure.specs.View.{row_of};

use spec_structure::{ContentKind, ValueKind, XsltElement};

/// An attribute that an element may have.
pub struct Row {
    pub name: &'static str,
    /// What its value is.
    pub kind: ValueKind,
    /// Whether the element must have it.
    pub is_required: bool,
}

static OF_STYLESHEET: [Row; 4] = [
    Row {
        name: "version",
        kind: ValueKind::Any,
        is_required: false,
    },
    Row {
        name: "id",
        kind: ValueKind::Any,
        is_required: false,
    },
    Row {
        name: "extension-element-prefixes",
        kind: ValueKind::Prefixes,
        is_required: false,
    },
    Row {
        name: "exclude-result-prefixes",
        kind: ValueKind::Prefixes,
        is_required: false,
    },
];

static OF_IMPORT: [Row; 1] = [Row {
    name: "href",
    kind: ValueKind::Any,
    is_required: true,
}];

static OF_SPACE: [Row; 1] = [Row {
    name: "elements",
    kind: ValueKind::Tests,
    is_required: true,
}];

static OF_OUTPUT: [Row; 10] = [
    Row {
        name: "method",
        kind: ValueKind::Method,
        is_required: false,
    },
    Row {
        name: "version",
        kind: ValueKind::Any,
        is_required: false,
    },
    Row {
        name: "encoding",
        kind: ValueKind::Any,
        is_required: false,
    },
    Row {
        name: "omit-xml-declaration",
        kind: ValueKind::Any,
        is_required: false,
    },
    Row {
        name: "standalone",
        kind: ValueKind::Any,
        is_required: false,
    },
    Row {
        name: "doctype-public",
        kind: ValueKind::Any,
        is_required: false,
    },
    Row {
        name: "doctype-system",
        kind: ValueKind::Any,
        is_required: false,
    },
    Row {
        name: "cdata-section-elements",
        kind: ValueKind::Any,
        is_required: false,
    },
    Row {
        name: "indent",
        kind: ValueKind::Any,
        is_required: false,
    },
    Row {
        name: "media-type",
        kind: ValueKind::Any,
        is_required: false,
    },
];

static OF_KEY: [Row; 3] = [
    Row {
        name: "name",
        kind: ValueKind::Name,
        is_required: true,
    },
    Row {
        name: "match",
        kind: ValueKind::Pattern,
        is_required: true,
    },
    Row {
        name: "use",
        kind: ValueKind::Expression,
        is_required: true,
    },
];

static NONE: [Row; 0] = [];

static OF_NAMESPACE_ALIAS: [Row; 2] = [
    Row {
        name: "stylesheet-prefix",
        kind: ValueKind::Prefix,
        is_required: true,
    },
    Row {
        name: "result-prefix",
        kind: ValueKind::Prefix,
        is_required: true,
    },
];

static OF_ATTRIBUTE_SET: [Row; 2] = [
    Row {
        name: "name",
        kind: ValueKind::Name,
        is_required: true,
    },
    Row {
        name: "use-attribute-sets",
        kind: ValueKind::Names,
        is_required: false,
    },
];

static OF_TEMPLATE: [Row; 4] = [
    Row {
        name: "match",
        kind: ValueKind::Pattern,
        is_required: false,
    },
    Row {
        name: "name",
        kind: ValueKind::Name,
        is_required: false,
    },
    Row {
        name: "priority",
        kind: ValueKind::Priority,
        is_required: false,
    },
    Row {
        name: "mode",
        kind: ValueKind::Name,
        is_required: false,
    },
];

static OF_BINDING: [Row; 2] = [
    Row {
        name: "name",
        kind: ValueKind::Name,
        is_required: true,
    },
    Row {
        name: "select",
        kind: ValueKind::Expression,
        is_required: false,
    },
];

static OF_APPLY_TEMPLATES: [Row; 2] = [
    Row {
        name: "select",
        kind: ValueKind::Expression,
        is_required: false,
    },
    Row {
        name: "mode",
        kind: ValueKind::Name,
        is_required: false,
    },
];

static OF_CALL_TEMPLATE: [Row; 1] = [Row {
    name: "name",
    kind: ValueKind::Name,
    is_required: true,
}];

static OF_SELECT: [Row; 1] = [Row {
    name: "select",
    kind: ValueKind::Expression,
    is_required: true,
}];

static OF_SORT: [Row; 5] = [
    Row {
        name: "select",
        kind: ValueKind::Expression,
        is_required: false,
    },
    Row {
        name: "lang",
        kind: ValueKind::Template,
        is_required: false,
    },
    Row {
        name: "data-type",
        kind: ValueKind::Template,
        is_required: false,
    },
    Row {
        name: "order",
        kind: ValueKind::Template,
        is_required: false,
    },
    Row {
        name: "case-order",
        kind: ValueKind::Template,
        is_required: false,
    },
];

static OF_VALUE_OF: [Row; 2] = [
    Row {
        name: "select",
        kind: ValueKind::Expression,
        is_required: true,
    },
    Row {
        name: "disable-output-escaping",
        kind: ValueKind::YesNo,
        is_required: false,
    },
];

static OF_NUMBER: [Row; 9] = [
    Row {
        name: "level",
        kind: ValueKind::Level,
        is_required: false,
    },
    Row {
        name: "count",
        kind: ValueKind::Pattern,
        is_required: false,
    },
    Row {
        name: "from",
        kind: ValueKind::Pattern,
        is_required: false,
    },
    Row {
        name: "value",
        kind: ValueKind::Expression,
        is_required: false,
    },
    Row {
        name: "format",
        kind: ValueKind::Template,
        is_required: false,
    },
    Row {
        name: "lang",
        kind: ValueKind::Template,
        is_required: false,
    },
    Row {
        name: "letter-value",
        kind: ValueKind::Template,
        is_required: false,
    },
    Row {
        name: "grouping-separator",
        kind: ValueKind::Template,
        is_required: false,
    },
    Row {
        name: "grouping-size",
        kind: ValueKind::Template,
        is_required: false,
    },
];

static OF_TEST: [Row; 1] = [Row {
    name: "test",
    kind: ValueKind::Expression,
    is_required: true,
}];

static OF_TEXT: [Row; 1] = [Row {
    name: "disable-output-escaping",
    kind: ValueKind::YesNo,
    is_required: false,
}];

static OF_ELEMENT: [Row; 3] = [
    Row {
        name: "name",
        kind: ValueKind::Template,
        is_required: true,
    },
    Row {
        name: "namespace",
        kind: ValueKind::Template,
        is_required: false,
    },
    Row {
        name: "use-attribute-sets",
        kind: ValueKind::Names,
        is_required: false,
    },
];

static OF_ATTRIBUTE: [Row; 2] = [
    Row {
        name: "name",
        kind: ValueKind::Template,
        is_required: true,
    },
    Row {
        name: "namespace",
        kind: ValueKind::Template,
        is_required: false,
    },
];

static OF_PROCESSING_INSTRUCTION: [Row; 1] = [Row {
    name: "name",
    kind: ValueKind::Template,
    is_required: true,
}];

static OF_COPY: [Row; 1] = [Row {
    name: "use-attribute-sets",
    kind: ValueKind::Names,
    is_required: false,
}];

static OF_MESSAGE: [Row; 1] = [Row {
    name: "terminate",
    kind: ValueKind::YesNo,
    is_required: false,
}];

static OF_LITERAL: [Row; 4] = [
    Row {
        name: "version",
        kind: ValueKind::Any,
        is_required: false,
    },
    Row {
        name: "use-attribute-sets",
        kind: ValueKind::Names,
        is_required: false,
    },
    Row {
        name: "exclude-result-prefixes",
        kind: ValueKind::Prefixes,
        is_required: false,
    },
    Row {
        name: "extension-element-prefixes",
        kind: ValueKind::Prefixes,
        is_required: false,
    },
];

/// The attributes that the element may have, in the order in which they are evaluated.
pub fn rows_of(element: XsltElement) -> &'static [Row]
    ensures { map row_of result.now ≡ spec.rows_of element }
{
    match element {
        XsltElement::Stylesheet => &OF_STYLESHEET,
        XsltElement::Transform => &OF_STYLESHEET,
        XsltElement::Import => &OF_IMPORT,
        XsltElement::Include => &OF_IMPORT,
        XsltElement::StripSpace => &OF_SPACE,
        XsltElement::PreserveSpace => &OF_SPACE,
        XsltElement::Output => &OF_OUTPUT,
        XsltElement::Key => &OF_KEY,
        XsltElement::DecimalFormat => &NONE,
        XsltElement::NamespaceAlias => &OF_NAMESPACE_ALIAS,
        XsltElement::AttributeSet => &OF_ATTRIBUTE_SET,
        XsltElement::Template => &OF_TEMPLATE,
        XsltElement::Param => &OF_BINDING,
        XsltElement::WithParam => &OF_BINDING,
        XsltElement::Variable => &OF_BINDING,
        XsltElement::ApplyTemplates => &OF_APPLY_TEMPLATES,
        XsltElement::ApplyImports => &NONE,
        XsltElement::CallTemplate => &OF_CALL_TEMPLATE,
        XsltElement::ForEach => &OF_SELECT,
        XsltElement::Sort => &OF_SORT,
        XsltElement::ValueOf => &OF_VALUE_OF,
        XsltElement::CopyOf => &OF_SELECT,
        XsltElement::Number => &OF_NUMBER,
        XsltElement::Choose => &NONE,
        XsltElement::When => &OF_TEST,
        XsltElement::Otherwise => &NONE,
        XsltElement::If => &OF_TEST,
        XsltElement::Fallback => &NONE,
        XsltElement::Text => &OF_TEXT,
        XsltElement::Element => &OF_ELEMENT,
        XsltElement::Attribute => &OF_ATTRIBUTE,
        XsltElement::Comment => &NONE,
        XsltElement::ProcessingInstruction => &OF_PROCESSING_INSTRUCTION,
        XsltElement::Copy => &OF_COPY,
        XsltElement::Message => &OF_MESSAGE,
    }
}

/// The attributes of XSLT's namespace that a literal result element may have (section 7.1.1).
pub fn literal_rows() -> &'static [Row]
    ensures { map row_of result.now ≡ spec.literal_rows }
{
    &OF_LITERAL
}

/// What the element may contain.
#[tactic(auto, unfolding(spec_structure::specs::Elements::content_of))]
pub fn content_of(element: XsltElement) -> ContentKind
    ensures { result ≡ spec.content_of element }
{
    match element {
        XsltElement::Stylesheet => ContentKind::Imports,
        XsltElement::Transform => ContentKind::Imports,
        XsltElement::AttributeSet => ContentKind::Attributes,
        XsltElement::Template => ContentKind::Params,
        XsltElement::Param => ContentKind::Body,
        XsltElement::WithParam => ContentKind::Body,
        XsltElement::Variable => ContentKind::Body,
        XsltElement::ApplyTemplates => ContentKind::SortsAndParams,
        XsltElement::CallTemplate => ContentKind::WithParams,
        XsltElement::ForEach => ContentKind::Sorts,
        XsltElement::Choose => ContentKind::FirstBranch,
        XsltElement::When => ContentKind::Body,
        XsltElement::Otherwise => ContentKind::Body,
        XsltElement::If => ContentKind::Body,
        XsltElement::Fallback => ContentKind::Body,
        XsltElement::Text => ContentKind::Text,
        XsltElement::Element => ContentKind::Body,
        XsltElement::Attribute => ContentKind::Body,
        XsltElement::Comment => ContentKind::Body,
        XsltElement::ProcessingInstruction => ContentKind::Body,
        XsltElement::Copy => ContentKind::Body,
        XsltElement::Message => ContentKind::Body,
        XsltElement::Import => ContentKind::Nothing,
        XsltElement::Include => ContentKind::Nothing,
        XsltElement::StripSpace => ContentKind::Nothing,
        XsltElement::PreserveSpace => ContentKind::Nothing,
        XsltElement::Output => ContentKind::Nothing,
        XsltElement::Key => ContentKind::Nothing,
        XsltElement::DecimalFormat => ContentKind::Nothing,
        XsltElement::NamespaceAlias => ContentKind::Nothing,
        XsltElement::ApplyImports => ContentKind::Nothing,
        XsltElement::Sort => ContentKind::Nothing,
        XsltElement::ValueOf => ContentKind::Nothing,
        XsltElement::CopyOf => ContentKind::Nothing,
        XsltElement::Number => ContentKind::Nothing,
    }
}

/// Whether it stands at the top, after the imports (section 2.2).
pub fn is_top_level(element: XsltElement) -> bool
    ensures { result ≡ spec.is_top_level element }
{
    matches!(
        element,
        XsltElement::Include
            | XsltElement::StripSpace
            | XsltElement::PreserveSpace
            | XsltElement::Output
            | XsltElement::Key
            | XsltElement::NamespaceAlias
            | XsltElement::AttributeSet
            | XsltElement::Template
            | XsltElement::Param
            | XsltElement::Variable
    )
}

/// Whether it is an instruction, which element-available knows (section 15).
pub fn is_instruction(element: XsltElement) -> bool
    ensures { result ≡ spec.is_instruction element }
{
    matches!(
        element,
        XsltElement::Variable
            | XsltElement::ApplyTemplates
            | XsltElement::ApplyImports
            | XsltElement::CallTemplate
            | XsltElement::ForEach
            | XsltElement::ValueOf
            | XsltElement::CopyOf
            | XsltElement::Number
            | XsltElement::Choose
            | XsltElement::If
            | XsltElement::Fallback
            | XsltElement::Text
            | XsltElement::Element
            | XsltElement::Attribute
            | XsltElement::Comment
            | XsltElement::ProcessingInstruction
            | XsltElement::Copy
            | XsltElement::Message
    )
}

fn is_import(element: XsltElement) -> bool
    ensures { result ≡ spec.is_import element }
{
    matches!(element, XsltElement::Import)
}

fn is_param(element: XsltElement) -> bool
    ensures { result ≡ spec.is_param element }
{
    matches!(element, XsltElement::Param)
}

fn is_with_param(element: XsltElement) -> bool
    ensures { result ≡ spec.is_with_param element }
{
    matches!(element, XsltElement::WithParam)
}

fn is_sort(element: XsltElement) -> bool
    ensures { result ≡ spec.is_sort element }
{
    matches!(element, XsltElement::Sort)
}

fn is_attribute(element: XsltElement) -> bool
    ensures { result ≡ spec.is_attribute element }
{
    matches!(element, XsltElement::Attribute)
}

fn is_when(element: XsltElement) -> bool
    ensures { result ≡ spec.is_when element }
{
    matches!(element, XsltElement::When)
}

fn is_otherwise(element: XsltElement) -> bool
    ensures { result ≡ spec.is_otherwise element }
{
    matches!(element, XsltElement::Otherwise)
}

/// Whether the element may stand where these contents may.
#[tactic(auto, unfolding(spec_structure::specs::Elements::allows))]
pub fn allows(kind: ContentKind, element: XsltElement) -> bool
    ensures { result ≡ spec.allows kind element }
{
    match kind {
        ContentKind::Nothing => false,
        ContentKind::Imports => is_import(element) || is_top_level(element),
        ContentKind::TopLevel => is_top_level(element),
        ContentKind::Params => is_param(element) || is_instruction(element),
        ContentKind::Sorts => is_sort(element) || is_instruction(element),
        ContentKind::Body => is_instruction(element),
        ContentKind::SortsAndParams => is_sort(element) || is_with_param(element),
        ContentKind::WithParams => is_with_param(element),
        ContentKind::Attributes => is_attribute(element),
        ContentKind::FirstBranch => is_when(element),
        ContentKind::Branches => is_when(element) || is_otherwise(element),
        ContentKind::Text => false,
    }
}

fn either(test: bool, yes: ContentKind, no: ContentKind) -> ContentKind
    ensures { result ≡ (if test then yes else no) }
{
    if test { yes } else { no }
}

/// What may stand after the element, which stands where these contents may.
#[tactic(auto, unfolding(spec_structure::specs::Elements::after_element))]
pub fn after_element(kind: ContentKind, element: XsltElement) -> ContentKind
    ensures { result ≡ spec.after_element kind element }
{
    match kind {
        ContentKind::Imports => either(
            is_import(element),
            ContentKind::Imports,
            ContentKind::TopLevel,
        ),
        ContentKind::Params => either(is_param(element), ContentKind::Params, ContentKind::Body),
        ContentKind::Sorts => either(is_sort(element), ContentKind::Sorts, ContentKind::Body),
        ContentKind::FirstBranch => ContentKind::Branches,
        ContentKind::Branches => either(
            is_when(element),
            ContentKind::Branches,
            ContentKind::Nothing,
        ),
        ContentKind::Nothing => ContentKind::Nothing,
        ContentKind::TopLevel => ContentKind::TopLevel,
        ContentKind::Body => ContentKind::Body,
        ContentKind::SortsAndParams => ContentKind::SortsAndParams,
        ContentKind::WithParams => ContentKind::WithParams,
        ContentKind::Attributes => ContentKind::Attributes,
        ContentKind::Text => ContentKind::Text,
    }
}

/// Whether text and literal result elements may stand there.
pub fn takes_literals(kind: ContentKind) -> bool
    ensures { result ≡ spec.takes_literals kind }
{
    matches!(
        kind,
        ContentKind::Params | ContentKind::Sorts | ContentKind::Body
    )
}

/// Whether text may stand there.
pub fn takes_text(kind: ContentKind) -> bool
    ensures { result ≡ spec.takes_text kind }
{
    matches!(
        kind,
        ContentKind::Text | ContentKind::Params | ContentKind::Sorts | ContentKind::Body
    )
}

/// Whether the elements there are top-level elements.
pub fn is_top(kind: ContentKind) -> bool
    ensures { result ≡ spec.is_top kind }
{
    matches!(kind, ContentKind::Imports | ContentKind::TopLevel)
}

/// What may stand after a text that is not white space, a literal result element, or an element at the top that
/// is not XSLT's.
pub fn after_other(kind: ContentKind) -> ContentKind
    ensures { result ≡ spec.after_other kind }
{
    match kind {
        ContentKind::Imports => ContentKind::TopLevel,
        ContentKind::Params => ContentKind::Body,
        ContentKind::Sorts => ContentKind::Body,
        _ => kind,
    }
}
