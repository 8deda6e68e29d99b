// What an element of XSLT is to the element that holds it, by its name.
ghost use Rattle.std.specs.Prelude.{◌≡◌};
ghost use Rattle.xt_content.specs.Kind as spec;

use spec_structure::XsltElement;

/// What an element of XSLT is to the element that holds it.
#[derive(Clone, Copy)]
pub(crate) enum Kind {
    Parameter,
    SortKey,
    When,
    Otherwise,
    /// An instruction without a content.
    Simple(Simple),
    /// An instruction that makes something of its content.
    Container(Container),
    /// An instruction that says whether, how often or which contents run.
    Director(Director),
    /// An element that is part of no content.
    Nothing,
}

/// An instruction without a content.
#[derive(Clone, Copy)]
pub(crate) enum Simple {
    ValueOf,
    CopyOf,
    Number,
    ApplyImports,
    Fallback,
    Text,
}

/// An instruction that makes something of its content.
#[derive(Clone, Copy)]
pub(crate) enum Container {
    Element,
    Attribute,
    Comment,
    ProcessingInstruction,
    Copy,
    Variable,
    Message,
}

/// An instruction that says whether, how often or which contents run.
#[derive(Clone, Copy)]
pub(crate) enum Director {
    ForEach,
    If,
    Choose,
    ApplyTemplates,
    CallTemplate,
}

pub(crate) fn kind_of(element: XsltElement) -> Kind
    ensures { result ≡ spec.kind_of element }
{
    match element {
        XsltElement::Param => Kind::Parameter,
        XsltElement::WithParam => Kind::Parameter,
        XsltElement::Sort => Kind::SortKey,
        XsltElement::When => Kind::When,
        XsltElement::Otherwise => Kind::Otherwise,
        XsltElement::ValueOf => Kind::Simple(Simple::ValueOf),
        XsltElement::CopyOf => Kind::Simple(Simple::CopyOf),
        XsltElement::Number => Kind::Simple(Simple::Number),
        XsltElement::ApplyImports => Kind::Simple(Simple::ApplyImports),
        XsltElement::Fallback => Kind::Simple(Simple::Fallback),
        XsltElement::Text => Kind::Simple(Simple::Text),
        XsltElement::Element => Kind::Container(Container::Element),
        XsltElement::Attribute => Kind::Container(Container::Attribute),
        XsltElement::Comment => Kind::Container(Container::Comment),
        XsltElement::ProcessingInstruction => Kind::Container(Container::ProcessingInstruction),
        XsltElement::Copy => Kind::Container(Container::Copy),
        XsltElement::Variable => Kind::Container(Container::Variable),
        XsltElement::Message => Kind::Container(Container::Message),
        XsltElement::ForEach => Kind::Director(Director::ForEach),
        XsltElement::If => Kind::Director(Director::If),
        XsltElement::Choose => Kind::Director(Director::Choose),
        XsltElement::ApplyTemplates => Kind::Director(Director::ApplyTemplates),
        XsltElement::CallTemplate => Kind::Director(Director::CallTemplate),
        XsltElement::Stylesheet => Kind::Nothing,
        XsltElement::Transform => Kind::Nothing,
        XsltElement::Import => Kind::Nothing,
        XsltElement::Include => Kind::Nothing,
        XsltElement::StripSpace => Kind::Nothing,
        XsltElement::PreserveSpace => Kind::Nothing,
        XsltElement::Output => Kind::Nothing,
        XsltElement::Key => Kind::Nothing,
        XsltElement::DecimalFormat => Kind::Nothing,
        XsltElement::NamespaceAlias => Kind::Nothing,
        XsltElement::AttributeSet => Kind::Nothing,
        XsltElement::Template => Kind::Nothing,
    }
}
