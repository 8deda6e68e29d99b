// The names of the elements of XSLT.
ghost use Rattle.std.specs.Prelude.{◌≡◌, map};
ghost use Rattle.std.specs.Str.{chars};
ghost use Rattle.spec_structure.specs.Elements as spec;
ghost use Rattle.xt_structure.specs.View.{naming_of};

use crate::text::same;
use spec_structure::XsltElement;

struct Naming {
    word: &'static str,
    element: XsltElement,
}

const NAMES: [Naming; 35] = [
    Naming {
        word: "stylesheet",
        element: XsltElement::Stylesheet,
    },
    Naming {
        word: "transform",
        element: XsltElement::Transform,
    },
    Naming {
        word: "import",
        element: XsltElement::Import,
    },
    Naming {
        word: "include",
        element: XsltElement::Include,
    },
    Naming {
        word: "strip-space",
        element: XsltElement::StripSpace,
    },
    Naming {
        word: "preserve-space",
        element: XsltElement::PreserveSpace,
    },
    Naming {
        word: "output",
        element: XsltElement::Output,
    },
    Naming {
        word: "key",
        element: XsltElement::Key,
    },
    Naming {
        word: "decimal-format",
        element: XsltElement::DecimalFormat,
    },
    Naming {
        word: "namespace-alias",
        element: XsltElement::NamespaceAlias,
    },
    Naming {
        word: "attribute-set",
        element: XsltElement::AttributeSet,
    },
    Naming {
        word: "template",
        element: XsltElement::Template,
    },
    Naming {
        word: "param",
        element: XsltElement::Param,
    },
    Naming {
        word: "with-param",
        element: XsltElement::WithParam,
    },
    Naming {
        word: "variable",
        element: XsltElement::Variable,
    },
    Naming {
        word: "apply-templates",
        element: XsltElement::ApplyTemplates,
    },
    Naming {
        word: "apply-imports",
        element: XsltElement::ApplyImports,
    },
    Naming {
        word: "call-template",
        element: XsltElement::CallTemplate,
    },
    Naming {
        word: "for-each",
        element: XsltElement::ForEach,
    },
    Naming {
        word: "sort",
        element: XsltElement::Sort,
    },
    Naming {
        word: "value-of",
        element: XsltElement::ValueOf,
    },
    Naming {
        word: "copy-of",
        element: XsltElement::CopyOf,
    },
    Naming {
        word: "number",
        element: XsltElement::Number,
    },
    Naming {
        word: "choose",
        element: XsltElement::Choose,
    },
    Naming {
        word: "when",
        element: XsltElement::When,
    },
    Naming {
        word: "otherwise",
        element: XsltElement::Otherwise,
    },
    Naming {
        word: "if",
        element: XsltElement::If,
    },
    Naming {
        word: "fallback",
        element: XsltElement::Fallback,
    },
    Naming {
        word: "text",
        element: XsltElement::Text,
    },
    Naming {
        word: "element",
        element: XsltElement::Element,
    },
    Naming {
        word: "attribute",
        element: XsltElement::Attribute,
    },
    Naming {
        word: "comment",
        element: XsltElement::Comment,
    },
    Naming {
        word: "processing-instruction",
        element: XsltElement::ProcessingInstruction,
    },
    Naming {
        word: "copy",
        element: XsltElement::Copy,
    },
    Naming {
        word: "message",
        element: XsltElement::Message,
    },
];

/// The element of XSLT that has this local name. None exactly where there is none. Takes no memory.
#[tactic(auto, unfolding(spec_structure::specs::Elements::element_named))]
pub fn element_named(local: &str) -> Option<XsltElement>
    ensures { result ≡ spec.element_named (chars local.now) }
{
    element_in(&NAMES, local)
}

fn element_in(names: &[Naming], local: &str) -> Option<XsltElement>
    ensures { result ≡ spec.element_in (map naming_of names.now) (chars local.now) }
{
    for naming in names {
        if same(local, naming.word) {
            return Some(naming.element);
        }
    }
    None
}
