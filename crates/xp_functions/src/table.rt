// Names of functions and of instructions.
ghost use Rattle.std.specs.Prelude.{◌≡◌, List, map, bytes_eq};
ghost use Rattle.std.specs.List.{list_any};
ghost use Rattle.spec_meaning.specs.Function.{found_in, function_of, is_function, is_instruction, is_within, takes};
ghost use Rattle.std.specs.Prelude.{Option, None, Some, if◌then◌else◌};
ghost use Rattle.xp_functions.specs.Found.{found_or_refused, row_of, words_of};

use spec_expression::StaticCode;
use spec_meaning::{
    ContextFunction, Function, NodesFunction, TextFunction, TextsFunction, ValueFunction,
};
use xt_names::{Expanded, XSLT_URI};
use xt_text::Text;

/// A function, with the least and the greatest number of arguments that it takes; without a greatest one
/// there is no bound.
struct Row {
    name: &'static str,
    function: Function,
    least: usize,
    greatest: Option<usize>,
}

const ROWS: [Row; 34] = [
    Row {
        name: "last",
        function: Function::OfContext(ContextFunction::Last),
        least: 0,
        greatest: Some(0),
    },
    Row {
        name: "position",
        function: Function::OfContext(ContextFunction::Position),
        least: 0,
        greatest: Some(0),
    },
    Row {
        name: "true",
        function: Function::OfContext(ContextFunction::True),
        least: 0,
        greatest: Some(0),
    },
    Row {
        name: "false",
        function: Function::OfContext(ContextFunction::False),
        least: 0,
        greatest: Some(0),
    },
    Row {
        name: "current",
        function: Function::OfContext(ContextFunction::Current),
        least: 0,
        greatest: Some(0),
    },
    Row {
        name: "count",
        function: Function::OfNodes(NodesFunction::Count),
        least: 1,
        greatest: Some(1),
    },
    Row {
        name: "sum",
        function: Function::OfNodes(NodesFunction::Sum),
        least: 1,
        greatest: Some(1),
    },
    Row {
        name: "local-name",
        function: Function::OfNodes(NodesFunction::LocalName),
        least: 0,
        greatest: Some(1),
    },
    Row {
        name: "namespace-uri",
        function: Function::OfNodes(NodesFunction::NamespaceUri),
        least: 0,
        greatest: Some(1),
    },
    Row {
        name: "name",
        function: Function::OfNodes(NodesFunction::Name),
        least: 0,
        greatest: Some(1),
    },
    Row {
        name: "generate-id",
        function: Function::OfNodes(NodesFunction::GenerateId),
        least: 0,
        greatest: Some(1),
    },
    Row {
        name: "concat",
        function: Function::OfTexts(TextsFunction::Concat),
        least: 2,
        greatest: None,
    },
    Row {
        name: "starts-with",
        function: Function::OfTexts(TextsFunction::StartsWith),
        least: 2,
        greatest: Some(2),
    },
    Row {
        name: "contains",
        function: Function::OfTexts(TextsFunction::Contains),
        least: 2,
        greatest: Some(2),
    },
    Row {
        name: "substring-before",
        function: Function::OfTexts(TextsFunction::SubstringBefore),
        least: 2,
        greatest: Some(2),
    },
    Row {
        name: "substring-after",
        function: Function::OfTexts(TextsFunction::SubstringAfter),
        least: 2,
        greatest: Some(2),
    },
    Row {
        name: "translate",
        function: Function::OfTexts(TextsFunction::Translate),
        least: 3,
        greatest: Some(3),
    },
    Row {
        name: "string-length",
        function: Function::OfText(TextFunction::StringLength),
        least: 0,
        greatest: Some(1),
    },
    Row {
        name: "normalize-space",
        function: Function::OfText(TextFunction::NormalizeSpace),
        least: 0,
        greatest: Some(1),
    },
    Row {
        name: "lang",
        function: Function::OfText(TextFunction::Lang),
        least: 1,
        greatest: Some(1),
    },
    Row {
        name: "system-property",
        function: Function::OfText(TextFunction::SystemProperty),
        least: 1,
        greatest: Some(1),
    },
    Row {
        name: "element-available",
        function: Function::OfText(TextFunction::ElementAvailable),
        least: 1,
        greatest: Some(1),
    },
    Row {
        name: "function-available",
        function: Function::OfText(TextFunction::FunctionAvailable),
        least: 1,
        greatest: Some(1),
    },
    Row {
        name: "unparsed-entity-uri",
        function: Function::OfText(TextFunction::UnparsedEntityUri),
        least: 1,
        greatest: Some(1),
    },
    Row {
        name: "string",
        function: Function::OfValue(ValueFunction::String),
        least: 0,
        greatest: Some(1),
    },
    Row {
        name: "number",
        function: Function::OfValue(ValueFunction::Number),
        least: 0,
        greatest: Some(1),
    },
    Row {
        name: "boolean",
        function: Function::OfValue(ValueFunction::Boolean),
        least: 1,
        greatest: Some(1),
    },
    Row {
        name: "not",
        function: Function::OfValue(ValueFunction::Not),
        least: 1,
        greatest: Some(1),
    },
    Row {
        name: "floor",
        function: Function::OfValue(ValueFunction::Rounded),
        least: 1,
        greatest: Some(1),
    },
    Row {
        name: "ceiling",
        function: Function::OfValue(ValueFunction::Rounded),
        least: 1,
        greatest: Some(1),
    },
    Row {
        name: "round",
        function: Function::OfValue(ValueFunction::Rounded),
        least: 1,
        greatest: Some(1),
    },
    Row {
        name: "id",
        function: Function::OfValue(ValueFunction::Id),
        least: 1,
        greatest: Some(1),
    },
    Row {
        name: "substring",
        function: Function::Substring,
        least: 2,
        greatest: Some(3),
    },
    Row {
        name: "key",
        function: Function::Key,
        least: 2,
        greatest: Some(2),
    },
];

// The instructions of a stylesheet (XSLT 1.0).
const INSTRUCTIONS: [&str; 18] = [
    "apply-templates",
    "apply-imports",
    "call-template",
    "for-each",
    "value-of",
    "copy-of",
    "number",
    "choose",
    "if",
    "text",
    "element",
    "attribute",
    "comment",
    "processing-instruction",
    "copy",
    "message",
    "variable",
    "fallback",
];

/// The function of this name that takes so many arguments. S16 where the name has a prefix, where no function
/// has it, or where that function takes another number of arguments. Takes no memory.
pub fn find(name: &Expanded, arguments: usize) -> Result<Function, StaticCode>
    ensures { result ≡ found_or_refused (function_of name.now arguments) }
{
    match named(name, arguments) {
        Some(function) => Ok(function),
        None => Err(StaticCode::BadFunction),
    }
}

// The function of this name that takes so many arguments.
fn named(name: &Expanded, arguments: usize) -> Option<Function>
    ensures { result ≡ function_of name.now arguments }
{
    if name.uri().is_empty() {
        find_in(&ROWS, name.local(), arguments)
    } else {
        None
    }
}

// The function of the first row of this name, where it takes so many arguments.
fn find_in(rows: &[Row], name: &Text, arguments: usize) -> Option<Function>
    ensures { result ≡ found_in (map row_of rows.now) name.now arguments }
{
    for row in rows {
        if name.is(row.name) {
            return taking(row, arguments);
        }
    }
    None
}

// The function of the row, where it takes so many arguments.
fn taking(row: &Row, arguments: usize) -> Option<Function>
    ensures { result ≡ (if takes (row_of row.now) arguments then Some row.now.function else None) }
{
    if row.least <= arguments && is_within(arguments, row.greatest) {
        Some(row.function)
    } else {
        None
    }
}

fn is_within(arguments: usize, greatest: Option<usize>) -> bool
    ensures { result ≡ is_within arguments greatest }
{
    match greatest {
        Some(greatest) => arguments <= greatest,
        None => true,
    }
}

/// Whether a function has this name (XSLT 1.0, section 15, `function-available`). Takes no memory.
pub(crate) fn is_function(name: &Expanded) -> bool
    ensures { result ≡ is_function name.now }
{
    name.uri().is_empty() && has_row(&ROWS, name.local())
}

fn has_row(rows: &[Row], name: &Text) -> bool
    ensures { result ≡ list_any (λ r. bytes_eq name.now r.name) (map row_of rows.now) }
{
    for row in rows {
        if name.is(row.name) {
            return true;
        }
    }
    false
}

/// Whether an instruction of XSLT has this name (XSLT 1.0, section 15, `element-available`). Takes no memory.
pub(crate) fn is_instruction(name: &Expanded) -> bool
    ensures { result ≡ is_instruction name.now }
{
    name.uri().is(XSLT_URI) && has_word(&INSTRUCTIONS, name.local())
}

fn has_word(words: &[&str], name: &Text) -> bool
    ensures { result ≡ list_any (bytes_eq name.now) (words_of words.now) }
{
    for word in words {
        if name.is(word) {
            return true;
        }
    }
    false
}
