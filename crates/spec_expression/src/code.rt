// The codes of refused stylesheets and runs. Each variant stands for one number of the replies.
ghost use Rattle.std.specs.Prelude.{◌≡◌, Some};
ghost use Rattle.spec_expression.specs.Code.{static_number, dynamic_number, code_text};

use std::fmt;

/// Why a stylesheet is refused before it runs: the reply has `S` and the number, in two digits.
#[derive(Clone, Copy, Debug, PartialEq, Eq)]
pub enum StaticCode {
    /// No module is the principal one.
    NoMain = 1,
    /// No source is held.
    NoSource = 2,
    /// An href names no module.
    NoSuchModule = 3,
    /// Imports or includes lead back to the module.
    ImportCycle = 4,
    /// The document element is neither a stylesheet nor a literal result element with xsl:version (XSLT 1.0, 2.2 and 2.3).
    NoStylesheet = 5,
    /// The version is missing or not 1.0.
    BadVersion = 6,
    /// An XSLT element is unknown or misplaced, or a top-level element has no namespace.
    MisplacedElement = 7,
    /// An attribute is unknown, missing or of a value that it may not have.
    BadAttribute = 8,
    /// Text or a literal result element stands where none may stand.
    MisplacedContent = 9,
    /// An expression is not of the grammar (XPath 1.0, 3).
    BadExpression = 10,
    /// A pattern is not of the grammar (XSLT 1.0, 5.2).
    BadPattern = 11,
    /// Too many brackets are open at a token.
    TooManyBrackets = 12,
    /// A number has a fraction or is out of range, or a priority is no number.
    BadNumber = 13,
    /// A prefix is not declared.
    NoPrefix = 14,
    /// A name is no QName, or an item of a list of names is none that may stand there.
    BadName = 15,
    /// A function is unknown or has a wrong number of arguments.
    BadFunction = 16,
    /// A variable is not in scope (XSLT 1.0, 11.5).
    NoVariable = 17,
    /// A local binding shadows a local one (XSLT 1.0, 11.5).
    ShadowedVariable = 18,
    /// Two global variables have one name and precedence (XSLT 1.0, 11.4).
    DoubleGlobal = 19,
    /// Two templates have one name and precedence (XSLT 1.0, 6).
    DoubleTemplate = 20,
    /// No template has the name (XSLT 1.0, 6).
    NoTemplate = 21,
    /// An attribute set is unknown or uses itself (XSLT 1.0, 7.1.4).
    BadAttributeSet = 22,
    /// A binding has a select attribute and content (XSLT 1.0, 11.2).
    SelectAndContent = 23,
    /// A variable, current() or key() stands where it may not (XSLT 1.0, 5.3 and 12.2).
    BarredReference = 24,
    /// An extension element, or xsl:decimal-format.
    Extension = 25,
    /// A value template has a brace without its partner (XSLT 1.0, 7.6.2).
    BadValueTemplate = 26,
}

impl StaticCode {
    /// The number in the reply, from 1 to 26.
    pub fn number(self) -> u8
        ensures { result ≡ static_number self }
    {
        self as u8
    }
}

/// Why a run is refused: the reply has `D` and the number, in two digits.
#[derive(Clone, Copy, Debug, PartialEq, Eq)]
pub enum DynCode {
    /// A number has a fraction.
    Fraction = 1,
    /// A number is infinite.
    Infinite = 2,
    /// A number is out of range.
    Wide = 3,
    /// A value is no node-set where one is needed (XPath 1.0, 3.3).
    NoNodeSet = 4,
    /// A global variable needs itself (XSLT 1.0, 11.4).
    GlobalCycle = 6,
    /// xsl:apply-imports stands where no template rule is current (XSLT 1.0, 5.6).
    NoCurrentRule = 7,
    /// A name that was evaluated is no QName or target, or has an undeclared prefix.
    BadName = 8,
    /// The order or data type of a sort key is none (XSLT 1.0, 10).
    BadSort = 9,
    /// A message ended the run (XSLT 1.0, 13).
    Terminated = 10,
    /// The run would go below its greatest level.
    TooDeep = 11,
}

impl DynCode {
    /// The number in the reply, from 1 to 11; 5 is none.
    pub fn number(self) -> u8
        ensures { result ≡ dynamic_number self }
    {
        self as u8
    }
}

/// The code of a refusal.
#[derive(Clone, Copy, Debug, PartialEq, Eq)]
pub enum Code {
    /// The stylesheet is refused.
    Static(StaticCode),
    /// Its run is refused.
    Dynamic(DynCode),
}

/// Writes the code as it stands in replies, as `S10` or `D01`.
impl fmt::Display for Code {
    ghost output = { λ code. Some (code_text code) };

    fn fmt<W: fmt::Write>(&self, f: &mut fmt::Formatter<W>) -> fmt::Result {
        match self {
            Code::Static(code) => write!(f, "S{:02}", code.number()),
            Code::Dynamic(code) => write!(f, "D{:02}", code.number()),
        }
    }
}
