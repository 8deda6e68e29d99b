// What elements at the top of a module declare.
use xt_content::{Outline, Uses};
use xt_names::Expanded;
use xt_syntax::{Alias, AttributeSet, GlobalBinding, Key, Method, Pattern, Site, Template, Test};

/// An element at the top of a module, with what it and the elements below it name.
#[derive(Drop)]
pub struct TopLevel {
    pub site: Site,
    pub declaration: Declaration,
    /// What the element itself names.
    pub uses: Uses,
    /// What the elements below it name.
    pub outline: Outline,
}

/// What an element at the top declares.
#[derive(Drop)]
pub enum Declaration {
    Template(RuleTemplate),
    Global(GlobalBinding),
    Set(AttributeSet),
    Key(Key),
    SpaceRule(NamedSpace),
    /// xsl:output, with the method that it names (XSLT 1.0, section 16).
    Output(Option<Method>),
    Alias(Alias),
}

/// An xsl:template with what makes it a template rule (XSLT 1.0, section 5.3).
#[derive(Drop)]
pub struct RuleTemplate {
    pub template: Template,
    /// Its `match`. A template without one is no rule.
    pub pattern: Option<Pattern>,
    /// In millionths. None stands for the default priorities of its alternatives (section 5.5).
    pub priority: Option<i64>,
    pub mode: Option<Expanded>,
}

/// An xsl:strip-space or xsl:preserve-space (XSLT 1.0, section 3.4).
#[derive(Drop)]
pub struct NamedSpace {
    /// Whether it is xsl:strip-space.
    pub strips: bool,
    pub tests: Vec<Test>,
}
