// What a stylesheet declares one by one (XSLT 1.0, sections 5, 6, 7.1.4, 11 and 12.2).
ghost use Rattle.std.specs.Prelude.{◌≡◌};
ghost use Rattle.std.specs.Bool.{Decides};
ghost use Rattle.spec_stylesheet.specs.Sheet as sheets;
ghost use Rattle.xt_syntax.specs.SheetView.{unit_of, declared_of, template_of, global_of, attribute_set_of, key_of};

use crate::alike::Alike;
use crate::expr::Expr;
use crate::instr::{Binding, Instr, same_bindings, same_instrs};
use crate::names::{same_name, same_names};
use crate::pattern::Pattern;
use crate::site::Site;
use std::rc::Rc;
use xt_names::Expanded;

/// A template, a global variable or parameter, an attribute set or a key: an element at the top of a
/// stylesheet that is run by itself.
#[derive(Drop)]
pub struct Unit {
    /// Its element, whose place always has a module.
    pub site: Site,
    /// The import precedence of its stylesheet, higher for what counts more (XSLT 1.0, section 2.6.2).
    pub precedence: u64,
    pub declared: Declared,
}

/// What a unit declares.
#[derive(Drop)]
pub enum Declared {
    Template(Template),
    Global(GlobalBinding),
    AttributeSet(AttributeSet),
    Key(Key),
}

/// An xsl:template, whose pattern and mode are with its rules (XSLT 1.0, sections 5.3 and 6).
#[derive(Drop)]
pub struct Template {
    pub name: Option<Expanded>,
    /// Each xsl:param with its default (XSLT 1.0, section 11.6).
    pub parameters: Rc<Vec<Binding>>,
    pub content: Rc<Vec<Instr>>,
}

/// An xsl:variable or xsl:param at the top (XSLT 1.0, section 11.4).
#[derive(Drop)]
pub struct GlobalBinding {
    /// Whether it is an xsl:param, whose value may be given from outside.
    pub is_parameter: bool,
    pub binding: Binding,
}

/// An xsl:attribute-set (XSLT 1.0, section 7.1.4).
#[derive(Drop)]
pub struct AttributeSet {
    pub name: Expanded,
    /// The names of the sets that it uses, in their order.
    pub sets: Vec<Expanded>,
    /// Its xsl:attribute instructions.
    pub attributes: Rc<Vec<Instr>>,
}

/// An xsl:key (XSLT 1.0, section 12.2).
#[derive(Drop)]
pub struct Key {
    pub name: Expanded,
    /// Its `match`.
    pub pattern: Pattern,
    /// Its `use`.
    pub value: Expr,
}

impl Template {
    /// Whether both are the same tree. Takes no memory.
    pub fn same(&self, other: &Template) -> bool
        ensures { Decides result (template_of self.now ≡ template_of other.now) }
    {
        same_name(&self.name, &other.name)
            && same_bindings(self.parameters.as_slice(), other.parameters.as_slice())
            && same_instrs(self.content.as_slice(), other.content.as_slice())
    }
}

impl GlobalBinding {
    /// Whether both are the same tree. Takes no memory.
    pub fn same(&self, other: &GlobalBinding) -> bool
        ensures { Decides result (global_of self.now ≡ global_of other.now) }
    {
        self.is_parameter == other.is_parameter && self.binding.same(&other.binding)
    }
}

impl AttributeSet {
    /// Whether both are the same tree. Takes no memory.
    pub fn same(&self, other: &AttributeSet) -> bool
        ensures { Decides result (attribute_set_of self.now ≡ attribute_set_of other.now) }
    {
        self.name.same(&other.name)
            && same_names(self.sets.as_slice(), other.sets.as_slice())
            && same_instrs(self.attributes.as_slice(), other.attributes.as_slice())
    }
}

impl Key {
    /// Whether both are the same tree. Takes no memory.
    pub fn same(&self, other: &Key) -> bool
        ensures { Decides result (key_of self.now ≡ key_of other.now) }
    {
        self.name.same(&other.name)
            && self.pattern.same(&other.pattern)
            && self.value.same(&other.value)
    }
}

impl Declared {
    /// Whether both are the same tree. Takes no memory.
    pub fn same(&self, other: &Declared) -> bool
        ensures { Decides result (declared_of self.now ≡ declared_of other.now) }
    {
        match (self, other) {
            (Declared::Template(template), Declared::Template(other)) => template.same(other),
            (Declared::Global(global), Declared::Global(other)) => global.same(other),
            (Declared::AttributeSet(set), Declared::AttributeSet(other)) => set.same(other),
            (Declared::Key(key), Declared::Key(other)) => key.same(other),
            _ => false,
        }
    }
}

impl Unit {
    /// Whether both are the same tree. Takes no memory.
    pub fn same(&self, other: &Unit) -> bool
        ensures { Decides result (unit_of self.now ≡ unit_of other.now) }
    {
        self.site.same(&other.site)
            && self.precedence == other.precedence
            && self.declared.same(&other.declared)
    }
}

impl Alike for Unit {
    ghost Seen = { sheets.Unit };

    ghost seen = { unit_of };

    fn alike(&self, other: &Unit) -> bool {
        self.same(other)
    }
}
