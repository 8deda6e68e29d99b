// Instructions (XSLT 1.0, sections 5 to 13).
ghost use Rattle.std.specs.Prelude.{◌≡◌, map};
ghost use Rattle.std.specs.Bool.{Decides};
ghost use Rattle.spec_stylesheet.specs.Instruction.{instrs, bindings, branches};
ghost use Rattle.xt_syntax.specs.InstrView.{instr_of, form_of, control_of, binding_of, branch_of, selection_of};

use crate::alike::{all_alike, both_alike};
use crate::expr::Expr;
use crate::names::same_name;
use crate::site::Site;
use crate::sort_key::SortKey;
use crate::with_content::WithContent;
use crate::without_content::WithoutContent;
use std::rc::Rc;
use xt_names::Expanded;

/// An instruction, a literal result element or a text in a template (XSLT 1.0, sections 5 to 13).
#[cycle(instr)]
#[derive(Drop)]
pub struct Instr {
    /// Its element; of a text in no xsl:text, the element that holds it.
    pub site: Site,
    pub form: Form,
}

/// What an instruction is, with all that it contains. Contents are shared with whatever runs them.
#[cycle(instr)]
#[derive(Drop)]
pub enum Form {
    /// An instruction without a content.
    WithoutContent(WithoutContent),
    /// An instruction that makes something of its content.
    WithContent(WithContent, Rc<Vec<Instr>>),
    /// An instruction that says whether, how often or which contents run.
    Control(Control),
}

/// An instruction that says whether, how often or which contents run.
#[cycle(instr)]
#[derive(Drop)]
pub enum Control {
    /// xsl:for-each, with what it selects, how that is sorted, and its content (XSLT 1.0, section 8).
    ForEach(Expr, Rc<Vec<SortKey>>, Rc<Vec<Instr>>),
    /// An xsl:for-each whose content stands in a template of its own, of this name, with what is passed to it. No
    /// document has it: it is left where contents were lifted.
    ForItems(Expr, Rc<Vec<SortKey>>, Expanded, Rc<Vec<Binding>>),
    /// xsl:if, with its test and its content (XSLT 1.0, section 9.1).
    If(Expr, Rc<Vec<Instr>>),
    /// xsl:choose, with at least one branch (XSLT 1.0, section 9.2).
    Choose(Rc<Vec<Branch>>),
    /// xsl:apply-templates, with its parameters (XSLT 1.0, section 5.4).
    ApplyTemplates(Selection, Rc<Vec<Binding>>),
    /// xsl:call-template, with the template's name and its parameters (XSLT 1.0, section 6).
    CallTemplate(Expanded, Rc<Vec<Binding>>),
}

/// An xsl:when, or an xsl:otherwise, which has no test and stands last (XSLT 1.0, section 9.2).
#[cycle(instr)]
#[derive(Drop)]
pub struct Branch {
    pub site: Site,
    pub test: Option<Expr>,
    pub content: Rc<Vec<Instr>>,
}

/// An xsl:param, xsl:with-param or global xsl:variable (XSLT 1.0, section 11). Where it selects
/// something, its content is empty.
#[cycle(instr)]
#[derive(Drop)]
pub struct Binding {
    pub site: Site,
    pub name: Expanded,
    pub select: Option<Expr>,
    pub content: Rc<Vec<Instr>>,
}

/// Which nodes xsl:apply-templates takes, in which order and mode (XSLT 1.0, sections 5.4 and 5.7).
#[derive(Drop)]
pub struct Selection {
    /// Its default `node()` where it is missing.
    pub select: Expr,
    pub mode: Option<Expanded>,
    pub keys: Rc<Vec<SortKey>>,
}

impl Selection {
    /// Whether both are the same tree. Takes no memory.
    pub fn same(&self, other: &Selection) -> bool
        ensures { Decides result (selection_of self.now ≡ selection_of other.now) }
    {
        self.select.same(&other.select)
            && same_name(&self.mode, &other.mode)
            && all_alike(self.keys.as_slice(), other.keys.as_slice())
    }
}

impl Instr {
    /// Whether both are the same tree. Takes no memory.
    #[cycle(same)]
    pub fn same(&self, other: &Instr) -> bool
        ensures { Decides result (instr_of self.now ≡ instr_of other.now) }
    {
        self.site.same(&other.site) && self.form.same(&other.form)
    }
}

impl Form {
    /// Whether both are the same tree. Takes no memory.
    #[cycle(same)]
    pub fn same(&self, other: &Form) -> bool
        ensures { Decides result (form_of self.now ≡ form_of other.now) }
    {
        match (self, other) {
            (Form::WithoutContent(instr), Form::WithoutContent(other)) => instr.same(other),
            (Form::WithContent(instr, content), Form::WithContent(other, others)) => {
                instr.same(other) && same_instrs(content.as_slice(), others.as_slice())
            }
            (Form::Control(control), Form::Control(other)) => control.same(other),
            _ => false,
        }
    }
}

impl Control {
    /// Whether both are the same tree. Takes no memory.
    #[cycle(same)]
    pub fn same(&self, other: &Control) -> bool
        ensures { Decides result (control_of self.now ≡ control_of other.now) }
    {
        match (self, other) {
            (
                Control::ForEach(select, keys, content),
                Control::ForEach(other, other_keys, others),
            ) => {
                select.same(other)
                    && all_alike(keys.as_slice(), other_keys.as_slice())
                    && same_instrs(content.as_slice(), others.as_slice())
            }
            (
                Control::ForItems(select, keys, name, bindings),
                Control::ForItems(other, other_keys, other_name, others),
            ) => {
                select.same(other)
                    && all_alike(keys.as_slice(), other_keys.as_slice())
                    && name.same(other_name)
                    && same_bindings(bindings.as_slice(), others.as_slice())
            }
            (Control::If(test, content), Control::If(other, others)) => {
                test.same(other) && same_instrs(content.as_slice(), others.as_slice())
            }
            (Control::Choose(branches), Control::Choose(others)) => {
                same_branches(branches.as_slice(), others.as_slice())
            }
            (
                Control::ApplyTemplates(selection, bindings),
                Control::ApplyTemplates(other, others),
            ) => { selection.same(other) && same_bindings(bindings.as_slice(), others.as_slice()) }
            (Control::CallTemplate(name, bindings), Control::CallTemplate(other, others)) => {
                name.same(other) && same_bindings(bindings.as_slice(), others.as_slice())
            }
            _ => false,
        }
    }
}

impl Branch {
    /// Whether both are the same tree. Takes no memory.
    #[cycle(same)]
    pub fn same(&self, other: &Branch) -> bool
        ensures { Decides result (branch_of self.now ≡ branch_of other.now) }
    {
        self.site.same(&other.site)
            && both_alike(&self.test, &other.test)
            && same_instrs(self.content.as_slice(), other.content.as_slice())
    }
}

impl Binding {
    /// Whether both are the same tree. Takes no memory.
    #[cycle(same)]
    pub fn same(&self, other: &Binding) -> bool
        ensures { Decides result (binding_of self.now ≡ binding_of other.now) }
    {
        self.site.same(&other.site)
            && self.name.same(&other.name)
            && both_alike(&self.select, &other.select)
            && same_instrs(self.content.as_slice(), other.content.as_slice())
    }
}

/// Whether both lists have the same instructions in the same order.
#[cycle(same)]
pub(crate) fn same_instrs(list: &[Instr], others: &[Instr]) -> bool
    ensures { Decides result (instrs (map instr_of list.now) ≡ instrs (map instr_of others.now)) }
{
    if list.len() != others.len() {
        return false;
    }
    for (index, instr) in list.iter().enumerate() {
        if !instr.same(&others[index]) {
            return false;
        }
    }
    true
}

/// Whether both lists have the same branches in the same order.
#[cycle(same)]
fn same_branches(list: &[Branch], others: &[Branch]) -> bool
    ensures { Decides result (branches (map branch_of list.now) ≡ branches (map branch_of others.now)) }
{
    if list.len() != others.len() {
        return false;
    }
    for (index, branch) in list.iter().enumerate() {
        if !branch.same(&others[index]) {
            return false;
        }
    }
    true
}

/// Whether both lists have the same bindings in the same order.
#[cycle(same)]
pub(crate) fn same_bindings(list: &[Binding], others: &[Binding]) -> bool
    ensures { Decides result (bindings (map binding_of list.now) ≡ bindings (map binding_of others.now)) }
{
    if list.len() != others.len() {
        return false;
    }
    for (index, binding) in list.iter().enumerate() {
        if !binding.same(&others[index]) {
            return false;
        }
    }
    true
}
