// Where instructions stand.
ghost use Rattle.std.specs.Prelude.{◌≡◌, ◌∷◌, map, IfOk};
ghost use Rattle.xt_tree.specs.ValueView.{value_of};
ghost use Rattle.xt_questions.specs.View.{bindings_of};

use std::alloc::Global;
use std::rc::Rc;
use xt_names::Expanded;
use xt_questions::{Binding, Bindings, Context, Focus, ResolvedUnit};
use xt_syntax::{Instr, Site, SortKey};
use xt_text::Memory;
use xt_tree::{NodeRef, Value};

/// Where an instruction stands (XSLT 1.0, sections 1 and 11): the current node, the local variables in scope, how
/// deep its content stands below the level of the instantiation, and the unit, with what its names name.
#[derive(Drop)]
pub struct Standing {
    pub focus: Focus,
    pub bindings: Bindings,
    pub depth: u64,
    /// Whether the template rule of the instantiation is the current one; in the content of an xsl:for-each there is
    /// none (XSLT 1.0, section 5.6).
    pub ruled: bool,
    pub unit: Rc<ResolvedUnit>,
}

impl Standing {
    ghost use Rattle.std.specs.Prelude.{◌≡◌, IfOk};
    ghost use Rattle.spec_run.specs.Content.{at, context_at, with_variable};
    ghost use Rattle.xt_syntax.specs.PartView.{site_of};
    ghost use Rattle.xt_tree.specs.ValueView.{value_of};
    ghost use Rattle.xt_questions.specs.View.{context_of};
    ghost use Rattle.xt_frames.specs.View.{here_of};

    /// The same, shared.
    pub fn share(&self) -> Result<Standing, Memory>
        ensures here { IfOk result (λ s. here_of s ≡ here_of self.now) }
        ensures depth { IfOk result (λ s. s.depth ≡ self.now.depth) }
    {
        let bindings = self.bindings.share()?;
        let unit = self.unit.clone()?;
        Ok(Standing {
            focus: self.focus,
            bindings,
            depth: self.depth,
            ruled: self.ruled,
            unit,
        })
    }

    /// At one of so many nodes, by its position, where no template rule is the current one (XSLT 1.0, section 5.6).
    pub fn at(&self, node: NodeRef, position: u64, size: u64) -> Result<Standing, Memory>
        ensures here { IfOk result (λ s. here_of s ≡ at node position size (here_of self.now)) }
        ensures depth { IfOk result (λ s. s.depth ≡ self.now.depth) }
    {
        let shared = self.share()?;
        Ok(Standing {
            focus: Focus {
                node,
                position: Some(position),
                size: Some(size),
            },
            bindings: shared.bindings,
            depth: shared.depth,
            ruled: false,
            unit: shared.unit,
        })
    }

    /// The same with one more variable in scope.
    pub(crate) fn with_variable(
        self,
        alloc: Global,
        name: Expanded,
        value: Value,
    ) -> Result<Standing, Memory>
        ensures { IfOk result (λ s. here_of s ≡ with_variable name (value_of value) (here_of self)) }
    {
        let bindings = one_more(alloc, name, value, self.bindings)?;
        Ok(Standing {
            focus: self.focus,
            bindings,
            depth: self.depth,
            ruled: self.ruled,
            unit: self.unit,
        })
    }

    /// What an expression at this element sees beside the focus.
    pub fn context(&self, site: &Site) -> Result<Context, Memory>
        ensures context { IfOk result (λ c. context_of self.now.focus c ≡ context_at (here_of self.now) (site_of site.now)) }
        ensures depth { IfOk result (λ c. c.depth ≡ self.now.depth) }
    {
        let bindings = self.bindings.share()?;
        let scope = site.scope.copy()?;
        Ok(Context {
            current: self.focus.node,
            bindings,
            scope,
            depth: self.depth,
        })
    }
}

/// These variables, and one more inside them.
pub(crate) fn one_more(
    alloc: Global,
    name: Expanded,
    value: Value,
    outer: Bindings,
) -> Result<Bindings, Memory>
    ensures { IfOk result (λ b. bindings_of b ≡ (record { name = name; value = value_of value }) ∷ bindings_of outer) }
{
    let binding = Binding { name, value, outer };
    Ok(Bindings::More(Rc::new(alloc, binding)?))
}

/// The same content, shared.
pub fn share_content(content: &Rc<Vec<Instr>>) -> Result<Rc<Vec<Instr>>, Memory>
    ensures { IfOk result (λ c. c.value ≡ content.now.value) }
{
    Ok(content.clone()?)
}

/// The same sort keys, shared.
pub fn share_keys(keys: &Rc<Vec<SortKey>>) -> Result<Rc<Vec<SortKey>>, Memory>
    ensures { IfOk result (λ k. k.value ≡ keys.now.value) }
{
    Ok(keys.clone()?)
}

/// The same bindings, shared.
pub fn share_bindings(
    bindings: &Rc<Vec<xt_syntax::Binding>>,
) -> Result<Rc<Vec<xt_syntax::Binding>>, Memory>
    ensures { IfOk result (λ b. b.value ≡ bindings.now.value) }
{
    Ok(bindings.clone()?)
}
