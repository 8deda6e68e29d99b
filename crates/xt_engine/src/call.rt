// What is entered, and why a run ends.
use spec_expression::DynCode;
use std::alloc::Global;
use xt_base::Place;
use xt_names::{Expanded, copy_name_if};
use xt_questions::{Bindings, CurrentRule, copy_place, copy_rule_if};
use xt_text::Memory;
use xt_tree::NodeRef;

/// Why a run ends: a code, and the element of the stylesheet where it stands. It stands at none where a
/// built-in rule was to enter.
#[derive(Drop)]
pub struct Refused {
    pub code: DynCode,
    pub place: Place,
}

impl Refused {
    ghost use Rattle.std.specs.Prelude.{◌≡◌, IfOk};
    ghost use Rattle.xt_engine.specs.View.{refused_of};

    /// The same, in memory of its own.
    pub fn copy(&self, alloc: Global) -> Result<Refused, Memory>
        ensures { IfOk result (λ r. refused_of r ≡ refused_of self.now) }
    {
        Ok(Refused {
            code: self.code,
            place: copy_place(alloc, &self.place)?,
        })
    }
}

/// What is entered.
#[derive(Drop)]
pub enum Target {
    /// The unit of this element of the stylesheet.
    Unit(NodeRef),
    /// A built-in rule, in this mode (XSLT 1.0, section 5.8).
    BuiltIn(Option<Expanded>),
}

/// The current template rule of what is entered (XSLT 1.0, section 5.6).
#[derive(Drop)]
pub enum Ruling {
    /// That of the instantiation that enters it.
    Same,
    /// This one; none where there is no such rule.
    Is(Option<CurrentRule>),
}

/// What is entered, and with what.
#[derive(Drop)]
pub struct Call {
    pub target: Target,
    pub node: NodeRef,
    /// The parameters that are passed.
    pub parameters: Bindings,
    /// From 1 on; where there is none, it is that of the instantiation that enters it.
    pub position: Option<u64>,
    /// Where there is none, it is that of the instantiation that enters it.
    pub size: Option<u64>,
    pub ruling: Ruling,
    /// The element that enters it.
    pub by: Place,
}

impl Target {
    ghost use Rattle.std.specs.Prelude.{◌≡◌, IfOk};
    ghost use Rattle.xt_engine.specs.View.{target_of};

    /// The same, in memory of its own.
    pub fn copy(&self, alloc: Global) -> Result<Target, Memory>
        ensures { IfOk result (λ t. target_of t ≡ target_of self.now) }
    {
        match self {
            Target::Unit(element) => Ok(Target::Unit(*element)),
            Target::BuiltIn(mode) => Ok(Target::BuiltIn(copy_name_if(alloc, mode)?)),
        }
    }
}

impl Ruling {
    ghost use Rattle.std.specs.Prelude.{◌≡◌, IfOk};
    ghost use Rattle.xt_engine.specs.View.{ruling_of};

    /// The same, in memory of its own.
    pub fn copy(&self, alloc: Global) -> Result<Ruling, Memory>
        ensures { IfOk result (λ r. ruling_of r ≡ ruling_of self.now) }
    {
        match self {
            Ruling::Same => Ok(Ruling::Same),
            Ruling::Is(rule) => Ok(Ruling::Is(copy_rule_if(alloc, rule)?)),
        }
    }
}

impl Call {
    ghost use Rattle.std.specs.Prelude.{◌≡◌, IfOk};
    ghost use Rattle.xt_engine.specs.View.{call_of};

    /// The same. The parameters are shared.
    pub fn copy(&self, alloc: Global) -> Result<Call, Memory>
        ensures { IfOk result (λ c. call_of c ≡ call_of self.now) }
    {
        let target = self.target.copy(alloc)?;
        let parameters = self.parameters.share()?;
        let ruling = self.ruling.copy(alloc)?;
        let by = copy_place(alloc, &self.by)?;
        Ok(Call {
            target,
            node: self.node,
            parameters,
            position: self.position,
            size: self.size,
            ruling,
            by,
        })
    }
}
