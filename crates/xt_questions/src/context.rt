// Where an expression stands, and what is at hand of what its run gives.
ghost use Rattle.std.specs.Prelude.{◌≡◌, IfOk};
ghost use Rattle.std.specs.Option.{option_map};
ghost use Rattle.spec_meaning.specs.Context.{binding_of};
ghost use Rattle.xt_tree.specs.ValueView.{value_of};
ghost use Rattle.xt_questions.specs.View.{bindings_of};

use crate::{CurrentRule, copy_value};
use std::alloc::Global;
use std::rc::Rc;
use xt_names::{Expanded, Scope};
use xt_text::Memory;
use xt_tree::{NodeRef, Value};

/// The context node with its position and the size of the list that it stands in (XPath 1.0, section 1).
#[derive(Clone, Copy, Debug)]
pub struct Focus {
    pub node: NodeRef,
    /// From 1 on; none where it is that of the instantiation.
    pub position: Option<u64>,
    /// None where it is that of the instantiation.
    pub size: Option<u64>,
}

/// Local variables and parameters, innermost first.
#[cycle(bindings)]
#[derive(Drop)]
pub enum Bindings {
    Empty,
    More(Rc<Binding>),
}

/// A local variable or parameter, and those around it.
#[cycle(bindings)]
#[derive(Drop)]
pub struct Binding {
    pub name: Expanded,
    pub value: Value,
    pub outer: Bindings,
}

impl Bindings {
    ghost use Rattle.std.specs.Prelude.{◌≡◌, IfOk};
    ghost use Rattle.xt_questions.specs.View.{bindings_of};

    /// The same, shared.
    pub fn share(&self) -> Result<Bindings, Memory>
        ensures { IfOk result (λ b. bindings_of b ≡ bindings_of self.now) }
    {
        match self {
            Bindings::Empty => Ok(Bindings::Empty),
            Bindings::More(binding) => Ok(Bindings::More(binding.clone()?)),
        }
    }

    /// The value of the innermost variable of this name, and none where there is none of this name.
    pub fn look_up(&self, alloc: Global, name: &Expanded) -> Result<Option<Value>, Memory>
        ensures { IfOk result (λ v. option_map value_of v ≡ binding_of name.now (bindings_of self.now)) }
    {
        match self {
            Bindings::Empty => Ok(None),
            Bindings::More(binding) => {
                if binding.name.same(name) {
                    Ok(Some(copy_value(alloc, &binding.value)?))
                } else {
                    binding.outer.look_up(alloc, name)
                }
            }
        }
    }
}

/// What an expression sees beside its focus (XPath 1.0, section 1; XSLT 1.0, section 4).
#[derive(Drop)]
pub struct Context {
    /// The node that `current()` gives.
    pub current: NodeRef,
    /// The local variables in scope.
    pub bindings: Bindings,
    /// The namespaces in scope at the element.
    pub scope: Scope,
    /// How deep the content stands below the level of its instantiation.
    pub depth: u64,
}

/// A global that was given, for references in contents up to so deep below the level of the instantiation.
#[derive(Drop)]
pub struct Known {
    pub name: Expanded,
    pub depth: u64,
    pub value: Value,
}

/// What is at hand of what an instantiation may need of its run.
#[derive(Drop)]
pub struct Supplies {
    pub position: u64,
    pub size: u64,
    /// The current template rule; none where there is none.
    pub rule: Option<CurrentRule>,
    pub globals: Vec<Known>,
}
