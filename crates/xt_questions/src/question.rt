// Questions to a world, and what is needed of a run.
ghost use Rattle.std.specs.Prelude.{◌≡◌, IfOk};
ghost use Rattle.std.specs.Option.{option_map};
ghost use Rattle.xt_questions.specs.View.{current_of};

use crate::{copy_test, copy_value};
use spec_document::Axis;
use std::alloc::Global;
use xt_names::{Expanded, copy_name, copy_name_if};
use xt_syntax::Test;
use xt_text::{Memory, Text};
use xt_tree::{NodeRef, Value};

/// Which template rules are candidates for a node (XSLT 1.0, sections 5.5 and 5.6).
#[derive(Clone, Copy, Debug, PartialEq, Eq)]
pub enum Candidates {
    /// All of the mode.
    AllRules,
    /// Those whose import precedence is in this range: what the stylesheet that holds a rule imports.
    Imported { first: u64, last: u64 },
}

/// What is asked of a world.
#[derive(Drop)]
pub enum Question {
    /// The nodes of an axis that pass a node test, in the order of the axis.
    Step(NodeRef, Axis, Test),
    /// The string-value of a node.
    Text(NodeRef),
    /// The kind and the names of a node.
    Name(NodeRef),
    /// The text that tells a node's place.
    Place(NodeRef),
    /// These nodes in document order, each once.
    Order(Vec<NodeRef>),
    /// The nodes that have this value in the keys of this name.
    Key(Expanded, Text),
    /// The template rule of a node, in a mode.
    Choice(NodeRef, Option<Expanded>, Candidates),
    /// A copy of a node with what is below it.
    Copy(NodeRef),
    /// The unit of an element of the stylesheet.
    Unit(NodeRef),
    /// A parameter that is given from outside.
    External(Text),
}

/// The current template rule (XSLT 1.0, section 5.6), as xsl:apply-imports asks for it.
#[derive(Drop)]
pub struct CurrentRule {
    pub mode: Option<Expanded>,
    /// Its stylesheet imports what has an import precedence from this one on,
    pub first: u64,
    /// and below this one.
    pub last: u64,
}

/// What is needed of the run of an instantiation, and not of the world.
#[derive(Drop)]
pub enum Wanted {
    /// The position of the instantiation's node.
    Position,
    /// The size of the list that it stands in.
    Size,
    /// The current template rule.
    Rule,
    /// The value of a global variable or parameter.
    Global(Expanded),
}

/// What is given for it.
#[derive(Drop)]
pub enum Given {
    /// A position or size.
    Counted(u64),
    /// The current template rule; none where there is none.
    Ruled(Option<CurrentRule>),
    /// The value of a global.
    Valued(Value),
}

impl Question {
    ghost use Rattle.std.specs.Prelude.{◌≡◌, IfOk};
    ghost use Rattle.xt_questions.specs.View.{question_of};

    /// The same question, in memory of its own.
    pub fn copy(&self, alloc: Global) -> Result<Question, Memory>
        ensures { IfOk result (λ q. question_of q ≡ question_of self.now) }
    {
        match self {
            Question::Step(node, axis, test) => {
                Ok(Question::Step(*node, *axis, copy_test(alloc, test)?))
            }
            Question::Text(node) => Ok(Question::Text(*node)),
            Question::Name(node) => Ok(Question::Name(*node)),
            Question::Place(node) => Ok(Question::Place(*node)),
            Question::Order(nodes) => {
                Ok(Question::Order(Vec::from_slice(alloc, nodes.as_slice())?))
            }
            Question::Key(name, value) => {
                let value = value.copy(alloc)?;
                let Ok(name) = copy_name(alloc, name) else {
                    drop(value);
                    return Err(Memory);
                };
                Ok(Question::Key(name, value))
            }
            Question::Choice(node, mode, candidates) => {
                Ok(Question::Choice(*node, copy_name_if(alloc, mode)?, *candidates))
            }
            Question::Copy(node) => Ok(Question::Copy(*node)),
            Question::Unit(element) => Ok(Question::Unit(*element)),
            Question::External(name) => Ok(Question::External(name.copy(alloc)?)),
        }
    }
}

impl CurrentRule {
    ghost use Rattle.std.specs.Prelude.{◌≡◌, IfOk};
    ghost use Rattle.xt_questions.specs.View.{current_of};

    /// The same, in memory of its own.
    pub fn copy(&self, alloc: Global) -> Result<CurrentRule, Memory>
        ensures { IfOk result (λ r. current_of r ≡ current_of self.now) }
    {
        Ok(CurrentRule {
            mode: copy_name_if(alloc, &self.mode)?,
            first: self.first,
            last: self.last,
        })
    }
}

/// The same rule, where there is one, in memory of its own.
pub fn copy_rule_if(
    alloc: Global,
    rule: &Option<CurrentRule>,
) -> Result<Option<CurrentRule>, Memory>
    ensures { IfOk result (λ r. option_map current_of r ≡ option_map current_of rule.now) }
{
    match rule {
        None => Ok(None),
        Some(rule) => Ok(Some(rule.copy(alloc)?)),
    }
}

impl Wanted {
    ghost use Rattle.std.specs.Prelude.{◌≡◌, IfOk};
    ghost use Rattle.xt_questions.specs.View.{wanted_of};

    /// The same, in memory of its own.
    pub fn copy(&self, alloc: Global) -> Result<Wanted, Memory>
        ensures { IfOk result (λ w. wanted_of w ≡ wanted_of self.now) }
    {
        match self {
            Wanted::Position => Ok(Wanted::Position),
            Wanted::Size => Ok(Wanted::Size),
            Wanted::Rule => Ok(Wanted::Rule),
            Wanted::Global(name) => Ok(Wanted::Global(copy_name(alloc, name)?)),
        }
    }
}

impl Given {
    ghost use Rattle.std.specs.Prelude.{◌≡◌, IfOk};
    ghost use Rattle.spec_meaning.specs.Program.{value_in};
    ghost use Rattle.xt_tree.specs.ValueView.{value_of};
    ghost use Rattle.xt_questions.specs.View.{given_of};

    /// The same. A fragment is shared.
    pub fn copy(&self, alloc: Global) -> Result<Given, Memory>
        ensures { IfOk result (λ g. given_of g ≡ given_of self.now) }
    {
        match self {
            Given::Counted(number) => Ok(Given::Counted(*number)),
            Given::Ruled(rule) => Ok(Given::Ruled(copy_rule_if(alloc, rule)?)),
            Given::Valued(value) => Ok(Given::Valued(copy_value(alloc, value)?)),
        }
    }

    /// The value of a global, and the empty text where something else was given. Takes no memory.
    pub fn into_value(self, alloc: Global) -> Value
        ensures { value_of result ≡ value_in (given_of self) }
    {
        match self {
            Given::Valued(value) => value,
            Given::Counted(_) => Value::Text(Text::new(alloc)),
            Given::Ruled(_) => Value::Text(Text::new(alloc)),
        }
    }
}
