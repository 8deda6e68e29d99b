// What a world answers.
ghost use Rattle.std.specs.Prelude.{◌≡◌};
ghost use Rattle.std.specs.Bool.{Decides};
ghost use Rattle.xt_questions.specs.View.{resolved_of};

use crate::Refusal;
use crate::alike::{all_alike, same_name_if, same_nodes, same_text_if};
use crate::copies::copy_text_if;
use crate::pieces::same_streams;
use spec_document::Kind;
use std::alloc::Global;
use std::rc::Rc;
use xt_names::{Expanded, copy_name_if};
use xt_syntax::{Alias, Unit};
use xt_text::{Memory, Text};
use xt_tree::{Fragment, NodeRef};

/// A named template of the stylesheet, by the node of its element.
#[derive(Drop)]
pub struct NamedTemplate {
    pub name: Expanded,
    pub element: NodeRef,
}

/// The attribute sets of one name, by the nodes of their elements, in their order.
#[derive(Drop)]
pub struct NamedSets {
    pub name: Expanded,
    pub elements: Vec<NodeRef>,
}

/// A unit of the stylesheet, with the templates and attribute sets that it names and the aliases of the stylesheet.
#[derive(Drop)]
pub struct ResolvedUnit {
    pub unit: Rc<Unit>,
    pub templates: Vec<NamedTemplate>,
    pub sets: Vec<NamedSets>,
    pub aliases: Rc<Vec<Alias>>,
    /// Of a global variable or parameter, whether it is the one of its name that counts.
    pub counts: bool,
}

impl ResolvedUnit {
    /// Whether both are the same unit, with the same templates, attribute sets and aliases. Takes no memory.
    pub fn same(&self, other: &ResolvedUnit) -> bool
        ensures { Decides result (resolved_of self.now ≡ resolved_of other.now) }
    {
        self.unit.same(&other.unit)
            && all_alike(self.templates.as_slice(), other.templates.as_slice())
            && all_alike(self.sets.as_slice(), other.sets.as_slice())
            && all_alike(self.aliases.as_slice(), other.aliases.as_slice())
            && self.counts == other.counts
    }
}

/// A template rule, by the node of the element of its template.
#[derive(Clone, Copy, Debug, PartialEq, Eq)]
pub struct ChosenRule {
    pub element: NodeRef,
    /// Its stylesheet imports what has an import precedence from this one on,
    pub first: u64,
    /// and below this one.
    pub last: u64,
}

/// An answer to a question.
#[derive(Drop)]
pub enum Answer {
    /// The node is not there.
    Gone,
    /// An xsl:key is refused.
    Refused(Refusal),
    /// To a step, an order or a key.
    Nodes(Vec<NodeRef>),
    /// To a text or a place.
    Text(Text),
    /// The kind of a node, its expanded name and its name as it is written.
    Named(Kind, Option<Expanded>, Text),
    /// The template rule of a node; none where it is a built-in rule.
    Chosen(Option<ChosenRule>),
    /// The copy of a node.
    Copied(Fragment),
    /// A unit of the stylesheet.
    Resolved(Rc<ResolvedUnit>),
    /// A parameter from outside, where it is given.
    Passed(Option<Text>),
}

impl Answer {
    ghost use Rattle.std.specs.Prelude.{◌≡◌, IfOk};
    ghost use Rattle.std.specs.Bool.{Decides};
    ghost use Rattle.std.specs.Option.{option_map};
    ghost use Rattle.spec_meaning.specs.Question.{nodes_in, rule_in, text_in};
    ghost use Rattle.xt_questions.specs.View.{answer_of, chosen_of};

    /// The same answer. Copied nodes and units are shared, all else is in memory of its own.
    pub fn copy(&self, alloc: Global) -> Result<Answer, Memory>
        ensures { IfOk result (λ a. answer_of a ≡ answer_of self.now) }
    {
        match self {
            Answer::Gone => Ok(Answer::Gone),
            Answer::Refused(refusal) => Ok(Answer::Refused(refusal.copy(alloc)?)),
            Answer::Nodes(nodes) => Ok(Answer::Nodes(Vec::from_slice(alloc, nodes.as_slice())?)),
            Answer::Text(text) => Ok(Answer::Text(text.copy(alloc)?)),
            Answer::Named(kind, name, written) => {
                let written = written.copy(alloc)?;
                let Ok(name) = copy_name_if(alloc, name) else {
                    drop(written);
                    return Err(Memory);
                };
                Ok(Answer::Named(*kind, name, written))
            }
            Answer::Chosen(rule) => Ok(Answer::Chosen(*rule)),
            Answer::Copied(copy) => Ok(Answer::Copied(Fragment::new(copy.items().clone()?))),
            Answer::Resolved(unit) => Ok(Answer::Resolved(unit.clone()?)),
            Answer::Passed(value) => Ok(Answer::Passed(copy_text_if(alloc, value)?)),
        }
    }

    /// Whether both are the same answer. Only for copies does it take memory.
    pub fn same(&self, alloc: Global, other: &Answer) -> Result<bool, Memory>
        ensures { IfOk result (λ b. Decides b (answer_of self.now ≡ answer_of other.now)) }
    {
        match (self, other) {
            (Answer::Gone, Answer::Gone) => Ok(true),
            (Answer::Refused(refusal), Answer::Refused(other)) => Ok(refusal.same(other)),
            (Answer::Nodes(nodes), Answer::Nodes(others)) => {
                Ok(same_nodes(nodes.as_slice(), others.as_slice()))
            }
            (Answer::Text(text), Answer::Text(other)) => Ok(text.same(other)),
            (Answer::Named(kind, name, written), Answer::Named(other_kind, other, others)) => {
                Ok(kind == other_kind && same_name_if(name, other) && written.same(others))
            }
            (Answer::Chosen(rule), Answer::Chosen(other)) => Ok(rule == other),
            (Answer::Copied(copy), Answer::Copied(other)) => {
                same_streams(alloc, copy.items(), other.items())
            }
            (Answer::Resolved(unit), Answer::Resolved(other)) => Ok(unit.same(other)),
            (Answer::Passed(value), Answer::Passed(other)) => Ok(same_text_if(value, other)),
            _ => Ok(false),
        }
    }

    /// The nodes of the answer, and none where it has no nodes. Takes no memory.
    pub fn into_nodes(self, alloc: Global) -> Vec<NodeRef>
        ensures { result.items ≡ nodes_in (answer_of self) }
    {
        match self {
            Answer::Nodes(nodes) => nodes,
            other => {
                drop(other);
                Vec::new(alloc)
            }
        }
    }

    /// The template rule of the answer, and none where it is of another kind. Takes no memory.
    pub fn into_rule(self) -> Option<ChosenRule>
        ensures { option_map chosen_of result ≡ rule_in (answer_of self) }
    {
        match self {
            Answer::Chosen(rule) => rule,
            other => {
                drop(other);
                None
            }
        }
    }

    /// The text of the answer, and the empty one where it is of another kind. Takes no memory.
    pub fn into_text(self, alloc: Global) -> Text
        ensures { result ≡ text_in (answer_of self) }
    {
        match self {
            Answer::Text(text) => text,
            other => {
                drop(other);
                Text::new(alloc)
            }
        }
    }
}
