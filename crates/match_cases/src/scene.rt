// What the lines so far have set, and what the next one asks.

use crate::rules::{add_rule, imported, mode_of, pattern_of};
use cases::{
    Answers, Fault, Word, behind, document, node, push_number, push_part, push_reference, text_at,
    words_of,
};
use std::alloc::Global;
use xp_eval::Eval;
use xp_parse::parse;
use xt_document_world::PlainWorld;
use xt_match::{RuleTable, choose, matches};
use xt_names::Scope;
use xt_questions::{Bindings, Candidates, Context, EvalFault, Evaluate, Focus, Supplies};
use xt_syntax::{Expr, Pattern, Rules};
use xt_text::{Memory, Text};
use xt_tree::{Doc, NodeId, NodeRef, Value};

/// The document, the rules, and where patterns stand.
#[derive(Drop)]
pub struct Scene {
    document: Option<Doc>,
    rules: Rules,
    context: Context,
    supplies: Supplies,
}

fn scope(alloc: Global) -> Result<Scope, Memory> {
    let mut scope = Scope::root(alloc)?;
    scope.bind(alloc, "p", "urn:p")?;
    scope.bind(alloc, "xsl", "http://www.w3.org/1999/XSL/Transform")?;
    Ok(scope)
}

// The root of a document, which has the number 0.
const fn root() -> NodeRef {
    NodeRef::of(NodeId { number: 0 })
}

impl Answers for Scene {
    fn answer(&mut self, alloc: Global, out: &mut Text, line: &str) -> Result<(), Fault> {
        out.push_str(line)?;
        if let Some(text) = line.strip_suffix(" ->") {
            let pattern = pattern_of(alloc, text, &self.context.scope)?;
            return self.find(alloc, out, &pattern);
        }
        let words = words_of(alloc, line)?;
        self.set(alloc, out, words.as_slice())
    }
}

impl Scene {
    /// Nothing is set.
    pub fn new(alloc: Global) -> Result<Scene, Memory> {
        let scope = scope(alloc)?;
        Ok(Scene {
            document: None,
            rules: Rules {
                rules: Vec::new(alloc),
            },
            context: Context {
                current: root(),
                bindings: Bindings::Empty,
                scope,
                depth: 0,
            },
            supplies: Supplies {
                position: 7,
                size: 9,
                rule: None,
                globals: Vec::new(alloc),
            },
        })
    }

    fn set(&mut self, alloc: Global, out: &mut Text, words: &[Word]) -> Result<(), Fault> {
        match text_at(words, 0)? {
            "document" => self.set_document(alloc, behind(words, 1)),
            "rule" => add_rule(alloc, &mut self.rules, words, &self.context.scope),
            "choose" => self.choose(alloc, out, words, Candidates::AllRules),
            "import" => self.choose(alloc, out, words, imported(words)?),
            _ => Err(Fault::NoCase),
        }
    }

    fn set_document(&mut self, alloc: Global, lines: &[Word]) -> Result<(), Fault> {
        let document = document(alloc, lines)?;
        self.document = Some(document);
        self.rules.rules.clear();
        Ok(())
    }

    fn document(&self) -> Result<&Doc, Fault> {
        match &self.document {
            None => Err(Fault::NoCase),
            Some(document) => Ok(document),
        }
    }

    // Adds the nodes that match.
    fn find(&self, alloc: Global, out: &mut Text, pattern: &Pattern) -> Result<(), Fault> {
        let document = self.document()?;
        let world = PlainWorld { alloc, document };
        let mut world = Eval { world };
        let nodes = self.all_nodes(alloc, &mut world)?;
        self.push_matching(alloc, out, pattern, nodes.as_slice(), &mut world)
    }

    // All nodes of the document, in its order.
    fn all_nodes<W: Evaluate>(&self, alloc: Global, world: &mut W) -> Result<Vec<NodeRef>, Fault> {
        let all = self.tree(alloc, "//. | //@* | //namespace::*")?;
        let focus = Focus {
            node: root(),
            position: None,
            size: None,
        };
        nodes_in(world.value(alloc, &all, focus, &self.context, &self.supplies))
    }

    fn tree(&self, alloc: Global, text: &str) -> Result<Expr, Fault> {
        match parse(alloc, text, &self.context.scope) {
            Ok(tree) => Ok(tree),
            Err(_) => Err(Fault::NoCase),
        }
    }

    fn push_matching<W: Evaluate>(
        &self,
        alloc: Global,
        out: &mut Text,
        pattern: &Pattern,
        nodes: &[NodeRef],
        world: &mut W,
    ) -> Result<(), Fault> {
        for node in nodes {
            let matches = matches(alloc, pattern, *node, &self.context, &self.supplies, world);
            if answered(matches)? {
                out.push(' ')?;
                push_reference(out, node)?;
            }
        }
        Ok(())
    }

    // Adds the rule for a node.
    fn choose(
        &self,
        alloc: Global,
        out: &mut Text,
        words: &[Word],
        candidates: Candidates,
    ) -> Result<(), Fault> {
        let document = self.document()?;
        let node = node(text_at(words, 1)?)?;
        let mode = mode_of(alloc, text_at(words, 2)?)?;
        let world = PlainWorld { alloc, document };
        let mut table = RuleTable::new(alloc, &self.rules);
        let chosen = choose(
            alloc,
            &mut table,
            &[],
            node,
            &mode,
            candidates,
            &self.supplies,
            &mut Eval { world },
        );
        push_answered(out, chosen)
    }
}

fn nodes_in(answer: Result<Value, EvalFault>) -> Result<Vec<NodeRef>, Fault> {
    match answer {
        Ok(Value::Nodes(nodes)) => Ok(nodes),
        Err(EvalFault::Memory) => Err(Fault::Memory),
        _ => Err(Fault::NoCase),
    }
}

// What memory sufficed for.
fn answered<T: Drop>(answer: Result<T, EvalFault>) -> Result<T, Fault> {
    match answer {
        Ok(value) => Ok(value),
        Err(EvalFault::Memory) => Err(Fault::Memory),
        Err(_) => Err(Fault::NoCase),
    }
}

fn push_answered(out: &mut Text, chosen: Result<Option<u64>, EvalFault>) -> Result<(), Fault> {
    let chosen = answered(chosen)?;
    push_chosen(out, chosen)?;
    Ok(())
}

fn push_chosen(out: &mut Text, chosen: Option<u64>) -> Result<(), Memory> {
    match chosen {
        None => push_part(out, "built-in"),
        Some(number) => {
            out.push(' ')?;
            push_number(out, number)
        }
    }
}
