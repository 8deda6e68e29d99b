// What the lines so far have set, and what the next one asks.

use crate::show::{push_answer, push_code, push_held};
use cases::{Answers, Fault, Word, behind, document, node, text_at, words_of};
use std::alloc::Global;
use std::rc::Rc;
use xp_eval::{Eval, eval};
use xp_parse::{ParseFault, parse};
use xt_avt::{AvtFault, expand, parse_avt};
use xt_base::{Code, Steps};
use xt_document_world::PlainWorld;
use xt_names::{Expanded, Scope, XSLT_URI};
use xt_questions::{
    Binding, Bindings, Context, EvalFault, Focus, Known, Logged, Read, Supplies, holds,
};
use xt_syntax::{Avt, Expr};
use xt_text::{Memory, Text};
use xt_tree::{Doc, Fragment, Item, Items, NodeId, NodeRef, Value};

/// The document, and where an expression is evaluated.
#[derive(Drop)]
pub struct Scene {
    document: Option<Doc>,
    node: NodeRef,
    context: Context,
    supplies: Supplies,
    // What was read for an expression.
    reads: Vec<Read>,
}

// The root of a document, which has the number 0.
const fn root() -> NodeRef {
    NodeRef::of(NodeId { number: 0 })
}

fn no_supplies(alloc: Global) -> Supplies {
    Supplies {
        position: 7,
        size: 9,
        rule: None,
        globals: Vec::new(alloc),
    }
}

fn scope(alloc: Global) -> Result<Scope, Memory> {
    let mut scope = Scope::root(alloc)?;
    scope.bind(alloc, "p", "urn:p")?;
    scope.bind(alloc, "xsl", XSLT_URI)?;
    Ok(scope)
}

impl Answers for Scene {
    fn answer(&mut self, alloc: Global, out: &mut Text, line: &str) -> Result<(), Fault> {
        out.push_str(line)?;
        if let Some(text) = line.strip_suffix(" ->") {
            out.push(' ')?;
            return self.evaluate(alloc, out, text);
        }
        if let Some(text) = line.strip_suffix(" =>") {
            out.push(' ')?;
            return self.expand(alloc, out, text);
        }
        if line == "again" {
            return self.ask_again(alloc, out);
        }
        let words = words_of(alloc, line)?;
        self.set(alloc, words.as_slice())
    }
}

impl Scene {
    /// Nothing is set.
    pub fn new(alloc: Global) -> Result<Scene, Memory> {
        let scope = scope(alloc)?;
        Ok(Scene {
            document: None,
            node: root(),
            context: Context {
                current: root(),
                bindings: Bindings::Empty,
                scope,
                depth: 0,
            },
            supplies: no_supplies(alloc),
            reads: Vec::new(alloc),
        })
    }

    // Does what a line says that asks nothing.
    fn set(&mut self, alloc: Global, words: &[Word]) -> Result<(), Fault> {
        match text_at(words, 0)? {
            "document" => self.set_document(alloc, behind(words, 1)),
            "at" => self.set_node(text_at(words, 1)?),
            "current" => self.set_current(text_at(words, 1)?),
            "let" => self.set_value(alloc, text_at(words, 1)?, text_at(words, 2)?),
            "fragment" => self.set_fragment(alloc, text_at(words, 1)?, text_at(words, 2)?),
            "global" => self.set_global(alloc, text_at(words, 1)?, text_at(words, 2)?),
            "keep" => self.keep(alloc, text_at(words, 1)?),
            _ => Err(Fault::NoCase),
        }
    }

    fn set_document(&mut self, alloc: Global, lines: &[Word]) -> Result<(), Fault> {
        let document = document(alloc, lines)?;
        self.document = Some(document);
        self.node = root();
        self.context.current = root();
        self.context.bindings = Bindings::Empty;
        self.supplies = no_supplies(alloc);
        Ok(())
    }

    fn set_node(&mut self, text: &str) -> Result<(), Fault> {
        self.node = node(text)?;
        Ok(())
    }

    fn set_current(&mut self, text: &str) -> Result<(), Fault> {
        self.context.current = node(text)?;
        Ok(())
    }

    fn set_value(&mut self, alloc: Global, name: &str, text: &str) -> Result<(), Fault> {
        let name = plain_name(alloc, name)?;
        let outer = self.context.bindings.share()?;
        let value = self.value(alloc, text)?;
        self.bind(alloc, Binding { name, value, outer })
    }

    fn set_fragment(&mut self, alloc: Global, name: &str, text: &str) -> Result<(), Fault> {
        let name = plain_name(alloc, name)?;
        let outer = self.context.bindings.share()?;
        let value = fragment(alloc, text)?;
        self.bind(alloc, Binding { name, value, outer })
    }

    fn bind(&mut self, alloc: Global, binding: Binding) -> Result<(), Fault> {
        let binding = Rc::new(alloc, binding)?;
        self.context.bindings = Bindings::More(binding);
        Ok(())
    }

    fn set_global(&mut self, alloc: Global, name: &str, text: &str) -> Result<(), Fault> {
        let name = plain_name(alloc, name)?;
        let value = self.value(alloc, text)?;
        self.supplies.globals.push(Known {
            name,
            depth: 0,
            value,
        })?;
        Ok(())
    }

    fn document(&self) -> Result<&Doc, Fault> {
        match &self.document {
            None => Err(Fault::NoCase),
            Some(document) => Ok(document),
        }
    }

    // The value of an expression that has one.
    fn value(&self, alloc: Global, text: &str) -> Result<Value, Fault> {
        let document = self.document()?;
        let tree = self.tree(alloc, text)?;
        value_of(self.evaluated(alloc, document, &tree))
    }

    // The tree of a text that is an expression.
    fn tree(&self, alloc: Global, text: &str) -> Result<Expr, Fault> {
        match self.parsed(alloc, text) {
            Ok(tree) => Ok(tree),
            Err(_) => Err(Fault::NoCase),
        }
    }

    fn parsed(&self, alloc: Global, text: &str) -> Result<Expr, ParseFault> {
        parse(alloc, text, &self.context.scope)
    }

    // What an expression evaluates to in the document.
    fn evaluated(&self, alloc: Global, document: &Doc, tree: &Expr) -> Result<Value, EvalFault> {
        let mut world = PlainWorld { alloc, document };
        eval(
            alloc,
            tree,
            self.focus(),
            &self.context,
            &self.supplies,
            &mut world,
        )
    }

    fn focus(&self) -> Focus {
        Focus {
            node: self.node,
            position: None,
            size: None,
        }
    }

    // Keeps what is read for an expression.
    fn keep(&mut self, alloc: Global, text: &str) -> Result<(), Fault> {
        let document = self.document()?;
        let tree = self.tree(alloc, text)?;
        self.reads = self.read(alloc, document, &tree);
        Ok(())
    }

    fn read(&self, alloc: Global, document: &Doc, tree: &Expr) -> Vec<Read> {
        let mut world = Logged::new(alloc, PlainWorld { alloc, document });
        let _ = eval(
            alloc,
            tree,
            self.focus(),
            &self.context,
            &self.supplies,
            &mut world,
        );
        world.reads
    }

    // Asks again in the present document what was read.
    fn ask_again(&self, alloc: Global, out: &mut Text) -> Result<(), Fault> {
        let document = self.document()?;
        let mut world = PlainWorld { alloc, document };
        let mut steps = Steps { ran: 0, asked: 0 };
        let change = holds(alloc, self.reads.as_slice(), &mut world, &mut steps)?;
        push_held(out, self.reads.len(), steps.asked, change)?;
        Ok(())
    }

    // Adds the string that a value template stands for.
    fn expand(&self, alloc: Global, out: &mut Text, text: &str) -> Result<(), Fault> {
        match parse_avt(alloc, text, &self.context.scope) {
            Ok(avt) => self.push_expanded(alloc, out, &avt),
            Err(fault) => push_bad_template(alloc, out, fault),
        }
    }

    fn push_expanded(&self, alloc: Global, out: &mut Text, avt: &Avt) -> Result<(), Fault> {
        let document = self.document()?;
        let answer = self.expanded(alloc, document, avt);
        push_answer(alloc, out, &answer)
    }

    fn expanded(&self, alloc: Global, document: &Doc, avt: &Avt) -> Result<Value, EvalFault> {
        let world = PlainWorld { alloc, document };
        let mut world = Eval { world };
        let text = expand(
            alloc,
            avt,
            self.focus(),
            &self.context,
            &self.supplies,
            &mut world,
        )?;
        Ok(Value::Text(text))
    }

    // Adds what an expression evaluates to.
    fn evaluate(&self, alloc: Global, out: &mut Text, text: &str) -> Result<(), Fault> {
        match self.parsed(alloc, text) {
            Ok(tree) => self.push_evaluated(alloc, out, &tree),
            Err(fault) => push_refused(alloc, out, fault),
        }
    }

    fn push_evaluated(&self, alloc: Global, out: &mut Text, tree: &Expr) -> Result<(), Fault> {
        let document = self.document()?;
        let answer = self.evaluated(alloc, document, tree);
        push_answer(alloc, out, &answer)
    }
}

fn value_of(answer: Result<Value, EvalFault>) -> Result<Value, Fault> {
    match answer {
        Ok(value) => Ok(value),
        Err(_) => Err(Fault::NoCase),
    }
}

// Adds the code of a text that is no expression.
fn push_refused(alloc: Global, out: &mut Text, fault: ParseFault) -> Result<(), Fault> {
    match fault.code() {
        None => Err(Fault::Memory),
        Some(code) => push_code(alloc, out, Code::Static(code)),
    }
}

// Adds the code of a text that is no value template.
fn push_bad_template(alloc: Global, out: &mut Text, fault: AvtFault) -> Result<(), Fault> {
    match fault.code() {
        None => Err(Fault::Memory),
        Some(code) => push_code(alloc, out, Code::Static(code)),
    }
}

fn plain_name(alloc: Global, local: &str) -> Result<Expanded, Memory> {
    let local = Text::from_str(alloc, local)?;
    Ok(Expanded::new(Text::new(alloc), local))
}

// A fragment of one text.
fn fragment(alloc: Global, text: &str) -> Result<Value, Fault> {
    let text = Text::from_str(alloc, text)?;
    let mut items = Items::new(alloc);
    items.push(Item::Text(text))?;
    let items = Rc::new(alloc, items)?;
    Ok(Value::Fragment(Fragment::new(items)))
}
