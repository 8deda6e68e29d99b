// What is left of contents.
use crate::Standing;
use std::rc::Rc;
use xt_base::Place;
use xt_engine::{Call, Target, Wrapping};
use xt_names::Expanded;
use xt_questions::Bindings;
use xt_sort::{Criterion, KeyValue, Row};
use xt_syntax::{Binding, Branch, Instr, SortKey};
use xt_tree::NodeRef;

/// A content from the next of its instructions on.
#[derive(Drop)]
pub struct Body {
    pub content: Rc<Vec<Instr>>,
    pub next: usize,
    pub here: Standing,
}

/// The attributes of a literal result element from the next on, and then its content (XSLT 1.0, section 7.1.1). Its
/// sink is begun. It is the instruction of this number of the content.
#[derive(Drop)]
pub struct Attributes {
    pub content: Rc<Vec<Instr>>,
    pub number: usize,
    pub next: usize,
    pub here: Standing,
}

/// The branches of an xsl:choose from the next on (XSLT 1.0, section 9.2).
#[derive(Drop)]
pub struct Branches {
    pub branches: Rc<Vec<Branch>>,
    pub next: usize,
    pub here: Standing,
}

/// The content of the xsl:for-each at this place for its nodes from the next on (XSLT 1.0, section 8).
#[derive(Drop)]
pub struct Loop {
    pub place: Place,
    pub content: Rc<Vec<Instr>>,
    pub nodes: Vec<NodeRef>,
    pub next: usize,
    pub here: Standing,
}

/// The template rules of nodes from the next on, which the element at this place enters from a content so deep
/// (XSLT 1.0, section 5.4).
#[derive(Drop)]
pub struct Application {
    pub place: Place,
    pub mode: Option<Expanded>,
    /// The parameters that are passed to each.
    pub parameters: Bindings,
    pub nodes: Vec<NodeRef>,
    pub next: usize,
    pub depth: u64,
}

/// The template in which the content of the xsl:for-each at this place stands, which is entered for its nodes from the
/// next on, from a content so deep (XSLT 1.0, section 8).
#[derive(Drop)]
pub struct Items {
    pub place: Place,
    /// Its element. Where there is none, no node is entered.
    pub element: Option<NodeRef>,
    /// The parameters that are passed to each.
    pub parameters: Bindings,
    pub nodes: Vec<NodeRef>,
    pub next: usize,
    pub depth: u64,
}

/// The attribute sets that the element at this place uses, by their elements, from the next on (XSLT 1.0, section
/// 7.1.4).
#[derive(Drop)]
pub struct Sets {
    pub place: Place,
    pub elements: Vec<NodeRef>,
    pub next: usize,
    pub here: Standing,
}

/// All of a content of the element at this place.
#[derive(Drop)]
pub struct Inside {
    pub place: Place,
    pub content: Rc<Vec<Instr>>,
    /// Where the element stands.
    pub here: Standing,
}

/// What nodes are sorted for.
#[derive(Drop)]
pub enum Ordered {
    /// For an xsl:for-each, in place of the nodes that stand there.
    Loop(Loop),
    /// For an xsl:apply-templates, in place of the nodes that stand there.
    Rules(Application),
    /// For an xsl:for-each whose content stands in a template of its own, in place of the nodes that stand there.
    Items(Items),
}

/// The nodes that are sorted, and then what they are sorted for (XSLT 1.0, section 10).
#[derive(Drop)]
pub struct Sorting {
    pub keys: Rc<Vec<SortKey>>,
    /// Where the instruction stands.
    pub here: Standing,
    /// How the keys compare, as far as they were asked.
    pub criteria: Vec<Criterion>,
    /// The nodes whose keys were asked, in their old order.
    pub rows: Vec<Row>,
    /// The keys of the node behind them, as far as they were asked.
    pub values: Vec<KeyValue>,
    /// All nodes, in their old order.
    pub nodes: Vec<NodeRef>,
    pub to: Ordered,
}

/// Copies of nodes from the next on (XSLT 1.0, section 11.3).
#[derive(Drop)]
pub struct Copies {
    pub nodes: Vec<NodeRef>,
    pub next: usize,
}

/// What is passed to templates.
#[derive(Drop)]
pub enum Passing {
    /// To the template rules of nodes, in place of the parameters that stand there.
    Rules(Application),
    /// The same, once its nodes are sorted by these keys, which stand here.
    Sorted(Rc<Vec<SortKey>>, Standing, Application),
    /// To the template of a content, for all its nodes, once these are sorted by the keys, if any, which stand here.
    Items(Rc<Vec<SortKey>>, Standing, Items),
    /// To a template that is called from a content so deep, in place of the parameters of the call.
    Template(Call, u64),
}

/// What is passed, from the next xsl:with-param on, and then what it is passed to (XSLT 1.0, section 11.6).
#[derive(Drop)]
pub struct Arguments {
    pub bindings: Rc<Vec<Binding>>,
    pub next: usize,
    /// What is passed so far, the last first.
    pub done: Bindings,
    pub here: Standing,
    pub to: Passing,
}

/// The parameters of a template from the next on, and then its content (XSLT 1.0, section 11.6).
#[derive(Drop)]
pub struct Parameters {
    pub bindings: Rc<Vec<Binding>>,
    pub next: usize,
    /// What was passed.
    pub given: Bindings,
    pub content: Rc<Vec<Instr>>,
    pub here: Standing,
}

/// What holds a value by this name, and what is left then.
#[derive(Drop)]
pub enum Holder {
    /// A variable, before the rest of a content.
    Variable(Expanded, Body),
    /// A parameter that is passed.
    Argument(Expanded, Arguments),
    /// A parameter of a template.
    Parameter(Expanded, Parameters),
}

/// What is left of one nested content, or comes at its end.
#[derive(Drop)]
pub enum Frame {
    /// All of an instantiation of this target for this node, with these parameters.
    Start(Target, NodeRef, Bindings),
    Body(Body),
    Sets(Sets),
    Attributes(Attributes),
    Inside(Inside),
    Sorting(Sorting),
    Branches(Branches),
    Loop(Loop),
    Application(Application),
    Items(Items),
    Arguments(Arguments),
    Parameters(Parameters),
    /// All of a global that stands here, but what is given from outside.
    Global(Standing),
    Copies(Copies),
    /// The end of the innermost sink.
    Wrap(Wrapping),
    /// The end of the innermost sink, which is taken.
    Take(Holder),
    /// The end of the run, by the message at this place.
    Terminate(Place),
}
