// Which questions an edit of the source marks.
ghost use Rattle.std.specs.Prelude.{◌≡◌, ◌∷◌, ◌++◌, ℕ, true, false, IfOk};
ghost use Rattle.std.specs.List.{list_any};
ghost use Rattle.spec_touch.specs.Plain as plain;
ghost use Rattle.spec_touch.specs.Touched as spec;
ghost use Rattle.xt_edit.specs.Telling.{change_in, numbers_in};
ghost use Rattle.xt_questions.specs.View.{question_of};
ghost use Rattle.xt_touch.specs.Named.{IsApart, IsAround, LieWithin, is_within};
ghost use Rattle.xt_touch.specs.Sets.{AreSame, is_changed_attribute};

use crate::loose::Loose;
use crate::numbers::Numbers;
use crate::{Bounds, Modes, Named};
use spec_document::Axis;
use std::alloc::Global;
use std::marker::Model;
use xt_edit::Change;
use xt_questions::Question;
use xt_text::Memory;
use xt_tree::{NodeId, NodeRef, Part};

/// A change of the source, ready to be asked which questions it marks. Contracts see the change.
#[derive(Drop)]
pub(crate) struct SourceMarks {
    change: Change,
    // The nodes that go and those that come.
    moving: Numbers,
    // The node of the change and those above it.
    holding: Numbers,
    // The children of the node, before and after.
    children: Numbers,
    // Bounds of those that go and come, and of the children.
    goes: Bounds,
    beside: Bounds,
}

impl Model for SourceMarks {
    ghost use Rattle.spec_change.specs.Change.{Change};
    ghost use Rattle.xt_edit.specs.Telling.{change_in};
    ghost use Rattle.xt_touch.specs.Sets.{AreSetsOf};

    ghost Value = { Change };

    ghost view = { λ m. change_in m.change };

    ghost invariant = { λ m. AreSetsOf (change_in m.change) m.moving m.holding m.children m.goes m.beside };
}

impl SourceMarks {
    /// What this change marks.
    pub(crate) fn new(alloc: Global, change: Change) -> Result<SourceMarks, Memory>
        ensures { IfOk result (λ marks. marks ≡ change_in change) }
    {
        let moving = both(alloc, change.gone.as_slice(), change.brought.as_slice())?;
        let holding = both(alloc, &[change.node], change.above.as_slice())?;
        let children = both(alloc, change.before.as_slice(), change.after.as_slice())?;
        let goes = bounds(change.gone.as_slice(), change.brought.as_slice());
        let beside = bounds(change.before.as_slice(), change.after.as_slice());
        Ok(SourceMarks {
            change,
            moving,
            holding,
            children,
            goes,
            beside,
        })
    }

    /// Whether it marks this question. Takes no memory.
    pub(crate) fn touches(&self, question: &Question) -> bool
        ensures { result ≡ spec.is_touched self.now (question_of question.now) }
    {
        if self.change.of_attributes {
            self.touches_by_attributes(question)
        } else {
            self.touches_by_children(question)
        }
    }

    /// The same, where of the children that stay these alone may be others. Takes no memory.
    pub(crate) fn touches_but(&self, loose: &Loose, question: &Question) -> bool
        ensures { result ≡ spec.touched_but loose.now self.now (question_of question.now) }
    {
        if self.change.of_attributes {
            self.touches_by_attributes(question)
        } else {
            self.touches_by_children_but(loose, question)
        }
    }

    /// Whether it may mark a question of which this is what is named, other than a choice, and none of those that are marked
    /// whatever they name. Takes no memory.
    pub(crate) fn meets(&self, named: &Named) -> bool
        ensures { result ≡ false → IsApart (self.now.before ++ self.now.after) self.now named.now }
    {
        if self.beside.meets(named.inside) {
            return true;
        }
        self.meets_around(named)
    }

    /// The same, where of the children that stay these alone may be others. Takes no memory.
    pub(crate) fn meets_but(&self, loose: &Loose, named: &Named) -> bool
        ensures { result ≡ false → IsApart loose.now self.now named.now }
    {
        if loose.meets(named.inside) {
            return true;
        }
        self.meets_around(named)
    }

    // The same, but for children whose inside is named.
    fn meets_around(&self, named: &Named) -> bool
        ensures { result ≡ false → IsAround self.now named.now }
    {
        if self.goes.meets(named.all) {
            return true;
        }
        if named.near.has(self.change.node.number) {
            return true;
        }
        if self.beside.meets(named.near) {
            return true;
        }
        self.is_held_within(named.inside)
    }

    // Whether the node of the change or one above it lies within the bounds.
    fn is_held_within(&self, bounds: Bounds) -> bool
        ensures { result ≡ list_any (is_within bounds) (self.now.node ∷ self.now.above) }
    {
        bounds.has(self.change.node.number) || has_one_of(bounds, self.change.above.as_slice())
    }

    /// Whether it spares this question, a choice of a rule in none of these modes. Takes no memory.
    pub(crate) fn spares(&self, asking: &Modes, question: &Question) -> bool
        ensures { result ≡ plain.spared asking.now self.now (question_of question.now) }
    {
        match question {
            Question::Step(_, _, _) => false,
            Question::Text(_) => false,
            Question::Name(_) => false,
            Question::Place(_) => false,
            Question::Order(_) => false,
            Question::Key(_, _) => false,
            Question::Choice(node, mode, _) => !self.goes_or_comes(*node) && !asking.has(mode),
            Question::Copy(_) => false,
            Question::Unit(_) => false,
            Question::External(_) => false,
        }
    }

    // Whether a change of children marks it.
    fn touches_by_children(&self, question: &Question) -> bool
        ensures { result ≡ spec.by_children self.now (question_of question.now) }
    {
        match question {
            Question::Step(node, axis, _) => {
                self.goes_or_comes(*node) || self.step_by_children(*axis, *node)
            }
            Question::Text(node) => self.goes_or_comes(*node) || self.inside_by_children(*node),
            Question::Name(node) => self.goes_or_comes(*node),
            Question::Place(_) => true,
            Question::Order(nodes) => self.any_goes_or_comes(nodes.as_slice()),
            Question::Key(_, _) => true,
            Question::Choice(_, _, _) => true,
            Question::Copy(node) => self.goes_or_comes(*node) || self.inside_by_children(*node),
            Question::Unit(_) => false,
            Question::External(_) => false,
        }
    }

    fn step_by_children(&self, axis: Axis, node: NodeRef) -> bool
        ensures { result ≡ spec.step_by_children self.now axis node }
    {
        match axis {
            Axis::Child => self.is_changed(node),
            Axis::Descendant => self.holds_change(node),
            Axis::DescendantOrSelf => self.holds_change(node),
            Axis::FollowingSibling => self.is_child(node),
            Axis::PrecedingSibling => self.is_child(node),
            Axis::Following => true,
            Axis::Preceding => true,
            Axis::Itself => false,
            Axis::Parent => false,
            Axis::Ancestor => false,
            Axis::AncestorOrSelf => false,
            Axis::Attribute => false,
            Axis::Namespace => false,
        }
    }

    fn inside_by_children(&self, node: NodeRef) -> bool
        ensures { result ≡ spec.inside_by_children self.now node }
    {
        self.holds_change(node) || self.is_child(node)
    }

    // The same, where of the children that stay these alone may be others.
    fn touches_by_children_but(&self, loose: &Loose, question: &Question) -> bool
        ensures { result ≡ spec.by_children_but loose.now self.now (question_of question.now) }
    {
        match question {
            Question::Step(node, axis, _) => {
                self.goes_or_comes(*node) || self.step_by_children(*axis, *node)
            }
            Question::Text(node) => self.goes_or_comes(*node) || self.inside_but(loose, *node),
            Question::Name(node) => self.goes_or_comes(*node),
            Question::Place(_) => true,
            Question::Order(nodes) => self.any_goes_or_comes(nodes.as_slice()),
            Question::Key(_, _) => true,
            Question::Choice(_, _, _) => true,
            Question::Copy(node) => self.goes_or_comes(*node) || self.inside_but(loose, *node),
            Question::Unit(_) => false,
            Question::External(_) => false,
        }
    }

    fn inside_but(&self, loose: &Loose, node: NodeRef) -> bool
        ensures { result ≡ spec.inside_but loose.now self.now node }
    {
        self.holds_change(node) || loose.has(node)
    }

    // Whether a change of attributes marks it.
    fn touches_by_attributes(&self, question: &Question) -> bool
        ensures { result ≡ spec.by_attributes self.now (question_of question.now) }
    {
        match question {
            Question::Step(node, axis, _) => {
                self.goes_or_comes(*node) || self.step_by_attributes(*axis, *node)
            }
            Question::Text(node) => self.goes_or_comes(*node),
            Question::Name(node) => self.goes_or_comes(*node),
            Question::Place(node) => self.goes_or_comes(*node),
            Question::Order(nodes) => self.any_goes_or_comes(nodes.as_slice()),
            Question::Key(_, _) => true,
            Question::Choice(_, _, _) => true,
            Question::Copy(node) => self.goes_or_comes(*node) || self.holds_change(*node),
            Question::Unit(_) => false,
            Question::External(_) => false,
        }
    }

    fn step_by_attributes(&self, axis: Axis, node: NodeRef) -> bool
        ensures { result ≡ spec.step_by_attributes self.now axis node }
    {
        match axis {
            Axis::Attribute => self.is_changed(node),
            Axis::Itself => false,
            Axis::Parent => false,
            Axis::Child => false,
            Axis::Descendant => false,
            Axis::DescendantOrSelf => false,
            Axis::Ancestor => false,
            Axis::AncestorOrSelf => false,
            Axis::Following => false,
            Axis::Preceding => false,
            Axis::FollowingSibling => false,
            Axis::PrecedingSibling => false,
            Axis::Namespace => false,
        }
    }

    fn any_goes_or_comes(&self, nodes: &[NodeRef]) -> bool
        ensures { result ≡ list_any (spec.goes_or_comes self.now) nodes.now }
    {
        for node in nodes {
            if self.goes_or_comes(*node) {
                return true;
            }
        }
        false
    }

    /// Whether the node goes or comes, or belongs to one that does. Where attributes of an element change, each of
    /// them may be another.
    pub(crate) fn goes_or_comes(&self, node: NodeRef) -> bool
        ensures { result ≡ spec.goes_or_comes self.now node }
    {
        self.moving.has(node.node) || self.is_changed_attribute(node)
    }

    fn is_changed_attribute(&self, node: NodeRef) -> bool
        ensures { result ≡ is_changed_attribute self.now node }
    {
        self.change.of_attributes && is_attribute(node.part) && node.node == self.change.node
    }

    // Whether it is the node of the change.
    fn is_changed(&self, node: NodeRef) -> bool
        ensures { result ≡ spec.is_changed self.now node }
    {
        is_itself(node.part) && node.node == self.change.node
    }

    // Whether it is the node of the change or stands above it.
    fn holds_change(&self, node: NodeRef) -> bool
        ensures { result ≡ spec.holds_change self.now node }
    {
        is_itself(node.part) && self.holding.has(node.node)
    }

    /// Whether it is a child of the node of the change, before or after.
    pub(crate) fn is_child(&self, node: NodeRef) -> bool
        ensures { result ≡ spec.is_child self.now node }
    {
        is_itself(node.part) && self.children.has(node.node)
    }
}

/// Bounds of the numbers of these nodes and of those.
pub(crate) fn bounds(nodes: &[NodeId], others: &[NodeId]) -> Bounds
    ensures { LieWithin (numbers_in nodes.now ++ numbers_in others.now) result }
{
    with_all(with_all(Bounds::nothing(), nodes), others)
}

fn with_all(bounds: Bounds, nodes: &[NodeId]) -> Bounds
    ensures nodes { LieWithin (numbers_in nodes.now) result }
    ensures before { (number : ℕ) → is_within bounds number ≡ true → is_within result number ≡ true }
{
    let mut more = bounds;
    for node in nodes {
        more = more.with(node.number);
    }
    more
}

// Whether the number of one of these nodes lies within the bounds.
fn has_one_of(bounds: Bounds, nodes: &[NodeId]) -> bool
    ensures { result ≡ list_any (is_within bounds) (numbers_in nodes.now) }
{
    for node in nodes {
        if bounds.has(node.number) {
            return true;
        }
    }
    false
}

/// The set of some nodes and of others.
pub(crate) fn both(alloc: Global, some: &[NodeId], others: &[NodeId]) -> Result<Numbers, Memory>
    ensures { IfOk result (λ set. AreSame set (numbers_in some.now ++ numbers_in others.now)) }
{
    let mut set = Numbers::new(alloc);
    set.add_all(some)?;
    set.add_all(others)?;
    Ok(set)
}

/// Whether it is a node of the tree, and no attribute or namespace node of it.
pub(crate) fn is_itself(part: Part) -> bool
    ensures { result ≡ spec.is_itself part }
{
    match part {
        Part::Itself => true,
        Part::Attribute(_) => false,
        Part::Namespace(_) => false,
    }
}

fn is_attribute(part: Part) -> bool
    ensures { result ≡ spec.is_attribute part }
{
    match part {
        Part::Itself => false,
        Part::Attribute(_) => true,
        Part::Namespace(_) => false,
    }
}
