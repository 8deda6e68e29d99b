// Which questions a move of a node of the source marks.
ghost use Rattle.std.specs.Prelude.{◌≡◌, IfOk};
ghost use Rattle.spec_touch.specs.Moved as spec;
ghost use Rattle.spec_touch.specs.Plain as plain;
ghost use Rattle.xt_edit.specs.MoveTelling.{move_change_in};
ghost use Rattle.xt_questions.specs.View.{question_of};
ghost use Rattle.xt_touch.specs.View.{moved_by};

use crate::Modes;
use crate::source::SourceMarks;
use spec_document::Axis;
use std::alloc::Global;
use xt_edit::MoveChange;
use xt_questions::Question;
use xt_text::Memory;
use xt_tree::NodeRef;

/// A move of a node of the source, ready to be asked which questions it marks.
#[derive(Drop)]
pub(crate) enum MoveMarks {
    // The children of one node stand in another order.
    InOrder(SourceMarks),
    // The children of the node that it leaves change, and those of the one that it comes to.
    Between {
        left: SourceMarks,
        entered: SourceMarks,
    },
}

impl MoveMarks {
    /// What this move marks.
    pub(crate) fn new(alloc: Global, change: MoveChange) -> Result<MoveMarks, Memory>
        ensures { IfOk result (λ marks. moved_by marks ≡ move_change_in change) }
    {
        match change {
            MoveChange::InOrder(change) => Ok(MoveMarks::InOrder(SourceMarks::new(alloc, change)?)),
            MoveChange::Between { left, entered } => {
                let left = SourceMarks::new(alloc, left)?;
                let entered = SourceMarks::new(alloc, entered)?;
                Ok(MoveMarks::Between { left, entered })
            }
        }
    }

    /// Whether it spares this question, a choice of a rule in none of these modes. Takes no memory.
    pub(crate) fn spares(&self, asking: &Modes, question: &Question) -> bool
        ensures { result ≡ plain.spared_by_move asking.now (moved_by self.now) (question_of question.now) }
    {
        match self {
            MoveMarks::InOrder(source) => source.spares(asking, question),
            MoveMarks::Between { left, entered } => {
                left.spares(asking, question) && entered.spares(asking, question)
            }
        }
    }

    /// Whether it marks this question. Takes no memory.
    pub(crate) fn touches(&self, question: &Question) -> bool
        ensures { result ≡ spec.move_touched (moved_by self.now) (question_of question.now) }
    {
        match self {
            MoveMarks::InOrder(source) => asks_order(question) || source.touches(question),
            MoveMarks::Between { left, entered } => {
                (left.touches(question) || entered.touches(question))
                    && !stays_in_move(left, entered, question)
            }
        }
    }
}

// Whether it is asked of a node that goes along with a move to another parent, and has the answer that it had.
fn stays_in_move(left: &SourceMarks, entered: &SourceMarks, question: &Question) -> bool
    ensures { result ≡ spec.stays_in_move left.now entered.now (question_of question.now) }
{
    match question {
        Question::Step(node, axis, _) => {
            goes_along(left, entered, *node) && stays_along(*axis, left.is_child(*node))
        }
        Question::Text(node) => goes_along(left, entered, *node) && !left.is_child(*node),
        Question::Name(node) => goes_along(left, entered, *node),
        Question::Place(_) => false,
        Question::Order(_) => false,
        Question::Key(_, _) => false,
        Question::Choice(_, _, _) => false,
        Question::Copy(node) => goes_along(left, entered, *node) && !left.is_child(*node),
        Question::Unit(_) => false,
        Question::External(_) => false,
    }
}

// Whether the node is the moved one or stands below it, and keeps its number.
fn goes_along(left: &SourceMarks, entered: &SourceMarks, node: NodeRef) -> bool
    ensures { result ≡ spec.goes_along left.now entered.now node }
{
    left.goes_or_comes(node) && entered.goes_or_comes(node)
}

// Whether such a node finds on this axis what it found.
fn stays_along(axis: Axis, moved: bool) -> bool
    ensures { result ≡ spec.stays_along axis moved }
{
    match axis {
        Axis::Itself => true,
        Axis::Child => true,
        Axis::Descendant => true,
        Axis::DescendantOrSelf => true,
        Axis::Attribute => true,
        Axis::Namespace => true,
        Axis::FollowingSibling => !moved,
        Axis::PrecedingSibling => !moved,
        Axis::Following => false,
        Axis::Preceding => false,
        Axis::Parent => false,
        Axis::Ancestor => false,
        Axis::AncestorOrSelf => false,
    }
}

// Whether it asks for the order of nodes, some of which may have been moved.
fn asks_order(question: &Question) -> bool
    ensures { result ≡ spec.asks_order (question_of question.now) }
{
    match question {
        Question::Step(_, _, _) => false,
        Question::Text(_) => false,
        Question::Name(_) => false,
        Question::Place(_) => false,
        Question::Order(_) => true,
        Question::Key(_, _) => false,
        Question::Choice(_, _, _) => false,
        Question::Copy(_) => false,
        Question::Unit(_) => false,
        Question::External(_) => false,
    }
}
