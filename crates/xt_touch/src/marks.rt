// Which questions a change of a world marks.
ghost use Rattle.std.specs.Prelude.{◌≡◌, ◌==◌, ℕ, List, true, false, length, IfOk};
ghost use Rattle.spec_meaning.specs.Question as asked;
ghost use Rattle.spec_node.specs.declared.node_ref.NodeRef.{NodeRef as Node};
ghost use Rattle.spec_touch.specs.Marks as spec;
ghost use Rattle.xt_questions.specs.View.{question_of};
ghost use Rattle.xt_touch.specs.Named.{Covers};
ghost use Rattle.xt_touch.specs.View.{is_move, keeps_sheet, marked_by, world_change_of};

use crate::loose::Loose;
use crate::moved::MoveMarks;
use crate::source::SourceMarks;
use crate::{Elements, Modes, Named, WorldChange};
use std::alloc::Global;
use xt_names::Expanded;
use xt_questions::Question;
use xt_text::{Memory, Text};

/// A change of a world, ready to be asked which questions it marks.
#[derive(Drop)]
pub struct Marks {
    cause: Cause,
}

// What changed.
#[derive(Drop)]
enum Cause {
    // The source, by an edit.
    Edit {
        source: SourceMarks,
        asking: Modes,
        loose: Loose,
    },
    // The source, by a move.
    Move {
        moved: MoveMarks,
        asking: Modes,
    },
    // Modules, but for the units of these elements, and for choices in other modes.
    Modules {
        units: Elements,
        asking: Option<Modes>,
    },
    // The parameter of this name.
    Parameter(Text),
    // Perhaps anything.
    Anything,
}

impl Marks {
    /// What this change marks. Takes time for all that the change holds.
    pub fn new(alloc: Global, change: WorldChange) -> Result<Marks, Memory>
        ensures { IfOk result (λ marks. marked_by marks ≡ world_change_of change) }
    {
        let cause = match change {
            WorldChange::SourceEdited {
                change,
                asking,
                loose,
            } => Cause::Edit {
                source: SourceMarks::new(alloc, change)?,
                asking,
                loose: Loose::new(alloc, loose)?,
            },
            WorldChange::SourceMoved { change, asking } => Cause::Move {
                moved: MoveMarks::new(alloc, change)?,
                asking,
            },
            WorldChange::ModulesChanged { units, asking } => Cause::Modules { units, asking },
            WorldChange::ParameterGiven(name) => Cause::Parameter(name),
            WorldChange::Anything => Cause::Anything,
        };
        Ok(Marks { cause })
    }

    /// Whether it marks this question. Takes no memory, and a few look-ups whatever the change holds.
    pub fn is_marked(&self, question: &Question) -> bool
        ensures { result ≡ spec.marks (marked_by self.now) (question_of question.now) }
    {
        match &self.cause {
            Cause::Edit {
                source,
                asking,
                loose: _,
            } => source.touches(question) && !source.spares(asking, question),
            Cause::Move { moved, asking } => {
                moved.touches(question) && !moved.spares(asking, question)
            }
            Cause::Modules { units, asking } => by_modules(units, asking, question),
            Cause::Parameter(name) => by_parameter(name, question),
            Cause::Anything => true,
        }
    }

    /// Whether the question must be asked, since it may have another answer: not all that is marked must. Takes no memory.
    pub fn is_asked(&self, question: &Question) -> bool
        ensures { result ≡ spec.asks (marked_by self.now) (question_of question.now) }
    {
        match &self.cause {
            Cause::Edit {
                source,
                asking,
                loose,
            } => edit_asks(source, asking, loose, question),
            Cause::Move { moved, asking } => {
                moved.touches(question) && !moved.spares(asking, question)
            }
            Cause::Modules { units, asking } => by_modules(units, asking, question),
            Cause::Parameter(name) => by_parameter(name, question),
            Cause::Anything => true,
        }
    }

    /// Where it says so, no question must be asked of which this is what is named. Takes no memory.
    pub fn spares_all(&self, named: &Named) -> bool
        ensures { result ≡ true → (question : asked.Question Node) → Covers named.now question
            → spec.asks (marked_by self.now) question ≡ false }
    {
        match &self.cause {
            Cause::Edit {
                source,
                asking,
                loose,
            } => edit_spares_all(source, asking, loose, named),
            Cause::Move {
                moved: _,
                asking: _,
            } => false,
            Cause::Modules {
                units: _,
                asking: _,
            } => false,
            Cause::Parameter(_) => spares_parameters(named),
            Cause::Anything => false,
        }
    }

    /// Where it says so, it marks no question of which this is what is named. Takes no memory.
    pub fn marks_none(&self, named: &Named) -> bool
        ensures { result ≡ true → (question : asked.Question Node) → Covers named.now question
            → spec.marks (marked_by self.now) question ≡ false }
    {
        match &self.cause {
            Cause::Edit {
                source,
                asking,
                loose: _,
            } => edit_marks_none(source, asking, named),
            Cause::Move {
                moved: _,
                asking: _,
            } => false,
            Cause::Modules {
                units: _,
                asking: _,
            } => false,
            Cause::Parameter(_) => spares_parameters(named),
            Cause::Anything => false,
        }
    }

    /// Whether it leaves the stylesheet as it was. Takes no memory.
    pub(crate) fn keeps_stylesheet(&self) -> bool
        ensures { result ≡ keeps_sheet (marked_by self.now) }
    {
        match &self.cause {
            Cause::Edit {
                source: _,
                asking: _,
                loose: _,
            } => true,
            Cause::Move {
                moved: _,
                asking: _,
            } => true,
            Cause::Modules {
                units: _,
                asking: _,
            } => false,
            Cause::Parameter(_) => true,
            Cause::Anything => false,
        }
    }

    /// Whether it moves a node of the source. Takes no memory.
    pub(crate) fn is_move(&self) -> bool
        ensures { result ≡ is_move (marked_by self.now) }
    {
        match &self.cause {
            Cause::Edit {
                source: _,
                asking: _,
                loose: _,
            } => false,
            Cause::Move {
                moved: _,
                asking: _,
            } => true,
            Cause::Modules {
                units: _,
                asking: _,
            } => false,
            Cause::Parameter(_) => false,
            Cause::Anything => false,
        }
    }
}

// Where it says so, a parameter that is given marks none of these questions.
fn spares_parameters(named: &Named) -> bool
    ensures { result ≡ true → (name : List ℕ) (question : asked.Question Node) → Covers named.now question → spec.by_parameter name question ≡ false }
{
    !named.external
}

// Whether a question must be asked after an edit.
fn edit_asks(source: &SourceMarks, asking: &Modes, loose: &Loose, question: &Question) -> bool
    ensures { result ≡ spec.asks (spec.SourceEdited source.now asking.now loose.now) (question_of question.now) }
{
    (source.touches(question) && source.touches_but(loose, question))
        && !source.spares(asking, question)
}

// Where it says so, none of these questions must be asked after an edit.
fn edit_spares_all(source: &SourceMarks, asking: &Modes, loose: &Loose, named: &Named) -> bool
    ensures { result ≡ true → (question : asked.Question Node) → Covers named.now question
        → spec.asks (spec.SourceEdited source.now asking.now loose.now) question ≡ false }
{
    if named.anywhere {
        return false;
    }
    if !spares_choices(asking, named) {
        return false;
    }
    !source.meets_but(loose, named)
}

// Where it says so, an edit marks none of these questions.
fn edit_marks_none(source: &SourceMarks, asking: &Modes, named: &Named) -> bool
    ensures { result ≡ true → (loose : List ℕ) (question : asked.Question Node) → Covers named.now question
        → spec.marks (spec.SourceEdited source.now asking.now loose) question ≡ false }
{
    if named.anywhere {
        return false;
    }
    if !spares_choices(asking, named) {
        return false;
    }
    !source.meets(named)
}

// Whether no rule is chosen, or choices in every mode are spared.
fn spares_choices(asking: &Modes, named: &Named) -> bool
    ensures { result ≡ true → named.now.chooses ≡ true → (length asking.now == 0) ≡ true }
{
    !named.chooses || asking.is_empty()
}

// Whether the answer tells of the stylesheet, or rests on what stands in it, and not on these units alone, nor on rules
// whose patterns have no predicate and no key().
fn by_modules(units: &Elements, asking: &Option<Modes>, question: &Question) -> bool
    ensures { result ≡ spec.by_modules units.now asking.now (question_of question.now) }
{
    match question {
        Question::Step(_, _, _) => false,
        Question::Text(_) => false,
        Question::Name(_) => false,
        Question::Place(_) => false,
        Question::Order(_) => false,
        Question::Key(_, _) => true,
        Question::Choice(_, mode, _) => in_mode(asking, mode),
        Question::Copy(_) => false,
        Question::Unit(element) => !units.has(*element),
        Question::External(_) => false,
    }
}

// Whether it is one of these modes; where there are none, any is.
fn in_mode(asking: &Option<Modes>, mode: &Option<Expanded>) -> bool
    ensures { result ≡ spec.in_mode asking.now mode.now }
{
    match asking {
        None => true,
        Some(asking) => asking.has(mode),
    }
}

// Whether it asks for the parameter of this name.
fn by_parameter(given: &Text, question: &Question) -> bool
    ensures { result ≡ spec.by_parameter given.now (question_of question.now) }
{
    match question {
        Question::Step(_, _, _) => false,
        Question::Text(_) => false,
        Question::Name(_) => false,
        Question::Place(_) => false,
        Question::Order(_) => false,
        Question::Key(_, _) => false,
        Question::Choice(_, _, _) => false,
        Question::Copy(_) => false,
        Question::Unit(_) => false,
        Question::External(name) => given.same(name),
    }
}
