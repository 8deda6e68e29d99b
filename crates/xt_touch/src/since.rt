// What changed since a run.
ghost use Rattle.std.specs.Prelude.{◌≡◌, ◌∷◌, ◌++◌, [], true, false, length, nat_lt, IfOk};
ghost use Rattle.spec_meaning.specs.Question as asked;
ghost use Rattle.spec_node.specs.declared.node_ref.NodeRef.{NodeRef as Node};
ghost use Rattle.spec_touch.specs.Marks as spec;
ghost use Rattle.xt_questions.specs.View.{question_of};
ghost use Rattle.xt_touch.specs.Named.{Covers};
ghost use Rattle.xt_touch.specs.View.{keep_sheet, marked_by, most_remembered, remembered, since_of, some_move, world_change_of};

use crate::{Marks, Named, WorldChange};
use std::alloc::Global;
use std::rc::Rc;
use xt_questions::Question;
use xt_text::Memory;

/// What changed since a run, change by change. As many as 256 are remembered; after more than that anything may be
/// another.
#[derive(Drop)]
pub struct Since {
    changes: Vec<Rc<Marks>>,
}

// How many changes are remembered.
const fn most_remembered() -> usize
    ensures { result ≡ most_remembered }
{
    256
}

impl Since {
    /// Nothing changed. Takes no memory.
    pub fn nothing(alloc: Global) -> Since
        ensures { since_of result ≡ [] }
    {
        Since {
            changes: Vec::new(alloc),
        }
    }

    /// Anything may be another.
    pub fn anything(alloc: Global) -> Result<Since, Memory>
        ensures { IfOk result (λ since. since_of since ≡ spec.Anything ∷ []) }
    {
        let marks = Marks::new(alloc, WorldChange::Anything)?;
        let mut changes = Vec::new(alloc);
        changes.push(Rc::new(alloc, marks)?)?;
        Ok(Since { changes })
    }

    /// The same changes. They share their marks.
    pub fn copy(&self, alloc: Global) -> Result<Since, Memory>
        ensures { IfOk result (λ since. since_of since ≡ since_of self.now) }
    {
        let mut changes = Vec::new(alloc);
        for marks in &self.changes {
            changes.push(marks.clone()?)?;
        }
        Ok(Since { changes })
    }

    /// These changes and then one more.
    pub fn and(&self, alloc: Global, change: WorldChange) -> Result<Since, Memory>
        ensures { IfOk result (λ since. since_of since ≡ remembered (since_of self.now) (world_change_of change)) }
    {
        if self.has_room() {
            let marks = Marks::new(alloc, change)?;
            return self.with(alloc, marks);
        }
        drop(change);
        Since::anything(alloc)
    }

    fn has_room(&self) -> bool
        ensures { result ≡ nat_lt (length (since_of self.now)) most_remembered }
    {
        self.changes.len() < most_remembered()
    }

    fn with(&self, alloc: Global, marks: Marks) -> Result<Since, Memory>
        ensures { IfOk result (λ since. since_of since ≡ since_of self.now ++ marked_by marks ∷ []) }
    {
        let mut since = self.copy(alloc)?;
        since.changes.push(Rc::new(alloc, marks)?)?;
        Ok(since)
    }

    /// Whether one of them marks this question. Takes no memory.
    pub fn marks(&self, question: &Question) -> bool
        ensures { result ≡ spec.any_marks (since_of self.now) (question_of question.now) }
    {
        for marks in &self.changes {
            if marks.is_marked(question) {
                return true;
            }
        }
        false
    }

    /// Whether after one of them this question must be asked: not all that is marked must. Takes no memory.
    pub fn asks(&self, question: &Question) -> bool
        ensures { result ≡ spec.any_asks (since_of self.now) (question_of question.now) }
    {
        for marks in &self.changes {
            if marks.is_asked(question) {
                return true;
            }
        }
        false
    }

    /// Where it says so, no question must be asked of which this is what is named. Takes no memory.
    pub fn spares_all(&self, named: &Named) -> bool
        ensures { result ≡ true → (question : asked.Question Node) → Covers named.now question
            → spec.any_asks (since_of self.now) question ≡ false }
    {
        for marks in &self.changes {
            if !marks.spares_all(named) {
                return false;
            }
        }
        true
    }

    /// Where it says so, none of them marks any question of which this is what is named. Takes no memory.
    pub fn marks_none(&self, named: &Named) -> bool
        ensures { result ≡ true → (question : asked.Question Node) → Covers named.now question
            → spec.any_marks (since_of self.now) question ≡ false }
    {
        for marks in &self.changes {
            if !marks.marks_none(named) {
                return false;
            }
        }
        true
    }

    /// Whether each of them leaves the stylesheet as it was: an edit or a move of the source, or a parameter. Takes no memory.
    pub fn keeps_stylesheet(&self) -> bool
        ensures { result ≡ keep_sheet (since_of self.now) }
    {
        for marks in &self.changes {
            if !marks.keeps_stylesheet() {
                return false;
            }
        }
        true
    }

    /// Whether one of them moves a node of the source. Takes no memory.
    pub fn moves(&self) -> bool
        ensures { result ≡ some_move (since_of self.now) }
    {
        for marks in &self.changes {
            if marks.is_move() {
                return true;
            }
        }
        false
    }
}
