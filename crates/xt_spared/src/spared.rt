// What need not be asked again.
ghost use Rattle.std.specs.Prelude.{◌≡◌, ◌&&◌, not, true, false, IfSome};
ghost use Rattle.std.specs.List.{list_any};
ghost use Rattle.spec_meaning.specs.Question as asked;
ghost use Rattle.spec_node.specs.declared.node_ref.NodeRef.{NodeRef as Node};
ghost use Rattle.spec_touch.specs.Marks.{any_marks};
ghost use Rattle.xt_questions.specs.View.{question_of};
ghost use Rattle.xt_touch.specs.Named.{Covers};
ghost use Rattle.xt_touch.specs.View.{since_of};
ghost use Rattle.xt_spared.specs.View.{IsAmong, IsSparedBy, all_stay, by_own_reads, is_key_among, is_text_among, own_of, owns_in, owns_of, questions_of, stays, stays_at};

use crate::{OwnChoice, OwnChoices};
use spec_touch::what_is_not_marked_need_not_be_asked;
use std::rc::Rc;
use xt_names::Expanded;
use xt_questions::Question;
use xt_text::Text;
use xt_touch::{Named, Since};

/// The keys of a name that stay: each value is answered as before, but for these.
#[derive(Drop)]
pub struct KeyThatStays {
    pub name: Expanded,
    pub but: Vec<Text>,
}

/// Which questions need not be asked again: those that no change since asks for, those of values in which a key stays, and
/// the choices of which this is so of each question that was asked for them.
#[derive(Drop)]
pub struct Spared<'a> {
    since: &'a Since,
    // Those that stay.
    keys: Vec<KeyThatStays>,
    choices: Option<&'a OwnChoices>,
    // Choices that were made only now, with what was asked for them.
    made_now: OwnChoices,
}

impl<'a> Spared<'a> {
    /// What these changes, these keys that stay, these choices and those that were made only now let one spare.
    pub fn new(
        since: &'a Since,
        keys: Vec<KeyThatStays>,
        choices: Option<&'a OwnChoices>,
        made_now: OwnChoices,
    ) -> Spared<'a>
        ensures since { result.since.now ≡ since.now }
        ensures keys { result.keys.items ≡ keys.items }
        ensures choices { owns_in result.choices ≡ owns_in choices.entry }
        ensures made_now { owns_of result.made_now ≡ owns_of made_now }
    {
        Spared {
            since,
            keys,
            choices,
            made_now,
        }
    }

    /// Whether the question need not be asked again. Takes no memory.
    pub fn spares(&self, question: &Question) -> bool
        ensures spared { result ≡ true → IsSparedBy self.now (question_of question.now) }
        ensures marked { result ≡ false → any_marks (since_of self.now.since.now) (question_of question.now) ≡ true }
    {
        what_is_not_marked_need_not_be_asked();
        if self.stays(question) {
            return true;
        }
        if !is_choice(question) {
            return false;
        }
        if self.own_choice(question).is_some() {
            return true;
        }
        self.found_in(&self.made_now, question).is_some()
    }

    /// Where it says so, no question of which this is what is named need be asked again. Takes no memory.
    pub fn spares_all(&self, named: &Named) -> bool
        ensures { result ≡ true → (question : asked.Question Node) → Covers named.now question → IsSparedBy self.now question }
    {
        self.since.spares_all(named)
    }

    /// Whether a change marks the question, but for keys that stay for each value and for choices of which no other key was
    /// asked. More is marked than must be asked. Takes no memory.
    pub fn marks_alone(&self, question: &Question) -> bool
        ensures marked { result ≡ true → any_marks (since_of self.now.since.now) (question_of question.now) ≡ true }
        ensures unmarked { result ≡ false → by_own_reads (question_of question.now) ≡ false → any_marks (since_of self.now.since.now) (question_of question.now) ≡ false }
    {
        if has_own_reads(question) && !self.may_see(question) {
            return false;
        }
        self.since.marks(question)
    }

    // Whether what changed may be seen by a question whose answer is made of what is asked for it: of a key that does not stay
    // for each value, or a choice for which such a one was asked.
    fn may_see(&self, question: &Question) -> bool {
        match question {
            Question::Key(name, _) => !stays_for_all(self.keys.as_slice(), name),
            Question::Choice(_, _, _) => self.choice_may_see(question),
            _ => false,
        }
    }

    fn choice_may_see(&self, question: &Question) -> bool {
        if self.keys.is_empty() {
            return false;
        }
        match self.own_choice(question) {
            None => false,
            Some(own) => !all_stay_for_all(self.keys.as_slice(), own.reads.as_slice()),
        }
    }

    /// Where it says so, no change marks any question of which this is what is named. Takes no memory.
    pub fn marks_none(&self, named: &Named) -> bool
        ensures { result ≡ true → (question : asked.Question Node) → Covers named.now question → any_marks (since_of self.now.since.now) question ≡ false }
    {
        self.since.marks_none(named)
    }

    /// The choice of this question of which each question that was asked for it need not be asked again. Takes no memory.
    pub fn own_choice(&self, question: &Question) -> Option<&'a Rc<OwnChoice>>
        ensures question { IfSome result (λ own. question_of own.now.value.question ≡ question_of question.now) }
        ensures among { IfSome result (λ own. IsAmong (own_of own.now.value) (owns_in self.now.choices)) }
        ensures stays { IfSome result (λ own. all_stay (since_of self.now.since.now) self.now.keys.items (own_of own.now.value).reads ≡ true) }
    {
        self.found_in(self.choices?, question)
    }

    // The same of these choices.
    fn found_in<'b>(
        &self,
        choices: &'b OwnChoices,
        question: &Question,
    ) -> Option<&'b Rc<OwnChoice>>
        ensures question { IfSome result (λ own. question_of own.now.value.question ≡ question_of question.now) }
        ensures among { IfSome result (λ own. IsAmong (own_of own.now.value) (owns_of choices.now)) }
        ensures stays { IfSome result (λ own. all_stay (since_of self.now.since.now) self.now.keys.items (own_of own.now.value).reads ≡ true) }
    {
        let own = choices.find(question)?;
        if self.all_stay(own.reads.as_slice()) {
            Some(own)
        } else {
            None
        }
    }

    fn all_stay(&self, questions: &[Question]) -> bool
        ensures { result ≡ all_stay (since_of self.now.since.now) self.now.keys.items (questions_of questions.now) }
    {
        for question in questions {
            if !self.stays(question) {
                return false;
            }
        }
        true
    }

    fn stays(&self, question: &Question) -> bool
        ensures { result ≡ stays (since_of self.now.since.now) self.now.keys.items (question_of question.now) }
    {
        !self.since.asks(question) || is_key_among(self.keys.as_slice(), question)
    }
}

fn is_choice(question: &Question) -> bool {
    matches!(question, Question::Choice(_, _, _))
}

// Whether its answer is made of what is asked for it.
fn has_own_reads(question: &Question) -> bool
    ensures { result ≡ by_own_reads (question_of question.now) }
{
    match question {
        Question::Step(_, _, _) => false,
        Question::Text(_) => false,
        Question::Name(_) => false,
        Question::Place(_) => false,
        Question::Order(_) => false,
        Question::Key(_, _) => true,
        Question::Choice(_, _, _) => true,
        Question::Copy(_) => false,
        Question::Unit(_) => false,
        Question::External(_) => false,
    }
}

// Whether it asks of one of these keys, and of a value that is answered as before.
fn is_key_among(keys: &[KeyThatStays], question: &Question) -> bool
    ensures { result ≡ is_key_among keys.now (question_of question.now) }
{
    match question {
        Question::Step(_, _, _) => false,
        Question::Text(_) => false,
        Question::Name(_) => false,
        Question::Place(_) => false,
        Question::Order(_) => false,
        Question::Key(name, text) => one_stays_at(keys, name, text),
        Question::Choice(_, _, _) => false,
        Question::Copy(_) => false,
        Question::Unit(_) => false,
        Question::External(_) => false,
    }
}

fn one_stays_at(keys: &[KeyThatStays], name: &Expanded, text: &Text) -> bool
    ensures { result ≡ list_any (stays_at name.now text.now) keys.now }
{
    for key in keys {
        if stays_at(key, name, text) {
            return true;
        }
    }
    false
}

// Whether the key is of this name, and this value of it is answered as before.
fn stays_at(key: &KeyThatStays, name: &Expanded, text: &Text) -> bool
    ensures { result ≡ stays_at name.now text.now key.now }
{
    name.same(&key.name) && !is_text_among(key.but.as_slice(), text)
}

// Whether each of these that is asked of a key is of one that stays for each value.
fn all_stay_for_all(keys: &[KeyThatStays], questions: &[Question]) -> bool {
    for question in questions {
        if let Question::Key(name, _) = question {
            if !stays_for_all(keys, name) {
                return false;
            }
        }
    }
    true
}

// Whether the keys of this name stay for each value.
fn stays_for_all(keys: &[KeyThatStays], name: &Expanded) -> bool {
    for key in keys {
        if key.but.is_empty() && name.same(&key.name) {
            return true;
        }
    }
    false
}

/// Whether one of these is this text. Takes no memory.
pub fn is_text_among(texts: &[Text], text: &Text) -> bool
    ensures { result ≡ is_text_among text.now texts.now }
{
    for other in texts {
        if other.same(text) {
            return true;
        }
    }
    false
}
