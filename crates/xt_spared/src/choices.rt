// Choices of template rules, with what was asked for each.
ghost use Rattle.std.specs.Prelude.{◌≡◌, ◌<◌, ◌++◌, ◌∷◌, [], true, IfSome, OnOk};
ghost use Rattle.xt_questions.specs.View.{question_of};
ghost use Rattle.xt_spared.specs.View.{IsAmong, own_of, owns_of};

use indexmap::IndexMap;
use std::alloc::Global;
use std::rc::Rc;
use xt_names::Expanded;
use xt_questions::Question;
use xt_text::Memory;
use xt_tree::{NodeRef, Part};

/// A choice of a template rule, with the questions that were asked for it, each once.
#[derive(Drop)]
pub struct OwnChoice {
    pub question: Question,
    pub reads: Vec<Question>,
}

/// Choices of template rules, each with what was asked for it.
#[derive(Drop)]
pub struct OwnChoices {
    // In the order in which they were added.
    list: Vec<Rc<OwnChoice>>,
    // The turn of the latest of each node, and of each choice that of the one before it of the same node; its own where it
    // is the first. Both are hints: what is found there is looked at.
    latest: IndexMap<Key, usize>,
    before: Vec<usize>,
}

// The numbers of a node.
#[derive(Clone, Copy, Debug, PartialEq, Eq, Hash)]
struct Key {
    node: u64,
    part: u64,
}

impl OwnChoices {
    /// None. Takes no memory.
    pub fn new(alloc: Global) -> OwnChoices
        ensures { owns_of result ≡ [] }
    {
        OwnChoices {
            list: Vec::new(alloc),
            latest: IndexMap::new(alloc),
            before: Vec::new(alloc),
        }
    }

    /// Adds one. What is asked of no node is not found again.
    pub fn add(&mut self, own: Rc<OwnChoice>) -> Result<(), Memory>
        ensures { OnOk result (owns_of self.new ≡ owns_of self.old ++ own_of own.value ∷ []) }
    {
        let turn = self.list.len();
        let key = key_of(&own.question);
        self.list.push(own)?;
        let before = self.latest_at(key, turn)?;
        self.before.push(before)?;
        Ok(())
    }

    // Says that the latest of this key is at this turn, and gives the turn of the one before it.
    fn latest_at(&mut self, key: Option<Key>, turn: usize) -> Result<usize, Memory>
        ensures { self.new.list ≡ self.old.list }
    {
        match key {
            None => Ok(turn),
            Some(key) => Ok(self.latest.insert(key, turn)?.unwrap_or(turn)),
        }
    }

    /// The latest of this question, where it is a choice. Takes no memory.
    pub fn find(&self, question: &Question) -> Option<&Rc<OwnChoice>>
        ensures question { IfSome result (λ own. question_of own.now.value.question ≡ question_of question.now) }
        ensures among { IfSome result (λ own. IsAmong (own_of own.now.value) (owns_of self.now)) }
    {
        let mut end = self.list.len();
        while let Some(turn) = self.latest_before(question, end) {
            let own = &self.list[turn];
            if is_same_choice(&own.question, question) {
                return Some(own);
            }
            end = turn;
        }
        None
    }

    // The turn of the latest before this turn that may be of this choice. Where there is one at this turn, it is of the same
    // node.
    fn latest_before(&self, question: &Question, turn: usize) -> Option<usize>
        ensures { IfSome result (λ t. t < turn) }
    {
        let latest = if turn < self.before.len() {
            self.before[turn]
        } else {
            self.latest_of(question)?
        };
        if latest < turn { Some(latest) } else { None }
    }

    fn latest_of(&self, question: &Question) -> Option<usize> {
        self.latest.get(&key_of(question)?).copied()
    }
}

fn key_of(question: &Question) -> Option<Key> {
    match question {
        Question::Choice(node, _, _) => Some(Key {
            node: node.node.number,
            part: part_number(node.part),
        }),
        _ => None,
    }
}

// Apart for the parts of one node, as long as they are few.
fn part_number(part: Part) -> u64 {
    match part {
        Part::Itself => 0,
        Part::Attribute(number) => number,
        Part::Namespace(number) => u64::MAX - number,
    }
}

/// Where it says so, both are the same choice.
pub fn is_same_choice(one: &Question, other: &Question) -> bool
    ensures { result ≡ true → question_of one.now ≡ question_of other.now }
{
    match (one, other) {
        (
            Question::Choice(node, mode, candidates),
            Question::Choice(other_node, other_mode, other_candidates),
        ) => {
            node == other_node && is_same_mode(mode, other_mode) && candidates == other_candidates
        }
        _ => false,
    }
}

fn is_same_mode(mode: &Option<Expanded>, other: &Option<Expanded>) -> bool
    ensures { result ≡ true → mode.now ≡ other.now }
{
    match (mode, other) {
        (None, None) => true,
        (Some(name), Some(other)) => name.same(other),
        _ => false,
    }
}
