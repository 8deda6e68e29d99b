// Worlds.
ghost use Rattle.std.specs.Prelude.{◌≡◌, ℕ, List, IfOk, OnOk, OnErr};
ghost use Rattle.spec_meaning.specs.Program.{State, Saw, asked, noted};
ghost use Rattle.spec_node.specs.declared.node_ref.NodeRef.{NodeRef};
ghost use Rattle.xt_questions.specs.View.{question_of, answer_of, wanted_of, given_of};

use crate::{Answer, Given, Question, Wanted};
use xt_text::Memory;
use xt_tree::NodeRef;

/// What answers questions truly, for the stylesheet, the source and the parameters that it stands for. It may
/// keep what was asked of it, and what was seen of the run.
pub trait World {
    /// What is true there, and what was read so far, where that is kept.
    ghost state: { Self → State NodeRef };

    /// The references that it holds: no call changes them.
    ghost name: { Self → List ℕ };

    /// The true answer, which is noted as read where the world keeps that. After want of memory what is true
    /// there is as before.
    fn ask(&mut self, question: &Question) -> Result<Answer, Memory>
        ensures answer { IfOk result (λ a. answer_of a ≡ (state self.old).truth (question_of question.now)) }
        ensures asked { OnOk result (state self.new ≡ asked (question_of question.now) (state self.old)) }
        ensures err { OnErr result ((state self.new).truth ≡ (state self.old).truth) }
        ensures name { name self.new ≡ name self.old };

    /// Notes what was given of the run, in a content so deep below the level of its instantiation.
    fn see(&mut self, wanted: &Wanted, depth: u64, given: &Given) -> Result<(), Memory>
        ensures seen { OnOk result (state self.new ≡ noted (Saw (wanted_of wanted.now) depth (given_of given.now)) (state self.old)) }
        ensures err { OnErr result ((state self.new).truth ≡ (state self.old).truth) }
        ensures name { name self.new ≡ name self.old };
}
