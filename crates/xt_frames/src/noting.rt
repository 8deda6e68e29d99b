// A world that takes note of what is read of another, which it borrows.
ghost use Rattle.std.specs.Prelude.{◌≡◌, [], ◌∷◌, ◌++◌, map, OnOk};
ghost use Rattle.spec_meaning.specs.Program.{Asked};
ghost use Rattle.spec_meaning.specs.Supplies.{at_hand};
ghost use Rattle.xt_questions.specs.View.{context_of, supplies_of, question_of, answer_of, read_of};
ghost use Rattle.xt_questions.specs.Runs.{Runs};
ghost use Rattle.xt_frames.specs.Noted.{noted_in};

use crate::meant::Operand;
use std::alloc::Global;
use xp_eval::eval;
use xt_questions::{
    Answer, Context, EvalFault, Evaluate, Focus, Given, Question, Read, Supplies, Wanted, World,
};
use xt_syntax::Expr;
use xt_text::Memory;
use xt_tree::Value;

/// A world that takes note of what is asked of another, and of what is seen of the run.
#[derive(Drop)]
pub(crate) struct Noting<'a, W> {
    pub(crate) world: &'a mut W,
    pub(crate) reads: &'a mut Vec<Read>,
    pub(crate) alloc: Global,
}

impl<'a, W: World> World for Noting<'a, W> {
    ghost use Rattle.std.specs.Prelude.{◌∷◌};
    ghost use Rattle.xt_frames.specs.Noted.{noted_in};

    ghost state = { λ n. noted_in (W.state n.world.now).truth n.reads.now.items };

    ghost name = { λ n. n.world.ghost_name ∷ n.reads.ghost_name ∷ W.name n.world.now };

    fn ask(&mut self, question: &Question) -> Result<Answer, Memory> {
        let answer = self.world.ask(question)?;
        let Ok(()) = note_asked(self.alloc, self.reads, question, &answer) else {
            drop(answer);
            return Err(Memory);
        };
        Ok(answer)
    }

    fn see(&mut self, wanted: &Wanted, depth: u64, given: &Given) -> Result<(), Memory> {
        let wanted = wanted.copy(self.alloc)?;
        let Ok(given) = given.copy(self.alloc) else {
            drop(wanted);
            return Err(Memory);
        };
        self.reads.push(Read::Saw(wanted, depth, given))?;
        Ok(())
    }
}

// Adds a question and its answer to the reads.
fn note_asked(
    alloc: Global,
    reads: &mut Vec<Read>,
    question: &Question,
    answer: &Answer,
) -> Result<(), Memory>
    ensures { OnOk result (map read_of reads.new.items ≡ map read_of reads.old.items ++ Asked (question_of question.now) (answer_of answer.now) ∷ []) }
{
    let question = question.copy(alloc)?;
    let Ok(answer) = answer.copy(alloc) else {
        drop(question);
        return Err(Memory);
    };
    reads.push(Read::Asked(question, answer))?;
    Ok(())
}

impl<'a, W: World> Evaluate for Noting<'a, W> {
    fn value(
        &mut self,
        alloc: Global,
        expr: &Expr,
        focus: Focus,
        context: &Context,
        supplies: &Supplies,
    ) -> Result<Value, EvalFault> {
        eval(alloc, expr, focus, context, supplies, self)
    }
}

/// What an operand comes to, with what is read added to the reads.
pub(crate) fn noted<T: Drop, O: Operand<T>, W: World>(
    alloc: Global,
    operand: &O,
    focus: Focus,
    context: &Context,
    supplies: &Supplies,
    world: &mut W,
    reads: &mut Vec<Read>,
) -> Result<T, EvalFault>
    ensures runs { Runs O.seen (at_hand (supplies_of supplies.now) context.now.depth) context.now.depth (O.meant operand.now (context_of focus context.now)) (noted_in (W.state world.old).truth reads.old.items) (noted_in (W.state world.new).truth reads.new.items) result }
    ensures name { W.name world.new ≡ W.name world.old }
{
    let mut noting = Noting {
        world,
        reads,
        alloc,
    };
    operand.found(alloc, focus, context, supplies, &mut noting)
}
