// Worlds that keep what is read there.
ghost use Rattle.std.specs.Prelude.{◌≡◌, ◌++◌, ◌∷◌, [], Some, map, OnOk};
ghost use Rattle.spec_meaning.specs.Program.{State, Asked};
ghost use Rattle.xt_questions.specs.View.{answer_of, question_of, read_of};

use crate::{Answer, Given, Question, Read, Wanted, World};
use std::alloc::Global;
use xt_text::Memory;

/// A world, and what was asked and seen there.
#[derive(Drop)]
pub struct Logged<W> {
    pub world: W,
    /// In the order in which they were read.
    pub reads: Vec<Read>,
    alloc: Global,
}

impl<W> Logged<W> {
    ghost use Rattle.std.specs.Prelude.{◌≡◌, []};

    /// The world, where nothing was read yet. Takes no memory.
    pub fn new(alloc: Global, world: W) -> Logged<W>
        ensures world { result.world ≡ world }
        ensures reads { result.reads.items ≡ [] }
    {
        Logged {
            world,
            reads: Vec::new(alloc),
            alloc,
        }
    }
}

impl<W: World> World for Logged<W> {
    ghost state = { λ l. record { truth = (W.state l.world).truth; reads = Some (map read_of l.reads.items) } };

    ghost name = { λ l. W.name l.world };

    fn ask(&mut self, question: &Question) -> Result<Answer, Memory> {
        let answer = self.world.ask(question)?;
        match note_asked(self.alloc, &mut self.reads, question, &answer) {
            Ok(()) => Ok(answer),
            Err(memory) => {
                drop(answer);
                Err(memory)
            }
        }
    }

    fn see(&mut self, wanted: &Wanted, depth: u64, given: &Given) -> Result<(), Memory> {
        let wanted = wanted.copy(self.alloc)?;
        let Ok(given) = given.copy(self.alloc) else {
            drop(wanted);
            return Err(Memory);
        };
        self.reads.push(Read::Saw(wanted, depth, given))?;
        Ok(())
    }
}

// Keeps copies of a question and its answer.
fn note_asked(
    alloc: Global,
    reads: &mut Vec<Read>,
    question: &Question,
    answer: &Answer,
) -> Result<(), Memory>
    ensures { OnOk result (map read_of reads.new.items ≡ map read_of reads.old.items ++ Asked (question_of question.now) (answer_of answer.now) ∷ []) }
{
    let asked = question.copy(alloc)?;
    let Ok(kept) = answer.copy(alloc) else {
        drop(asked);
        return Err(Memory);
    };
    reads.push(Read::Asked(asked, kept))?;
    Ok(())
}
