// What was read, of a world and of a run.
use crate::{Answer, Given, Question, Wanted};

/// What was read by what asks a world.
#[derive(Drop)]
pub enum Read {
    /// A question that was asked, and its answer.
    Asked(Question, Answer),
    /// What was needed of the run, how deep below the level of its instantiation the content stands that
    /// needed it, and what was given.
    Saw(Wanted, u64, Given),
}
