// What a run leaves to the next.
use crate::stylesheet::Compiled;
use xt_own::OwnReads;
use xt_record::Pool;
use xt_touch::Since;

/// What a run keeps that ended with a result.
#[derive(Drop)]
pub(crate) struct Kept {
    /// Of each instantiation that it came through, what was read and written.
    pub records: Pool,
    /// What it rests on which rule was chosen for a node, and what the keys are.
    pub own: OwnReads,
}

/// What the last run that ended with a result left to those after it.
#[derive(Drop)]
pub(crate) struct LastRun {
    /// What it kept.
    pub kept: Kept,
    /// What changed since then: nothing, where the present outcome is its result.
    pub since: Since,
    /// What the modules were when they last were a stylesheet, where they are none.
    pub before: Option<Compiled>,
}
