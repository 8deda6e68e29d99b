// Changes that are ready to be adopted.
use crate::outcome::{Came, Outcome};
use crate::stylesheet::Compiled;
use xt_strip::Sighted;
use xt_text::Text;
use xt_touch::Since;
use xt_tree::{Doc, NodeId};

/// A change, with the outcome that it will have where it is no change in a batch. Nothing is changed until it is adopted,
/// and it may as well be let go.
#[derive(Drop)]
pub struct Ready {
    pub(crate) change: Change,
    pub(crate) next: NodeId,
    pub(crate) coming: Coming,
}

/// What changes.
#[derive(Drop)]
pub(crate) enum Change {
    /// This document becomes the source.
    Source(Sighted),
    /// This document becomes the module of this name, with which the modules are this.
    Module(String, Doc, Recompiled),
    /// There is no module of this name any more, and the modules are this.
    Dropped(Text, Recompiled),
    /// The parameter of this name has this value.
    Parameter(String, Text),
    /// What is pending becomes present, and the modules are this.
    Committed(Recompiled),
}

/// What the modules are after a change.
#[derive(Drop)]
pub(crate) enum Recompiled {
    /// What is held of them stays: none has changed, or that is asked only when the batch is committed.
    AsBefore,
    /// This.
    Now(Option<Compiled>),
}

/// What comes of a change.
#[derive(Drop)]
pub(crate) enum Coming {
    /// This outcome.
    Told(Came),
    /// None, since it is a change in a batch. This is what changed since the last run that ended with a result.
    Pending(Since),
}

impl Ready {
    ghost use Rattle.std.specs.Prelude.{◌≡◌};
    ghost use Rattle.std.specs.Option.{option_map};
    ghost use Rattle.xt_held.specs.OutcomeView.{outcome_of};
    ghost use Rattle.xt_held.specs.View.{told_of};

    /// What the transformation will come to; of a change in a batch that is not told. Takes no memory.
    pub fn outcome(&self) -> Option<&Outcome>
        ensures { option_map (λ outcome. outcome_of outcome.now) result ≡ told_of self.now }
    {
        match &self.coming {
            Coming::Told(came) => Some(&came.outcome),
            Coming::Pending(_) => None,
        }
    }
}
