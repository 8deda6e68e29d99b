// Changes of a world.
use crate::{Elements, Modes};
use xt_edit::{Change, MoveChange};
use xt_text::Text;
use xt_tree::NodeId;

/// What changed of a world, which is a stylesheet, parameters and a source as it is seen.
#[derive(Drop)]
pub enum WorldChange {
    /// The source is edited.
    SourceEdited {
        change: Change,
        /// The modes that have a rule whose pattern has a predicate or key(): each choice in such a mode is marked.
        asking: Modes,
        /// All children of its node, after it and as they are seen, that are no elements: these alone may be others where they
        /// stay.
        loose: Vec<NodeId>,
    },
    /// A node of the source is moved.
    SourceMoved {
        change: MoveChange,
        /// As for an edit.
        asking: Modes,
    },
    /// Modules come, go or are edited, and by the rules for white space the source is seen as before.
    ModulesChanged {
        /// Elements whose units are as they were: all other units are marked.
        units: Elements,
        /// Where the template rules are as they were, as for an edit; where they may be others, each choice is marked.
        asking: Option<Modes>,
    },
    /// The parameter of this name is given, with another value than before or for the first time.
    ParameterGiven(Text),
    /// Anything may be another, as where another source is given, or where the source is seen otherwise.
    Anything,
}
