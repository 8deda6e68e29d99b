// Trees of records.
ghost use Rattle.std.specs.Prelude.{◌≡◌, [], true};
ghost use Rattle.spec_result.specs.Recovery.{messages_of};
ghost use Rattle.xt_tree.specs.StreamView.{stream_of};

use std::rc::Rc;
use xt_touch::Named;
use xt_tree::Items;

/// What a tree of records says by itself, wherever all of its questions have their answers.
#[derive(Drop)]
pub struct Summary {
    /// What its call writes, with what all that it entered writes in its holes.
    pub content: Rc<Items>,
    /// What its questions name.
    pub named: Named,
    /// How many levels below its own it takes.
    pub levels: u64,
    /// It says so only where there is no message in what it writes.
    pub is_silent: bool,
    ghost silent: { is_silent ≡ true → messages_of (stream_of content.value) ≡ [] },
}

/// A record with those of all that its call entered, which stand before it.
#[derive(Drop)]
pub struct Tree {
    /// How many records there are, with its own.
    pub size: usize,
    /// What it says by itself, where it does.
    pub whole: Option<Rc<Summary>>,
}
