// What a call comes to.
ghost use Rattle.std.specs.Prelude.{◌≡◌, [], true};
ghost use Rattle.spec_result.specs.Recovery.{messages_of};
ghost use Rattle.xt_tree.specs.StreamView.{stream_of};

use crate::outcome::Ending;
use std::rc::Rc;
use xt_tree::Items;

/// What a call comes to, with all that it enters: what is written up to its end or its refusal.
#[derive(Drop)]
pub struct Outcome {
    pub content: Rc<Items>,
    pub ending: Ending,
    /// It comes to the same with so many levels fewer, where it is not refused.
    pub spare: u64,
    /// It says so only where there is no message in what is written.
    pub is_silent: bool,
    ghost silent: { is_silent ≡ true → messages_of (stream_of content.value) ≡ [] },
}
