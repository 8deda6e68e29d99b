// How far it was gone along a record.
ghost use Rattle.std.specs.Prelude.{◌≡◌, [], true};
ghost use Rattle.xt_tree.specs.StreamView.{streams_of};
ghost use Rattle.xt_result.specs.Silent.{all_messages};

use std::rc::Rc;
use xt_tree::Items;

/// How far it was gone along a record.
#[derive(Drop)]
pub struct Way {
    /// The streams of all that was entered.
    pub parts: Vec<Rc<Items>>,
    /// With so many levels fewer below the call's own, what was entered and needed comes to the same.
    pub spare: u64,
    /// It says so only where there is no message in these streams.
    pub is_silent: bool,
    ghost silent: { is_silent ≡ true → all_messages (streams_of parts.items) ≡ [] },
}
