// How far a tree has grown.
ghost use Rattle.std.specs.Prelude.{◌≡◌, [], true};
ghost use Rattle.xt_tree.specs.StreamView.{streams_of};
ghost use Rattle.xt_result.specs.Silent.{all_messages};

use std::rc::Rc;
use xt_touch::Named;
use xt_tree::Items;

/// How far a tree has grown from the end of what its call did.
#[derive(Drop)]
pub(crate) struct Reach {
    /// The records from here on are of what was entered behind that.
    pub(crate) end: usize,
    /// What the trees of these write, the last first.
    pub(crate) parts: Vec<Rc<Items>>,
    /// What was asked behind that and by all of these names this.
    pub(crate) named: Named,
    /// So many levels below its own are enough for these.
    pub(crate) levels: u64,
    /// It says so only where there is no message in the parts.
    pub(crate) is_silent: bool,
    ghost silent: { is_silent ≡ true → all_messages (streams_of parts.items) ≡ [] },
}
