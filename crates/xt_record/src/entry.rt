// Records as they are kept.
ghost use Rattle.std.specs.Prelude.{◌≡◌};
ghost use Rattle.xt_record.specs.Chain.{key_in};

use crate::Record;
use crate::key::Key;
use crate::tree::Tree;
use std::rc::Rc;

/// A record with the numbers by which it is found, and its tree.
#[derive(Drop)]
pub(crate) struct Entry {
    pub(crate) record: Rc<Record>,
    pub(crate) key: Key,
    pub(crate) tree: Tree,
    ghost keyed: { ∥ key ≡ key_in record.value ∥₁ },
}
