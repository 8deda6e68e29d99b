// Names that stand in a document many times, each in memory once.
ghost use Rattle.std.specs.Prelude.{◌≡◌, IfOk, IfSome};

use indexmap::IndexMap;
use std::alloc::Global;
use xt_text::{Memory, Text};

/// Names that were met so far.
#[derive(Drop)]
pub(crate) struct SharedNames {
    names: IndexMap<String, Text>,
}

impl SharedNames {
    /// No name. Takes no memory.
    pub(crate) fn new(alloc: Global) -> SharedNames {
        SharedNames {
            names: IndexMap::new(alloc),
        }
    }

    /// The same name, in the memory of the one that was met first.
    pub(crate) fn share(&mut self, alloc: Global, name: &Text) -> Result<Text, Memory>
        ensures { IfOk result (λ shared. shared ≡ name.now) }
    {
        match self.known(alloc, name)? {
            Some(shared) => Ok(shared),
            None => self.meet(alloc, name),
        }
    }

    // The name, where it was met before.
    fn known(&self, alloc: Global, name: &Text) -> Result<Option<Text>, Memory>
        ensures { IfOk result (λ known. IfSome known (λ shared. shared ≡ name.now)) }
    {
        match self.names.get(name.as_str()) {
            None => Ok(None),
            Some(known) => {
                if known.same(name) {
                    Ok(Some(known.copy(alloc)?))
                } else {
                    Ok(None)
                }
            }
        }
    }

    // The name, which is met for the first time.
    fn meet(&mut self, alloc: Global, name: &Text) -> Result<Text, Memory>
        ensures { IfOk result (λ shared. shared ≡ name.now) }
    {
        let key = String::from_str(alloc, name.as_str())?;
        self.names.insert(key, name.copy(alloc)?)?;
        name.copy(alloc)
    }
}
