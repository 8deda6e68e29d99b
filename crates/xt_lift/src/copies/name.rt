// Copies of names that are made, of lists of names, and of namespaces.
ghost use Rattle.std.specs.Prelude.{◌≡◌, ℕ, List, IfOk};
ghost use Rattle.spec_document.specs.Name as name;
ghost use Rattle.xt_names.specs.View.{entry_of};
ghost use Rattle.xt_syntax.specs.PartView.{made_name_of};

use crate::copies::template::copy_avt;
use crate::copies::{Copied, copy_all, copy_if};
use std::alloc::Global;
use xt_names::{Expanded, copy_name};
use xt_syntax::{MadeName, Namespace};
use xt_text::Memory;

impl Copied for Expanded {
    ghost Seen = { name.Expanded };

    ghost seen = { λ n. n };

    fn copied(&self, alloc: Global) -> Result<Expanded, Memory> {
        copy_name(alloc, self)
    }
}

impl Copied for Namespace {
    ghost Seen = { List ℕ × List ℕ };

    ghost seen = { entry_of };

    fn copied(&self, alloc: Global) -> Result<Namespace, Memory> {
        let prefix = self.prefix.copy(alloc)?;
        let uri = self.uri.copy(alloc)?;
        Ok(Namespace { prefix, uri })
    }
}

/// The same names in the same order.
pub(crate) fn copy_names(alloc: Global, list: &[Expanded]) -> Result<Vec<Expanded>, Memory>
    ensures { IfOk result (λ copies. copies.items ≡ list.now) }
{
    copy_all(alloc, list)
}

/// The same name that is made.
pub(crate) fn copy_made_name(alloc: Global, made: &MadeName) -> Result<MadeName, Memory>
    ensures { IfOk result (λ copy. made_name_of copy ≡ made_name_of made.now) }
{
    let name = copy_avt(alloc, &made.name)?;
    let namespace = copy_if(alloc, &made.namespace)?;
    Ok(MadeName { name, namespace })
}
