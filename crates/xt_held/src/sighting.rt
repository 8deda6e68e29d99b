// Sources with what is seen of them.
ghost use Rattle.std.specs.Prelude.{◌≡◌, IfOk, Some};
ghost use Rattle.std.specs.Option.{option_copied, option_map};
ghost use Rattle.spec_change.specs.Change as spec;
ghost use Rattle.spec_change.specs.Change.{IsEdit};
ghost use Rattle.spec_move.specs.Changed as moves;
ghost use Rattle.spec_move.specs.Changed.{IsMove};
ghost use Rattle.xt_edit.specs.MoveTelling.{move_change_in};
ghost use Rattle.xt_edit.specs.Telling.{change_in};
ghost use Rattle.xt_edit.specs.View.{edit_of};

use crate::stylesheet::Compiled;
use std::alloc::Global;
use xt_edit::{Change, Edit, MoveChange};
use xt_strip::Sighted;
use xt_text::{Memory, Path};
use xt_tree::Doc;

/// The document that the edit made of the old source, with what is seen of it by the rules of these modules.
pub(crate) fn sighted_after(
    alloc: Global,
    known: Option<&Compiled>,
    old: &Sighted,
    edit: &Edit,
    document: Doc,
) -> Result<Sighted, Memory>
    requires { IsEdit (edit_of edit.now) old.now document }
    ensures { IfOk result (λ sighted. sighted ≡ document) }
{
    match known {
        None => Ok(Sighted::new(document)),
        Some(known) => match known {
            Compiled::Refused(_) => Ok(Sighted::new(document)),
            Compiled::Stylesheet(_, space_rules, _) => {
                old.edited(alloc, space_rules, edit, document)
            }
        },
    }
}

/// The document of a source that may be there.
pub(crate) fn document_in(source: &Option<Sighted>) -> Option<&Doc>
    ensures { option_copied result ≡ source.now }
{
    match source {
        None => None,
        Some(source) => Some(source.document()),
    }
}

/// What the edit that made the new source of the old one changed.
pub(crate) fn change_of(
    alloc: Global,
    old: &Sighted,
    edit: &Edit,
    new: &Sighted,
) -> Result<Change, Memory>
    requires { IsEdit (edit_of edit.now) old.now new.now }
    ensures { IfOk result (λ change. spec.change_of (edit_of edit.now) old.now new.now ≡ Some (change_in change)) }
{
    xt_edit::change_of(alloc, old.document(), edit, new.document())
}

/// What the move that made the new source of the old one changed.
pub(crate) fn move_change_of(
    alloc: Global,
    old: &Sighted,
    path: &Path,
    other: &Path,
    new: &Sighted,
) -> Result<Option<MoveChange>, Memory>
    requires { IsMove path.now other.now old.now new.now }
    ensures { IfOk result (λ change. option_map move_change_in change ≡ moves.move_change path.now other.now old.now new.now) }
{
    xt_edit::move_change_of(alloc, old.document(), path, other, new.document())
}
