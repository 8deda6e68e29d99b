// The names of documents.
ghost use Rattle.std.specs.Prelude.{◌≡◌};
ghost use Rattle.xt_wire.specs.View.{name_of};
ghost use Rattle.xt_session.specs.State.{name_in};

use xt_held::DocName;
use xt_wire::DocumentName;

/// The name that a command gives, as that of what is held.
pub(crate) fn doc_name(name: &DocumentName) -> DocName<'_>
    ensures { name_in result ≡ name_of name.now }
{
    match name {
        DocumentName::Source => DocName::Source,
        DocumentName::Module(name) => DocName::Module(name),
    }
}
