// The tree of a text, or its least refusal.
ghost use Rattle.std.specs.Str.{chars};
ghost use Rattle.xt_avt.specs.Parsed.{Parsed};

use crate::braces::first_piece;
use crate::fault::AvtFault;
use crate::parts::Parts;
use std::alloc::Global;
use xt_names::Scope;
use xt_syntax::Avt;

/// The attribute value template that a text is (XSLT 1.0, section 7.6.2), where the prefixes of names in its
/// expressions stand for what the scope says. A text that is none has one refusal, the least of all that
/// stand in it: S10, S12, S13 or S14 of an expression, or S26 where a `}` stands alone or a `{` is not
/// closed. The text is read once, also behind a refusal.
pub fn parse_avt(alloc: Global, text: &str, scope: &Scope) -> Result<Avt, AvtFault>
    ensures { Parsed scope.now (chars text.now) result }
{
    let mut parts = Parts::new(alloc);
    let mut rest = text;
    while let Some(found) = first_piece(rest) {
        parts.push(alloc, found.piece, scope)?;
        rest = found.behind();
    }
    parts.finish()
}
