// Copies of attribute value templates.
ghost use Rattle.std.specs.Prelude.{◌≡◌, IfOk};
ghost use Rattle.spec_stylesheet.specs.ValueTemplate as trees;
ghost use Rattle.xt_syntax.specs.PartView.{avt_of, avt_part_of};

use crate::copies::expr::copy_expr;
use crate::copies::{Copied, copy_all};
use std::alloc::Global;
use xt_syntax::{Avt, AvtPart};
use xt_text::Memory;

impl Copied for AvtPart {
    ghost Seen = { trees.AvtPart };

    ghost seen = { avt_part_of };

    fn copied(&self, alloc: Global) -> Result<AvtPart, Memory> {
        match self {
            AvtPart::Text(text) => Ok(AvtPart::Text(text.copy(alloc)?)),
            AvtPart::Expr(expr) => Ok(AvtPart::Expr(copy_expr(alloc, expr)?)),
        }
    }
}

impl Copied for Avt {
    ghost Seen = { trees.Avt };

    ghost seen = { avt_of };

    fn copied(&self, alloc: Global) -> Result<Avt, Memory> {
        copy_avt(alloc, self)
    }
}

/// The same attribute value template.
pub(crate) fn copy_avt(alloc: Global, avt: &Avt) -> Result<Avt, Memory>
    ensures { IfOk result (λ copy. avt_of copy ≡ avt_of avt.now) }
{
    let parts = copy_all(alloc, avt.parts.as_slice())?;
    Ok(Avt { parts })
}
