// Copies of what an instruction makes, beside its content.
ghost use Rattle.std.specs.Prelude.{◌≡◌, IfOk};
ghost use Rattle.xt_syntax.specs.PartView.{with_content_of, without_content_of};

use crate::copies::copy_if;
use crate::copies::expr::copy_expr;
use crate::copies::literal::copy_literal_tag;
use crate::copies::name::{copy_made_name, copy_names};
use crate::copies::number::copy_numbering;
use crate::copies::template::copy_avt;
use std::alloc::Global;
use xt_names::copy_name;
use xt_syntax::{WithContent, WithoutContent};
use xt_text::Memory;

/// The same instruction without a content.
pub(crate) fn copy_without_content(
    alloc: Global,
    what: &WithoutContent,
) -> Result<WithoutContent, Memory>
    ensures { IfOk result (λ copy. without_content_of copy ≡ without_content_of what.now) }
{
    match what {
        WithoutContent::Text(text, is_instruction) => {
            Ok(WithoutContent::Text(text.copy(alloc)?, *is_instruction))
        }
        WithoutContent::ValueOf(select) => Ok(WithoutContent::ValueOf(copy_expr(alloc, select)?)),
        WithoutContent::CopyOf(select) => Ok(WithoutContent::CopyOf(copy_expr(alloc, select)?)),
        WithoutContent::Number(numbering) => {
            Ok(WithoutContent::Number(copy_numbering(alloc, numbering)?))
        }
        WithoutContent::ApplyImports => Ok(WithoutContent::ApplyImports),
        WithoutContent::Fallback => Ok(WithoutContent::Fallback),
    }
}

/// The same instruction that makes something of its content.
pub(crate) fn copy_with_content(alloc: Global, what: &WithContent) -> Result<WithContent, Memory>
    ensures { IfOk result (λ copy. with_content_of copy ≡ with_content_of what.now) }
{
    match what {
        WithContent::Literal(tag) => Ok(WithContent::Literal(copy_literal_tag(alloc, tag)?)),
        WithContent::Element(made, sets) => {
            let made = copy_made_name(alloc, made)?;
            Ok(WithContent::Element(made, copy_names(alloc, sets.as_slice())?))
        }
        WithContent::Attribute(made) => Ok(WithContent::Attribute(copy_made_name(alloc, made)?)),
        WithContent::Comment => Ok(WithContent::Comment),
        WithContent::ProcessingInstruction(target) => {
            Ok(WithContent::ProcessingInstruction(copy_avt(alloc, target)?))
        }
        WithContent::Copy(sets) => Ok(WithContent::Copy(copy_names(alloc, sets.as_slice())?)),
        WithContent::Variable(name, select) => {
            let name = copy_name(alloc, name)?;
            Ok(WithContent::Variable(name, copy_if(alloc, select)?))
        }
        WithContent::Message(ends) => Ok(WithContent::Message(*ends)),
    }
}
