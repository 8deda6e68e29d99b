// Trees of value templates, in the form that reads well.

use crate::tree::push_tree;
use cases::push_quoted;
use xt_syntax::AvtPart;
use xt_text::{Memory, Text};

/// Adds a part of a value template: a text in quotes, an expression as its tree in braces.
pub fn push_avt_part(out: &mut Text, part: &AvtPart) -> Result<(), Memory> {
    match part {
        AvtPart::Text(text) => push_quoted(out, text.as_str()),
        AvtPart::Expr(expr) => {
            out.push('{')?;
            push_tree(out, expr)?;
            out.push('}')
        }
    }
}
