// Trees of results.
ghost use Rattle.std.specs.Prelude.{◌≡◌, IfOk};
ghost use Rattle.spec_document.specs.Forest.{lines_of as lines_in, texts_in};
ghost use Rattle.spec_result.specs.Shape.{shaped};
ghost use Rattle.xt_tree.specs.StreamView.{stream_of};

use crate::lines::lines_of;
use crate::string::push_texts;
use std::alloc::Global;
use std::marker::Model;
use std::rc::Rc;
use xt_text::{Memory, Text};
use xt_tree::Items;

/// The tree that a stream shapes. It is the stream itself, shared, and takes its shape where it is written.
/// Contracts see the tree: so it depends on the stream alone, and not on how the parts of that are shared.
#[derive(Drop)]
pub struct ResultTree {
    items: Rc<Items>,
}

impl Model for ResultTree {
    ghost use Rattle.spec_document.specs.Forest.{Plain};
    ghost use Rattle.spec_result.specs.Shape.{shaped};
    ghost use Rattle.xt_tree.specs.StreamView.{stream_of};
    ghost use Rattle.xt_result.specs.Code.{plain_code};

    ghost Value = { Plain };

    ghost coded = { plain_code };

    ghost view = { λ t. shaped (stream_of t.items.value) };
}

/// The tree that the stream shapes (XSLT 1.0, sections 7.1 to 7.5). Takes no memory of its own.
pub fn shape(items: &Rc<Items>) -> Result<ResultTree, Memory>
    ensures { IfOk result (λ tree. tree ≡ shaped (stream_of items.now.value)) }
{
    Ok(ResultTree {
        items: items.clone()?,
    })
}

/// The lines of the tree as PYX, in document order.
pub fn pyx(alloc: Global, tree: &ResultTree) -> Result<Vec<Text>, Memory>
    ensures { IfOk result (λ lines. lines.items ≡ lines_in tree.now) }
{
    lines_of(alloc, &tree.items)
}

/// The string-value of the root of the tree: its texts, joined (XPath 1.0, section 5.1).
pub fn text(alloc: Global, tree: &ResultTree) -> Result<Text, Memory>
    ensures { IfOk result (λ text. text ≡ texts_in tree.now) }
{
    let mut text = Text::new(alloc);
    push_texts(&mut text, &tree.items)?;
    Ok(text)
}
