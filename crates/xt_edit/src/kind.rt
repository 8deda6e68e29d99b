// What a node is.
ghost use Rattle.std.specs.Prelude.{◌≡◌};
ghost use Rattle.spec_edit.specs.Edit as edit;
ghost use Rattle.xt_edit.specs.Seam as seam;
ghost use Rattle.xt_tree.specs.View.{content_of};

use xt_tree::Content;

/// Whether it is an element.
pub(crate) fn is_element(content: &Content) -> bool
    ensures { result ≡ edit.is_element (content_of content.now) }
{
    match content {
        Content::Element { .. } => true,
        Content::Text { .. } | Content::Comment { .. } | Content::Instruction { .. } => false,
    }
}

/// Whether it is a text.
pub(crate) fn is_text(content: &Content) -> bool
    ensures { result ≡ seam.is_text (content_of content.now) }
{
    match content {
        Content::Text { .. } => true,
        Content::Element { .. } | Content::Comment { .. } | Content::Instruction { .. } => false,
    }
}
