// How a document came.
use xt_edit::Edit;
use xt_text::Path;

/// How a new document came.
#[derive(Clone, Copy)]
pub(crate) enum Origin<'a> {
    /// It was given whole.
    Given,
    /// This edit made it of the present one.
    Edited(&'a Edit),
    /// It is the present one, in which the node at the first path has moved before what is at the second.
    Moved(&'a Path, &'a Path),
}
