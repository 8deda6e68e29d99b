// The names of documents.
use xt_text::Text;

/// The name of a document.
#[derive(Clone, Copy)]
pub enum DocName<'a> {
    /// The source.
    Source,
    /// The module of this name.
    Module(&'a Text),
}
