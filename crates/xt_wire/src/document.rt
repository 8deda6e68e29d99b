// The names of documents.
ghost use Rattle.std.specs.Prelude.{◌≡◌, IfOk};
ghost use Rattle.std.specs.Option.{option_and_then, option_map};
ghost use Rattle.std.specs.Str.{chars};
ghost use Rattle.spec_session.specs.Request.{document_named, module_named, only_word};
ghost use Rattle.xt_wire.specs.View.{characters, name_of, rest_of};

use crate::word::{is_word, only_word};
use std::alloc::Global;
use xt_text::{Memory, Text};

/// What a command names: the source, or a module.
#[derive(Drop)]
pub enum DocumentName {
    /// The source.
    Source,
    /// The module of this name: one or more characters without a space, and not `source`.
    Module(Text),
}

/// The document that a word names: `source`, or the module of this name.
pub(crate) fn read_document(alloc: Global, word: &str) -> Result<DocumentName, Memory>
    ensures { IfOk result (λ document. name_of document ≡ document_named (chars word.now)) }
{
    if is_word(word, "source") {
        return Ok(DocumentName::Source);
    }
    Ok(DocumentName::Module(Text::from_str(alloc, word)?))
}

/// The only word of what stands behind a word, where it may name a module: it is not `source`.
pub(crate) fn module_name(rest: Option<&str>) -> Option<&str>
    ensures { option_map characters result ≡ option_and_then module_named (only_word (rest_of rest.entry)) }
{
    let name = only_word(rest)?;
    if is_word(name, "source") {
        None
    } else {
        Some(name)
    }
}
