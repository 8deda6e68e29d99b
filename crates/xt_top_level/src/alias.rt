// Aliases of namespaces (XSLT 1.0, section 7.1.1).
ghost use Rattle.std.specs.Prelude.{◌≡◌, [], IfOk, Some, bytes_eq, codes, unwrap_or};
ghost use Rattle.std.specs.Option.{option_map};
ghost use Rattle.std.specs.Str.{chars};
ghost use Rattle.spec_compile.specs.Unit as spec;
ghost use Rattle.xt_syntax.specs.SheetView.{alias_of};
ghost use Rattle.xt_attributes.specs.View.{entries_in};
ghost use Rattle.xt_content.specs.View.{Keeps};
ghost use Rattle.xt_top_level.specs.Declaring.{declared_alias};
ghost use Rattle.xt_top_level.specs.View.{declaration_in};

use crate::top_level::Declaration;
use std::alloc::Global;
use xt_attributes::{Entries, into_text};
use xt_names::Scope;
use xt_syntax::Alias;
use xt_text::{Memory, Text};

/// What an xsl:namespace-alias with these attributes declares, where this scope is in force inside it.
pub(crate) fn alias(
    alloc: Global,
    scope: &Scope,
    entries: Entries,
) -> Result<Option<Declaration>, Memory>
    ensures { IfOk result (λ d. option_map declaration_in d ≡ Some (declared_alias scope.now (entries_in entries))) }
{
    let mut entries = entries;
    let stylesheet = prefix_at(alloc, &mut entries, "stylesheet-prefix");
    let prefix = prefix_at(alloc, &mut entries, "result-prefix");
    let alias = alias_by(alloc, scope, &stylesheet, prefix)?;
    Ok(Some(Declaration::Alias(alias)))
}

// The prefix that the attribute of this name is, which `#default` leaves empty.
fn prefix_at(alloc: Global, entries: &mut Entries, name: &str) -> Text
    ensures taken { result ≡ spec.prefix_at (chars name.now) (entries_in entries.old) }
    ensures others { Keeps (chars name.now) (entries_in entries.old) (entries_in entries.new) }
{
    alias_prefix(alloc, into_text(entries.take(name)))
}

fn alias_prefix(alloc: Global, word: Option<Text>) -> Text
    ensures { result ≡ spec.alias_prefix (unwrap_or word []) }
{
    match word {
        None => Text::new(alloc),
        Some(word) => {
            if is_default(&word) {
                Text::new(alloc)
            } else {
                word
            }
        }
    }
}

fn is_default(word: &Text) -> bool
    ensures { result ≡ bytes_eq word.now (codes "#default") }
{
    word.is("#default")
}

fn alias_by(alloc: Global, scope: &Scope, stylesheet: &Text, prefix: Text) -> Result<Alias, Memory>
    ensures { IfOk result (λ a. alias_of a ≡ spec.alias_by scope.now stylesheet.now prefix) }
{
    let stylesheet = alias_uri(alloc, scope, stylesheet)?;
    let result = alias_uri(alloc, scope, &prefix)?;
    Ok(Alias {
        stylesheet,
        prefix,
        result,
    })
}

// The URI of the prefix, empty where it is not declared.
fn alias_uri(alloc: Global, scope: &Scope, prefix: &Text) -> Result<Text, Memory>
    ensures { IfOk result (λ uri. uri ≡ spec.alias_uri scope.now prefix.now) }
{
    match scope.resolve(prefix.as_str()) {
        None => Ok(Text::new(alloc)),
        Some(uri) => uri.copy(alloc),
    }
}
