// Namespace aliases (XSLT 1.0, section 7.1.1).
ghost use Rattle.std.specs.Prelude.{◌≡◌, [], ◌∷◌, ◌++◌, map, IfOk, OnOk};
ghost use Rattle.spec_run.specs.Content as content;
ghost use Rattle.xt_names.specs.View.{entry_of};
ghost use Rattle.xt_syntax.specs.SheetView.{alias_of};

use std::alloc::Global;
use xt_names::Namespace;
use xt_syntax::Alias;
use xt_text::{Memory, Text};

/// The prefix that stands in the result for this one of this URI.
pub(crate) fn aliased_prefix<'a>(aliases: &'a [Alias], prefix: &'a Text, uri: &Text) -> &'a Text
    ensures { result.now ≡ content.aliased_prefix (map alias_of aliases.now) prefix.now uri.now }
{
    for alias in aliases {
        if alias.stylesheet.same(uri) {
            return &alias.prefix;
        }
    }
    prefix
}

/// The URI that stands in the result for this one.
pub(crate) fn aliased_uri<'a>(aliases: &'a [Alias], uri: &'a Text) -> &'a Text
    ensures { result.now ≡ content.aliased_uri (map alias_of aliases.now) uri.now }
{
    for alias in aliases {
        if alias.stylesheet.same(uri) {
            return &alias.result;
        }
    }
    uri
}

/// The aliases that an attribute whose name has this URI may have: none where it has no namespace.
pub(crate) fn for_attribute<'a>(aliases: &'a [Alias], uri: &Text) -> &'a [Alias]
    ensures { map alias_of result.now ≡ content.for_attribute uri.now (map alias_of aliases.now) }
{
    if uri.is_empty() {
        &aliases[..0]
    } else {
        aliases
    }
}

/// The namespace nodes that stand in the result for these: one that becomes no namespace is left out.
pub(crate) fn aliased_namespaces(
    alloc: Global,
    aliases: &[Alias],
    namespaces: &[Namespace],
) -> Result<Vec<Namespace>, Memory>
    ensures { IfOk result (λ list. map entry_of list.items ≡ content.namespaces_aliased (map alias_of aliases.now) (map entry_of namespaces.now)) }
{
    let mut list = Vec::new(alloc);
    for namespace in namespaces {
        add_aliased(alloc, aliases, namespace, &mut list)?;
    }
    Ok(list)
}

/// Adds what stands in the result for a namespace node.
fn add_aliased(
    alloc: Global,
    aliases: &[Alias],
    namespace: &Namespace,
    list: &mut Vec<Namespace>,
) -> Result<(), Memory>
    ensures { OnOk result (map entry_of list.new.items ≡ map entry_of list.old.items ++ content.namespaces_aliased (map alias_of aliases.now) (entry_of namespace.now ∷ [])) }
{
    let uri = aliased_uri(aliases, &namespace.uri);
    if uri.is_empty() {
        return Ok(());
    }
    let prefix = aliased_prefix(aliases, &namespace.prefix, &namespace.uri);
    list.push(Namespace {
        prefix: prefix.copy(alloc)?,
        uri: uri.copy(alloc)?,
    })?;
    Ok(())
}
