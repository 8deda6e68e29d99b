// What modules would be with another document among them, or without one.
ghost use Rattle.std.specs.Prelude.{◌≡◌, ◌<◌, IfOk, IsSome, None, Ok, Some, bytes_eq, string_bytes};
ghost use Rattle.std.specs.HashMap.{spare};
ghost use Rattle.std.specs.Map.{lookup, remove_entry};
ghost use Rattle.std.specs.String.{string_eq};
ghost use Rattle.spec_cost.specs.Numbers as numbers;
ghost use Rattle.indexmap.specs.IndexMap.{insert_entry};
ghost use Rattle.xt_import.specs.View.{modules_in, plain_of};
ghost use Rattle.xt_held.specs.Called.{AreCalled, numbered_modules};
ghost use Rattle.xt_held.specs.StylesheetView.{AreCompiled, with_one, without_one};
ghost use Rattle.xt_held.specs.Tried.{AreSame};

use crate::stylesheet::{Compiled, compile};
use indexmap::IndexMap;
use std::alloc::Global;
use xt_text::{Memory, Text};
use xt_tree::Doc;

/// What modules would be, and the document that was tried among them.
#[derive(Drop)]
pub(crate) struct Tried {
    pub compiled: Option<Compiled>,
    pub document: Doc,
}

/// What the modules are where this document is the module of this name. Afterwards they are as before.
pub(crate) fn compiled_with(
    alloc: Global,
    modules: &mut IndexMap<String, Doc>,
    name: &Text,
    document: Doc,
) -> Result<Tried, Memory>
    ensures compiled { IfOk result (λ tried. AreCompiled (with_one name.now (plain_of document) (modules_in modules.old.entries)) tried.compiled) }
    ensures called { IfOk result (λ tried. AreCalled (with_one name.now (plain_of document) (modules_in modules.old.entries)) (numbers.with_one name.now (Some document) (numbered_modules modules.old.entries)) tried.compiled) }
    ensures document { IfOk result (λ tried. tried.document ≡ document) }
    ensures kept { modules.new.entries ≡ modules.old.entries }
{
    let key = String::from_str(alloc, name.as_str())?;
    let again = String::from_str(alloc, name.as_str())?;
    match modules.insert(key, document)? {
        None => {
            let compiled = compile(alloc, modules);
            let document = taken_out(modules, again.as_str());
            with_document(compiled, document)
        }
        Some(before) => {
            let compiled = compile(alloc, modules);
            let document = put_back(modules, again, before);
            with_document(compiled, document)
        }
    }
}

/// What the modules are without that of this name. Afterwards they are as before, but for their order.
pub(crate) fn compiled_without(
    alloc: Global,
    modules: &mut IndexMap<String, Doc>,
    name: &Text,
) -> Result<Option<Compiled>, Memory>
    ensures compiled { IfOk result (λ compiled. AreCompiled (without_one name.now (modules_in modules.old.entries)) compiled) }
    ensures called { IfOk result (λ compiled. AreCalled (without_one name.now (modules_in modules.old.entries)) (numbers.with_one name.now None (numbered_modules modules.old.entries)) compiled) }
    ensures kept { AreSame modules.old.entries modules.new.entries }
{
    modules.reserve(1)?;
    match modules.shift_remove_entry(name.as_str()) {
        None => compile(alloc, modules),
        Some((name, document)) => {
            let compiled = compile(alloc, modules);
            put_again(modules, name, document);
            compiled
        }
    }
}

// The module of this name is among them again. There is room, so the insertion does not fail.
fn put_again(modules: &mut IndexMap<String, Doc>, name: String, document: Doc)
    requires { 0 < spare modules.old }
    ensures { modules.new.entries ≡ insert_entry string_eq modules.old.entries name document }
{
    let _ = modules.insert(name, document);
}

fn with_document(compiled: Result<Option<Compiled>, Memory>, document: Doc) -> Result<Tried, Memory>
    ensures { IfOk result (λ tried. (compiled ≡ Ok tried.compiled) × (tried.document ≡ document)) }
{
    Ok(Tried {
        compiled: compiled?,
        document,
    })
}

// The module of this name, which is no longer among them.
fn taken_out(modules: &mut IndexMap<String, Doc>, name: &str) -> Doc
    requires { IsSome (lookup (λ key. bytes_eq name.now (string_bytes key)) modules.old.entries) }
    ensures value { Some result ≡ lookup (λ key. bytes_eq name.now (string_bytes key)) modules.old.entries }
    ensures entries { modules.new.entries ≡ remove_entry (λ key. bytes_eq name.now (string_bytes key)) modules.old.entries }
{
    match modules.shift_remove(name) {
        Some(document) => document,
        None => unreachable!(),
    }
}

// The module of this name, in whose place this one is. There is one, so the insertion does not fail.
fn put_back(modules: &mut IndexMap<String, Doc>, name: String, before: Doc) -> Doc
    requires { IsSome (lookup (string_eq name) modules.old.entries) }
    ensures value { Some result ≡ lookup (string_eq name) modules.old.entries }
    ensures entries { modules.new.entries ≡ insert_entry string_eq modules.old.entries name before }
{
    match modules.insert(name, before) {
        Ok(Some(document)) => document,
        Ok(None) => unreachable!(),
        Err(_) => unreachable!(),
    }
}
