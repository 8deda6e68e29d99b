// What the modules say that were read, until it is put in place.
ghost use Rattle.std.specs.Prelude.{◌≡◌, ◌∷◌, ℕ, true, List, None, Some, IfOk, OnOk, bytes_eq, if◌then◌else◌, is_some, map};
ghost use Rattle.std.specs.Map.{lookup};
ghost use Rattle.spec_compile.specs.Sheet as spec;
ghost use Rattle.xt_compile.specs.Stock.{IsStock, Says, in_slot, is_said};
ghost use Rattle.xt_compile.specs.View.{said_in};
ghost use Rattle.xt_import.specs.View.{is_name, modules_in};
ghost use Rattle.xt_top_level.specs.View.{top_levels_in};

use crate::read::{Said, says};
use indexmap::IndexMap;
use spec_expression::one_answer;
use spec_static::{one_pattern, one_template};
use std::alloc::Global;
use xt_text::{Memory, Text};
use xt_top_level::TopLevel;
use xt_tree::Doc;

/// What each module says, by its name; None where it was taken.
pub(crate) type Stock = IndexMap<String, Option<Vec<TopLevel>>>;

/// What these modules say.
pub(crate) fn stock_of(alloc: Global, said: Vec<Said>) -> Result<Stock, Memory>
    ensures { IfOk result (λ stock. IsStock (map said_in said.items) stock.entries) }
{
    let mut left = said;
    let mut stock = IndexMap::new(alloc);
    while let Some(said) = left.pop() {
        let Ok(()) = put(alloc, &mut stock, said) else {
            drop(stock);
            return Err(Memory);
        };
    }
    Ok(stock)
}

// Adds what one more module says, which stands before the others.
fn put(alloc: Global, stock: &mut Stock, said: Said) -> Result<(), Memory>
    ensures { OnOk result ((others : List spec.Said) → IsStock others stock.old.entries → IsStock (said_in said ∷ others) stock.new.entries) }
{
    let name = String::from_str(alloc, said.module_name.as_str())?;
    let _ = stock.insert(name, Some(said.top_levels))?;
    Ok(())
}

/// What the module of this name says; nothing, where it is none that was read. An element may stand in several
/// stylesheets, where its module is imported or included twice, and each has its own: what was taken before is read
/// again.
pub(crate) fn take(
    alloc: Global,
    stock: &mut Stock,
    modules: &IndexMap<String, Doc>,
    name: &Text,
) -> Result<Vec<TopLevel>, Memory>
    ensures taken { IfOk result (λ taken. (said : List spec.Said) → Says (modules_in modules.now.entries) said → IsStock said stock.old.entries → top_levels_in taken.items ≡ spec.said_by name.now said) }
    ensures stays { OnOk result ((said : List spec.Said) → IsStock said stock.old.entries → IsStock said stock.new.entries) }
{
    if !has(stock, name) {
        return Ok(Vec::new(alloc));
    }
    match take_out(alloc, stock, name)? {
        Some(taken) => Ok(taken),
        None => say_again(alloc, modules, name),
    }
}

// Whether the module of this name was read.
fn has(stock: &Stock, name: &Text) -> bool
    ensures { result ≡ is_some (lookup (is_name name.now) stock.now.entries) }
{
    stock.get(name.as_str()).is_some()
}

fn take_out(alloc: Global, stock: &mut Stock, name: &Text) -> Result<Option<Vec<TopLevel>>, Memory>
    ensures taken { IfOk result (λ taken. taken ≡ in_slot (lookup (is_name name.now) stock.old.entries)) }
    ensures rest { OnOk result ((q : List ℕ) → lookup (is_name q) stock.new.entries ≡ (if bytes_eq q name.now then Some None else lookup (is_name q) stock.old.entries)) }
{
    let key = String::from_str(alloc, name.as_str())?;
    match stock.insert(key, None)? {
        None => Ok(None),
        Some(taken) => Ok(taken),
    }
}

// What a module says that was read without a fault. It is there, and has none now.
fn say_again(
    alloc: Global,
    modules: &IndexMap<String, Doc>,
    name: &Text,
) -> Result<Vec<TopLevel>, Memory>
    ensures { IfOk result (λ again. (said : List spec.Said) → Says (modules_in modules.now.entries) said → is_said name.now said ≡ true → top_levels_in again.items ≡ spec.said_by name.now said) }
{
    one_answer();
    one_pattern();
    one_template();
    match modules.get(name.as_str()) {
        None => Ok(Vec::new(alloc)),
        Some(document) => match says(alloc, name, document)? {
            Ok(again) => Ok(again),
            Err(_) => Ok(Vec::new(alloc)),
        },
    }
}
