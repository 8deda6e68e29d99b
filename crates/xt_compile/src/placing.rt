// The elements of all stylesheets in stylesheet order: by precedence, and then by place, with includes put in place.
ghost use Rattle.std.specs.Prelude.{◌≡◌, ◌-◌, ◌++◌, false, List, IfOk, IfSome, OnOk, map};
ghost use Rattle.std.specs.List.{filter, flat_map};
ghost use Rattle.spec_compile.specs.Sheet as spec;
ghost use Rattle.spec_compile.specs.Unit as unit;
ghost use Rattle.xt_compile.specs.Opened.{IsLeft};
ghost use Rattle.xt_compile.specs.Placed.{IsPlacing, Places, is_none_left};
ghost use Rattle.xt_compile.specs.Stock.{Says};
ghost use Rattle.xt_compile.specs.View.{said_in};
ghost use Rattle.xt_import.specs.Parts.{part_in, stylesheet_in};
ghost use Rattle.xt_import.specs.View.{modules_in};
ghost use Rattle.xt_scoping.specs.View.{ranked_in};
ghost use Rattle.xt_top_level.specs.View.{top_levels_in};

use crate::opened::{Opened, by_path, or_none, take_at};
use crate::read::Said;
use crate::stock::{Stock, stock_of, take};
use indexmap::IndexMap;
use std::alloc::Global;
use xt_import::{Part, Stylesheet};
use xt_scoping::Ranked;
use xt_text::{Memory, Path};
use xt_top_level::TopLevel;
use xt_tree::Doc;

/// What is still to be put in place: what the modules say, and by its name each module of which parts were taken.
#[derive(Drop)]
pub(crate) struct Placing {
    stock: Stock,
    opened: IndexMap<String, Opened>,
}

/// The elements at the top of these stylesheets in stylesheet order, each with the precedence of its stylesheet and
/// the least of what that imports. A module is opened once for each time that it is placed, also where parts of other
/// modules stand between its own.
pub(crate) fn ranked_of(
    alloc: Global,
    modules: &IndexMap<String, Doc>,
    said: Vec<Said>,
    stylesheets: &[Stylesheet],
) -> Result<Vec<Ranked>, Memory>
    ensures { IfOk result (λ ranked. Says (modules_in modules.now.entries) (map said_in said.items) → map ranked_in ranked.items ≡ spec.ranked_from (map said_in said.items) 0 (map stylesheet_in stylesheets.now)) }
{
    let mut placing = none_opened(alloc, said)?;
    let mut ranked = Vec::new(alloc);
    for (precedence, stylesheet) in stylesheets.iter().enumerate() {
        let Ok(()) = add_stylesheet(
            alloc,
            modules,
            &mut placing,
            precedence as u64,
            stylesheet,
            &mut ranked,
        ) else {
            drop(placing.stock);
            drop(placing.opened);
            return Err(Memory);
        };
    }
    drop(placing.stock);
    drop(placing.opened);
    Ok(ranked)
}

fn none_opened(alloc: Global, said: Vec<Said>) -> Result<Placing, Memory>
    ensures { IfOk result (λ placing. IsPlacing (map said_in said.items) placing) }
{
    let stock = stock_of(alloc, said)?;
    let opened = IndexMap::new(alloc);
    Ok(Placing { stock, opened })
}

// Adds the elements of a stylesheet.
fn add_stylesheet(
    alloc: Global,
    modules: &IndexMap<String, Doc>,
    placing: &mut Placing,
    precedence: u64,
    stylesheet: &Stylesheet,
    ranked: &mut Vec<Ranked>,
) -> Result<(), Memory>
    ensures { OnOk result (Places (modules_in modules.now.entries) precedence (precedence - stylesheet.now.imported) (map part_in stylesheet.now.parts.items) placing.old placing.new ranked.old.items ranked.new.items) }
{
    let imported = precedence.saturating_sub(stylesheet.imported);
    add_parts(
        alloc,
        modules,
        placing,
        precedence,
        imported,
        stylesheet.parts.as_slice(),
        ranked,
    )
}

fn add_parts(
    alloc: Global,
    modules: &IndexMap<String, Doc>,
    placing: &mut Placing,
    precedence: u64,
    imported: u64,
    parts: &[Part],
    ranked: &mut Vec<Ranked>,
) -> Result<(), Memory>
    ensures { OnOk result (Places (modules_in modules.now.entries) precedence imported (map part_in parts.now) placing.old placing.new ranked.old.items ranked.new.items) }
{
    for part in parts {
        let found = part_of(alloc, modules, placing, part)?;
        add_ranked(ranked, precedence, imported, found)?;
    }
    Ok(())
}

fn add_ranked(
    ranked: &mut Vec<Ranked>,
    precedence: u64,
    imported: u64,
    top_levels: Vec<TopLevel>,
) -> Result<(), Memory>
    ensures { OnOk result (map ranked_in ranked.new.items ≡ map ranked_in ranked.old.items ++ map (spec.ranked precedence imported) (top_levels_in top_levels.items)) }
{
    for top_level in top_levels {
        ranked.push(Ranked {
            precedence,
            imported,
            top_level,
        })?;
    }
    Ok(())
}

// What the element of a part declares, where it declares something.
fn part_of(
    alloc: Global,
    modules: &IndexMap<String, Doc>,
    placing: &mut Placing,
    part: &Part,
) -> Result<Vec<TopLevel>, Memory>
    ensures found { IfOk result (λ found. (said : List spec.Said) → Says (modules_in modules.now.entries) said → IsPlacing said placing.old → top_levels_in found.items ≡ spec.part_of said (part_in part.now)) }
    ensures stays { OnOk result ((said : List spec.Said) → Says (modules_in modules.now.entries) said → IsPlacing said placing.old → IsPlacing said placing.new) }
{
    match at_hand(alloc, placing, part)? {
        Some(found) => Ok(found),
        None => part_anew(alloc, modules, placing, part),
    }
}

// The same where the module of the part is opened, and this part was not taken.
fn at_hand(
    alloc: Global,
    placing: &mut Placing,
    part: &Part,
) -> Result<Option<Vec<TopLevel>>, Memory>
    ensures found { IfOk result (λ at_hand. IfSome at_hand (λ found. (said : List spec.Said) → IsPlacing said placing.old → top_levels_in found.items ≡ spec.part_of said (part_in part.now))) }
    ensures stays { OnOk result ((said : List spec.Said) → IsPlacing said placing.old → IsPlacing said placing.new) }
{
    match placing.opened.get_mut(part.module_name.as_str()) {
        None => Ok(None),
        Some(opened) => left_at(alloc, opened, &part.path),
    }
}

fn left_at(alloc: Global, opened: &mut Opened, path: &Path) -> Result<Option<Vec<TopLevel>>, Memory>
    ensures found { IfOk result (λ at_hand. IfSome at_hand (λ found. (all : List unit.TopLevel) → IsLeft all opened.old.entries → top_levels_in found.items ≡ filter (spec.is_at path.now) all)) }
    ensures stays { OnOk result ((all : List unit.TopLevel) → IsLeft all opened.old.entries → IsLeft all opened.new.entries) }
{
    match take_at(alloc, opened, path)? {
        None => Ok(Some(Vec::new(alloc))),
        Some(found) => Ok(if_any(found)),
    }
}

fn if_any(found: Vec<TopLevel>) -> Option<Vec<TopLevel>>
    ensures { IfSome result (λ some. (some ≡ found) × (is_none_left found.items ≡ false)) }
{
    if found.is_empty() { None } else { Some(found) }
}

// Opens the module of a part, and takes this part.
fn part_anew(
    alloc: Global,
    modules: &IndexMap<String, Doc>,
    placing: &mut Placing,
    part: &Part,
) -> Result<Vec<TopLevel>, Memory>
    ensures found { IfOk result (λ found. (said : List spec.Said) → Says (modules_in modules.now.entries) said → IsPlacing said placing.old → top_levels_in found.items ≡ spec.part_of said (part_in part.now)) }
    ensures stays { OnOk result ((said : List spec.Said) → Says (modules_in modules.now.entries) said → IsPlacing said placing.old → IsPlacing said placing.new) }
{
    let name = String::from_str(alloc, part.module_name.as_str())?;
    let top_levels = take(alloc, &mut placing.stock, modules, &part.module_name)?;
    let mut opened = by_path(alloc, top_levels)?;
    let Ok(taken) = take_at(alloc, &mut opened, &part.path) else {
        drop(opened);
        return Err(Memory);
    };
    let found = or_none(alloc, taken);
    drop(placing.opened.insert(name, opened)?);
    Ok(found)
}
