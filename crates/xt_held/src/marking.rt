// What changed since the last run that ended with a result, after one change more.
ghost use Rattle.std.specs.Prelude.{◌≡◌, ◌++◌, ◌∷◌, [], ℕ, List, Option, IfOk, IfSome, Ok, OnOk, Some, false, true};
ghost use Rattle.std.specs.Bool.{Decides};
ghost use Rattle.std.specs.Option.{option_copied};
ghost use Rattle.spec_document.specs.Forest.{Document};
ghost use Rattle.spec_document.specs.Name.{Expanded};
ghost use Rattle.spec_run.specs.Documents.{Parameters, main_name};
ghost use Rattle.spec_change.specs.Change.{IsEdit};
ghost use Rattle.spec_move.specs.Changed.{IsMove, move_change};
ghost use Rattle.spec_seen.specs.Seen as sight;
ghost use Rattle.spec_cost.specs.Marking.{AddsStyle, Given, Mark, Restyled, StyleIs, and_marks, edit_marks, move_marks, moved_so, remembered};
ghost use Rattle.spec_structure.specs.Modules.{Modules};
ghost use Rattle.spec_stylesheet.specs.Sheet.{Sheet};
ghost use Rattle.spec_stylesheet.specs.declared.method.Method.{Method};
ghost use Rattle.spec_touch.specs.Leads as leads;
ghost use Rattle.spec_touch.specs.Leads.{AreLooseBelow, Leads};
ghost use Rattle.xt_edit.specs.Telling.{change_in, numbers_in};
ghost use Rattle.xt_edit.specs.View.{edit_of};
ghost use Rattle.xt_record.specs.declared.pool.Pool.{Pool as Records};
ghost use Rattle.xt_syntax.specs.SheetView.{space_rules_of};
ghost use Rattle.xt_syntax.specs.declared.space_rules.SpaceRules.{SpaceRules as Rules};
ghost use Rattle.xt_touch.specs.View.{since_of};
ghost use Rattle.xt_world.specs.ParameterView.{with_value};
ghost use Rattle.spec_node.specs.Naming.{same_ref};
ghost use Rattle.spec_node.specs.declared.node_ref.NodeRef.{NodeRef};
ghost use Rattle.spec_touch.specs.Marks.{is_unit_among};
ghost use Rattle.xt_held.specs.Alike.{ChooseAlike, HaveUnitsAlike, LeaveOneOut};
ghost use Rattle.xt_held.specs.Marked.{AreToldBy, known_of};
ghost use Rattle.xt_held.specs.RunView.{IsFaultless, SeeAlike, SeesAll, StaysSpared, last_known};
ghost use Rattle.xt_held.specs.StylesheetView.{AreCompiled};
ghost use Rattle.xt_held.specs.declared.stylesheet.Compiled.{Compiled as What};
ghost use Rattle.xt_held.specs.declared.stylesheet.Compiled.TheVariants as compiled;

use crate::sighting::{change_of, move_change_of};
use crate::stylesheet::Compiled;
use spec_touch::{
    edits_keep_space, edits_lead_as_they_are_seen, what_need_not_be_asked_keeps_its_answers,
};
use std::alloc::Global;
use xt_edit::{Change, Edit};
use xt_record::Pool;
use xt_strip::Sighted;
use xt_syntax::SpaceRules;
use xt_text::{Memory, Path, Text};
use xt_touch::{Elements, Modes, Since, WorldChange, loose_children, seen_change};
use xt_tree::{NodeId, NodeRef};
use xt_world::{Stylesheet, same_plain_choices, same_rules, same_units};

/// After this edit, which makes the new source of the old one.
pub(crate) fn since_edit(
    alloc: Global,
    known: Option<&Compiled>,
    since: &Since,
    old: &Sighted,
    edit: &Edit,
    new: &Sighted,
) -> Result<Since, Memory>
    requires edit { IsEdit (edit_of edit.now) old.now new.now }
    requires faultless { IsFaultless old.now }
    ensures spared { (parameters : Parameters) → IfOk result (λ next. let what = option_copied known.entry in
        StaysSpared what what parameters parameters (Some old.now) (Some new.now) (since_of since.now) (since_of next)) }
    ensures told { (records : Records) (marks : List Mark) → AreToldBy records marks (since_of since.now) → IfOk result (λ next.
        AreToldBy records (remembered marks (edit_marks (known_of (option_copied known.entry)) (edit_of edit.now) old.now new.now)) (since_of next)) }
{
    match known {
        None => Since::anything(alloc),
        Some(known) => match known {
            Compiled::Refused(_) => Since::anything(alloc),
            Compiled::Stylesheet(stylesheet, space_rules, _) => {
                since_edit_of(alloc, stylesheet, space_rules, since, old, edit, new)
            }
        },
    }
}

// The same with this stylesheet.
fn since_edit_of(
    alloc: Global,
    stylesheet: &Stylesheet,
    space_rules: &SpaceRules,
    since: &Since,
    old: &Sighted,
    edit: &Edit,
    new: &Sighted,
) -> Result<Since, Memory>
    requires edit { IsEdit (edit_of edit.now) old.now new.now }
    requires faultless { IsFaultless old.now }
    ensures spared { (method : Option (Method Expanded)) (parameters : Parameters) → IfOk result (λ next.
        let what = Some (compiled.Stylesheet stylesheet.now space_rules.now method) in
        StaysSpared what what parameters parameters (Some old.now) (Some new.now) (since_of since.now) (since_of next)) }
    ensures told { (records : Records) (marks : List Mark) → AreToldBy records marks (since_of since.now) → IfOk result (λ next.
        AreToldBy records (remembered marks (edit_marks (Some (space_rules_of space_rules.now).rules) (edit_of edit.now) old.now new.now)) (since_of next)) }
{
    what_need_not_be_asked_keeps_its_answers();
    edits_lead_as_they_are_seen();
    edits_keep_space();
    old.distinct_numbers();
    let told = change_of(alloc, old, edit, new)?;
    let (change, loose) = change_seen(alloc, space_rules, told, old, new)?;
    let Ok(asking) = Modes::asking(alloc, stylesheet.rules.rules.as_slice()) else {
        drop(loose);
        drop(change);
        return Err(Memory);
    };
    let edited = WorldChange::SourceEdited {
        change,
        asking,
        loose,
    };
    since.and(alloc, edited)
}

// The change as these rules for white space let it be seen, and all children of its node, after it, that are no elements.
fn change_seen(
    alloc: Global,
    space_rules: &SpaceRules,
    change: Change,
    old: &Sighted,
    new: &Sighted,
) -> Result<(Change, Vec<NodeId>), Memory>
    ensures told { IfOk result (λ seen. let rules = (space_rules_of space_rules.now).rules in
        let is = leads.seen_change (change_in change) (sight.seen rules old.now) (sight.seen rules new.now) in
        Leads is (sight.seen rules old.now) (sight.seen rules new.now) → change_in seen.0 ≡ is) }
    ensures loose { IfOk result (λ seen. AreLooseBelow (numbers_in seen.1.items) (change_in change).node (sight.seen (space_rules_of space_rules.now).rules new.now)) }
{
    let Ok(old) = old.seen(alloc, space_rules) else {
        drop(change);
        return Err(Memory);
    };
    let Ok(new) = new.seen(alloc, space_rules) else {
        drop(old);
        drop(change);
        return Err(Memory);
    };
    let told = seen_change(alloc, &change, &old, &new);
    let loose = loose_children(alloc, &new, change.node);
    drop(new);
    drop(old);
    drop(change);
    both(told, loose)
}

fn both(
    told: Result<Change, Memory>,
    loose: Result<Vec<NodeId>, Memory>,
) -> Result<(Change, Vec<NodeId>), Memory>
    ensures told { IfOk result (λ seen. told ≡ Ok seen.0) }
    ensures loose { IfOk result (λ seen. loose ≡ Ok seen.1) }
{
    match told {
        Err(Memory) => {
            drop(loose);
            Err(Memory)
        }
        Ok(told) => match loose {
            Err(Memory) => {
                drop(told);
                Err(Memory)
            }
            Ok(loose) => Ok((told, loose)),
        },
    }
}

/// After the move of the node at the first path before what is at the second, which makes the new source of the old one.
/// Where rules strip white space, anything may be another.
pub(crate) fn since_move(
    alloc: Global,
    known: Option<&Compiled>,
    since: &Since,
    old: &Sighted,
    path: &Path,
    other: &Path,
    new: &Sighted,
) -> Result<Since, Memory>
    requires moved { IsMove path.now other.now old.now new.now }
    requires faultless { IsFaultless old.now }
    ensures spared { (parameters : Parameters) → IfOk result (λ next. let what = option_copied known.entry in
        StaysSpared what what parameters parameters (Some old.now) (Some new.now) (since_of since.now) (since_of next)) }
    ensures told { (records : Records) (marks : List Mark) → AreToldBy records marks (since_of since.now) → IfOk result (λ next.
        AreToldBy records (remembered marks (move_marks (known_of (option_copied known.entry)) path.now other.now old.now new.now)) (since_of next)) }
{
    match known {
        None => Since::anything(alloc),
        Some(known) => match known {
            Compiled::Refused(_) => Since::anything(alloc),
            Compiled::Stylesheet(stylesheet, space_rules, _) => {
                if !sees_all(space_rules) {
                    return Since::anything(alloc);
                }
                since_move_of(alloc, stylesheet, since, old, path, other, new)
            }
        },
    }
}

// Whether there is no rule that might strip white space.
fn sees_all(space_rules: &SpaceRules) -> bool
    ensures { Decides result (SeesAll space_rules.now) }
{
    space_rules.rules.is_empty()
}

// The same with this stylesheet, where all is seen.
fn since_move_of(
    alloc: Global,
    stylesheet: &Stylesheet,
    since: &Since,
    old: &Sighted,
    path: &Path,
    other: &Path,
    new: &Sighted,
) -> Result<Since, Memory>
    requires moved { IsMove path.now other.now old.now new.now }
    requires faultless { IsFaultless old.now }
    ensures spared { (rules : Rules) (method : Option (Method Expanded)) (parameters : Parameters) → SeesAll rules → IfOk result (λ next.
        let what = Some (compiled.Stylesheet stylesheet.now rules method) in
        StaysSpared what what parameters parameters (Some old.now) (Some new.now) (since_of since.now) (since_of next)) }
    ensures told { (records : Records) (marks : List Mark) → AreToldBy records marks (since_of since.now) → IfOk result (λ next.
        AreToldBy records (remembered marks (moved_so (move_change path.now other.now old.now new.now))) (since_of next)) }
{
    what_need_not_be_asked_keeps_its_answers();
    old.distinct_numbers();
    match move_change_of(alloc, old, path, other, new)? {
        None => Since::anything(alloc),
        Some(change) => {
            let Ok(asking) = Modes::asking(alloc, stylesheet.rules.rules.as_slice()) else {
                drop(change);
                return Err(Memory);
            };
            since.and(alloc, WorldChange::SourceMoved { change, asking })
        }
    }
}

/// After a change of modules, which are this from then on. These are the records of the last run that ended with a result.
pub(crate) fn since_modules(
    alloc: Global,
    known: Option<&Compiled>,
    since: &Since,
    records: &Pool,
    new: Option<&Compiled>,
) -> Result<Since, Memory>
    ensures spared { (parameters : Parameters) (source : Option (Document ℕ)) → IfOk result (λ next. let what = option_copied known.entry in
        StaysSpared what (last_known (option_copied new.entry) what) parameters parameters source source (since_of since.now) (since_of next)) }
    ensures told { (marks : List Mark) → AreToldBy records.now marks (since_of since.now) → (modules : Modules) → AreCompiled modules (option_copied new.entry)
        → IfOk result (λ next. (style : List Mark) × AddsStyle modules (modules main_name) (known_of (option_copied known.entry)) style
        × AreToldBy records.now (and_marks marks style) (since_of next)) }
{
    match new {
        None => since.copy(alloc),
        Some(new) => match new {
            Compiled::Refused(_) => since.copy(alloc),
            Compiled::Stylesheet(stylesheet, space_rules, _) => {
                since_stylesheet(alloc, known, since, records, stylesheet, space_rules)
            }
        },
    }
}

// After a change of modules, which are this stylesheet with these rules for white space from then on. Where the source is
// seen otherwise, anything may be another.
fn since_stylesheet(
    alloc: Global,
    known: Option<&Compiled>,
    since: &Since,
    records: &Pool,
    stylesheet: &Stylesheet,
    space_rules: &SpaceRules,
) -> Result<Since, Memory>
    ensures spared { (method : Option (Method Expanded)) (parameters : Parameters) (source : Option (Document ℕ)) → IfOk result (λ next.
        StaysSpared (option_copied known.entry) (Some (compiled.Stylesheet stylesheet.now space_rules.now method)) parameters parameters source source
        (since_of since.now) (since_of next)) }
    ensures told { (marks : List Mark) → AreToldBy records.now marks (since_of since.now) → (sheet : Sheet) → space_rules_of space_rules.now ≡ sheet.space_rules
        → IfOk result (λ next. (style : List Mark) × StyleIs (known_of (option_copied known.entry)) (Ok sheet) style
        × AreToldBy records.now (and_marks marks style) (since_of next)) }
{
    match known {
        None => Since::anything(alloc),
        Some(known) => match known {
            Compiled::Refused(_) => Since::anything(alloc),
            Compiled::Stylesheet(old, rules, _) => {
                if !space_rules.same(rules) {
                    return Since::anything(alloc);
                }
                since_other(alloc, since, records, old, stylesheet)
            }
        },
    }
}

// After a change from one stylesheet to another by which the source is seen as before.
fn since_other(
    alloc: Global,
    since: &Since,
    records: &Pool,
    old: &Stylesheet,
    new: &Stylesheet,
) -> Result<Since, Memory>
    ensures spared { (rules others : Rules) (method another : Option (Method Expanded)) (parameters : Parameters) (source : Option (Document ℕ))
        → space_rules_of others ≡ space_rules_of rules → IfOk result (λ next.
        StaysSpared (Some (compiled.Stylesheet old.now rules method)) (Some (compiled.Stylesheet new.now others another)) parameters parameters
        source source (since_of since.now) (since_of next)) }
    ensures told { (marks : List Mark) → AreToldBy records.now marks (since_of since.now)
        → IfOk result (λ next. AreToldBy records.now (remembered marks Restyled) (since_of next)) }
{
    what_need_not_be_asked_keeps_its_answers();
    let units = units_alike(alloc, records, old, new)?;
    let Ok(asking) = modes_alike(alloc, old, new) else {
        drop(units);
        return Err(Memory);
    };
    since.and(alloc, WorldChange::ModulesChanged { units, asking })
}

// The elements whose units need not be asked for: those whose units are the same in both, but for one for which a record asks,
// the one of the root where that asks for one. So after a change of modules that runs nothing one question is asked at least, as
// the numbers of `stats` are to tell.
fn units_alike(
    alloc: Global,
    records: &Pool,
    old: &Stylesheet,
    new: &Stylesheet,
) -> Result<Elements, Memory>
    ensures alike { IfOk result (λ units. HaveUnitsAlike old.now new.now units) }
    ensures left_out { IfOk result (λ units. LeaveOneOut records.now units) }
{
    let elements = same_units(alloc, old, new)?;
    let spared = all_but(alloc, elements.as_slice(), records.last_unit())?;
    Elements::of(alloc, spared.as_slice())
}

// These elements, but for the one that is left out.
fn all_but(
    alloc: Global,
    elements: &[NodeRef],
    left_out: Option<NodeRef>,
) -> Result<Vec<NodeRef>, Memory>
    ensures among { IfOk result (λ list. (element : NodeRef) → is_unit_among list.items element ≡ true → is_unit_among elements.now element ≡ true) }
    ensures left_out { IfOk result (λ list. IfSome left_out (λ one. is_unit_among list.items one ≡ false)) }
{
    let mut list = Vec::new(alloc);
    for element in elements {
        push_unless(&mut list, *element, is_that(left_out, *element))?;
    }
    Ok(list)
}

// Adds the element, unless it is left out.
fn push_unless(list: &mut Vec<NodeRef>, element: NodeRef, is_left_out: bool) -> Result<(), Memory>
    ensures among { OnOk result ((others : List NodeRef) → ((sought : NodeRef) → is_unit_among list.old.items sought ≡ true → is_unit_among others sought ≡ true)
        → (sought : NodeRef) → is_unit_among list.new.items sought ≡ true → is_unit_among (others ++ element ∷ []) sought ≡ true) }
    ensures left_out { OnOk result ((one : NodeRef) → is_left_out ≡ same_ref one element → is_unit_among list.old.items one ≡ false
        → is_unit_among list.new.items one ≡ false) }
{
    if is_left_out {
        return Ok(());
    }
    list.push(element)?;
    Ok(())
}

// Whether the element is that one, if it is any.
fn is_that(that: Option<NodeRef>, element: NodeRef) -> bool
    ensures { IfSome that (λ one. result ≡ same_ref one element) }
{
    match that {
        None => false,
        Some(one) => one == element,
    }
}

// Where both have the same rules, the modes in which choices may still differ.
fn modes_alike(alloc: Global, old: &Stylesheet, new: &Stylesheet) -> Result<Option<Modes>, Memory>
    ensures { IfOk result (λ asking. ChooseAlike old.now new.now asking) }
{
    if !same_rules(old, new) {
        return Ok(None);
    }
    same_plain_choices();
    Ok(Some(Modes::asking(alloc, old.rules.rules.as_slice())?))
}

/// After the parameter of this name was given another value.
pub(crate) fn since_parameter(alloc: Global, since: &Since, name: &Text) -> Result<Since, Memory>
    ensures spared { (known : Option What) (parameters : Parameters) (value : List ℕ) (source : Option (Document ℕ)) → IfOk result (λ next.
        StaysSpared known known parameters (with_value name.now value parameters) source source (since_of since.now) (since_of next)) }
    ensures told { (records : Records) (marks : List Mark) → AreToldBy records marks (since_of since.now)
        → IfOk result (λ next. AreToldBy records (remembered marks (Given name.now)) (since_of next)) }
{
    what_need_not_be_asked_keeps_its_answers();
    let name = name.copy(alloc)?;
    since.and(alloc, WorldChange::ParameterGiven(name))
}
