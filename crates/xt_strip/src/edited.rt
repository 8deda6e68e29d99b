// What is seen of a document after an edit, by what was seen of it before.
ghost use Rattle.std.specs.Prelude.{◌≡◌, IfOk, IfSome, Some, map};
ghost use Rattle.spec_change.specs.Change.{IsEdit};
ghost use Rattle.spec_edit.specs.Judged.{path_of};
ghost use Rattle.spec_edit.specs.Splice.{spot_of};
ghost use Rattle.spec_seen.specs.Seen as spec;
ghost use Rattle.xt_edit.specs.View.{edit_of};
ghost use Rattle.xt_syntax.specs.SheetView.{space_rule_of};
ghost use Rattle.xt_strip.specs.Along.{IsSpliced};

use crate::along::along;
use crate::place::{Place, change_at, place_of};
use crate::rule::any_strips;
use crate::seen;
use crate::walk::Around;
use spec_seen::{nothing_but_texts_is_lost, where_no_rule_strips_all_is_seen};
use std::alloc::Global;
use xt_edit::Edit;
use xt_syntax::SpaceRule;
use xt_text::Memory;
use xt_tree::{Doc, Nodes};

/// What is seen by these rules of a document that the edit made of another, by what was seen of that. All that is seen but
/// what the edit changed is shared with it, and nothing else is walked over. Want of memory alone is an error.
pub fn seen_edited(
    alloc: Global,
    rules: &[SpaceRule],
    edit: &Edit,
    before: &Doc,
    seen_before: &Doc,
    after: &Doc,
) -> Result<Doc, Memory>
    requires edit { IsEdit (edit_of edit.now) before.now after.now }
    requires seen { seen_before.now ≡ spec.seen (map space_rule_of rules.now) before.now }
    ensures { IfOk result (λ seen. seen ≡ spec.seen (map space_rule_of rules.now) after.now) }
{
    match place_of(before, edit) {
        None => seen(alloc, after, rules),
        Some(place) => seen_at(alloc, rules, edit, before, seen_before, after, place),
    }
}

// The same where the edit has this place.
fn seen_at(
    alloc: Global,
    rules: &[SpaceRule],
    edit: &Edit,
    before: &Doc,
    seen_before: &Doc,
    after: &Doc,
    place: Place<'_>,
) -> Result<Doc, Memory>
    requires edit { IsEdit (edit_of edit.now) before.now after.now }
    requires spliced { IsSpliced place.path.now place.from place.to before.now after.now }
    requires spot { spot_of (path_of (edit_of edit.now)) ≡ Some (record { above = place.path.now; position = place.position }) }
    requires seen { seen_before.now ≡ spec.seen (map space_rule_of rules.now) before.now }
    ensures { IfOk result (λ seen. seen ≡ spec.seen (map space_rule_of rules.now) after.now) }
{
    where_no_rule_strips_all_is_seen();
    nothing_but_texts_is_lost();
    if !any_strips(rules) {
        return after.copy(alloc);
    }
    match nodes_at(alloc, rules, edit, before, seen_before, after, place)? {
        None => seen(alloc, after, rules),
        Some(nodes) => after.thinned(nodes),
    }
}

// What is seen below the root. None where that is not told.
fn nodes_at(
    alloc: Global,
    rules: &[SpaceRule],
    edit: &Edit,
    before: &Doc,
    seen_before: &Doc,
    after: &Doc,
    place: Place<'_>,
) -> Result<Option<Nodes>, Memory>
    requires edit { IsEdit (edit_of edit.now) before.now after.now }
    requires spliced { IsSpliced place.path.now place.from place.to before.now after.now }
    requires spot { spot_of (path_of (edit_of edit.now)) ≡ Some (record { above = place.path.now; position = place.position }) }
    requires seen { seen_before.now ≡ spec.seen (map space_rule_of rules.now) before.now }
    ensures { IfOk result (λ found. IfSome found (λ nodes. nodes ≡ (spec.seen (map space_rule_of rules.now) after.now).nodes)) }
{
    let Some(old) = before.children_at(place.path) else {
        return Ok(None);
    };
    let Some(new) = after.children_at(place.path) else {
        return Ok(None);
    };
    let change = change_at(edit, old, new, place);
    let around = Around::root(alloc)?;
    let seen = seen_before.children();
    along(
        alloc,
        rules,
        &around,
        before.children(),
        seen,
        place.path,
        &change,
    )
}
