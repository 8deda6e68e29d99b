// What is seen of a document.
ghost use Rattle.std.specs.Prelude.{◌≡◌, IfOk, map};
ghost use Rattle.spec_seen.specs.Seen as spec;
ghost use Rattle.xt_syntax.specs.SheetView.{space_rule_of};

use crate::rule::any_strips;
use crate::walk::{Around, seen_among};
use spec_seen::{nothing_but_texts_is_lost, where_no_rule_strips_all_is_seen};
use std::alloc::Global;
use xt_syntax::SpaceRule;
use xt_text::Memory;
use xt_tree::Doc;

/// What is seen of the document by these rules. Its nodes keep their numbers. All that has no stripped text below it is
/// shared, and where no rule strips nothing is walked over. Want of memory alone is an error.
pub fn seen(alloc: Global, document: &Doc, rules: &[SpaceRule]) -> Result<Doc, Memory>
    ensures { IfOk result (λ seen. seen ≡ spec.seen (map space_rule_of rules.now) document.now) }
{
    where_no_rule_strips_all_is_seen();
    if any_strips(rules) {
        stripped(alloc, document, rules)
    } else {
        document.copy(alloc)
    }
}

fn stripped(alloc: Global, document: &Doc, rules: &[SpaceRule]) -> Result<Doc, Memory>
    ensures { IfOk result (λ seen. seen ≡ spec.seen (map space_rule_of rules.now) document.now) }
{
    nothing_but_texts_is_lost();
    let around = Around::root(alloc)?;
    match seen_among(alloc, rules, &around, document.children())? {
        None => document.copy(alloc),
        Some(nodes) => document.thinned(nodes),
    }
}
