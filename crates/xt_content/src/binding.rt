// Variables, parameters, sort keys and branches.
ghost use Rattle.std.specs.Prelude.{◌≡◌, ◌∷◌, [], IfOk};
ghost use Rattle.std.specs.Option.{option_map};
ghost use Rattle.spec_compile.specs.Content as spec;
ghost use Rattle.xt_syntax.specs.InstrView as trees;
ghost use Rattle.xt_syntax.specs.PartView.{site_of};
ghost use Rattle.xt_syntax.specs.View.{expr_of};
ghost use Rattle.xt_attributes.specs.View.{entries_in};
ghost use Rattle.xt_content.specs.View.{child_if, children_in};

use crate::child::{Child, content_in};
use crate::value::{avt_at, expr_at, name_at, take_expr};
use std::alloc::Global;
use xt_attributes::Entries;
use xt_syntax::{Binding, Branch, Expr, Site, SortKey};
use xt_text::Memory;

/// The variable or parameter that an element binds: its name, what it selects, and its content (XSLT 1.0, section
/// 11). Want of memory alone is an error.
pub fn binding_of(
    alloc: Global,
    site: Site,
    entries: &mut Entries,
    children: Vec<Child>,
) -> Result<Binding, Memory>
    ensures { IfOk result (λ b. trees.binding_of b ≡ spec.binding_of (site_of site) (entries_in entries.old) (children_in children.items)) }
{
    let Ok(content) = content_in(alloc, children) else {
        drop(site);
        return Err(Memory);
    };
    let name = name_at(alloc, entries, "name");
    let select = take_expr(entries, "select");
    Ok(Binding {
        site,
        name,
        select,
        content,
    })
}

/// A branch with this test.
pub(crate) fn branch_of(
    alloc: Global,
    site: Site,
    test: Option<Expr>,
    children: Vec<Child>,
) -> Result<Option<Child>, Memory>
    ensures { IfOk result (λ c. child_if c ≡ spec.ABranch (spec.branch_of (site_of site) (option_map expr_of test) (children_in children.items)) ∷ []) }
{
    let Ok(content) = content_in(alloc, children) else {
        drop(site);
        drop(test);
        return Err(Memory);
    };
    Ok(Some(Child::Branch(Branch {
        site,
        test,
        content,
    })))
}

/// The sort key that an xsl:sort is.
pub(crate) fn sort_key_of(
    alloc: Global,
    site: Site,
    entries: &mut Entries,
) -> Result<Option<Child>, Memory>
    ensures { IfOk result (λ c. child_if c ≡ spec.ASortKey (spec.sort_key (site_of site) (entries_in entries.old)) ∷ []) }
{
    let Ok(data_type) = avt_at(alloc, entries, "data-type", "text") else {
        drop(site);
        return Err(Memory);
    };
    let Ok(order) = avt_at(alloc, entries, "order", "ascending") else {
        drop(site);
        return Err(Memory);
    };
    let Ok(select) = expr_at(alloc, entries, "select") else {
        drop(site);
        return Err(Memory);
    };
    Ok(Some(Child::SortKey(SortKey {
        site,
        select,
        data_type,
        order,
    })))
}
