// The faults of a node whose content has changed, and of a tree that is made anew. Both are at no line.
ghost use Rattle.std.specs.Prelude.{◌≡◌, ◌+◌, ◌++◌, map, min, IfOk, OnOk};
ghost use Rattle.std.specs.Option.{option_map};
ghost use Rattle.spec_document.specs.Forest as forest;
ghost use Rattle.spec_document.specs.Forest.{plain, labels, size};
ghost use Rattle.spec_document.specs.Declaration.{within};
ghost use Rattle.spec_document.specs.Fault.{fault_if, least};
ghost use Rattle.spec_document.specs.Balance.{alone};
ghost use Rattle.spec_document.specs.NodeFaults.{content_faults, node_faults};
ghost use Rattle.spec_document.specs.Numbering.{number_faults};
ghost use Rattle.spec_edit.specs.Edit.{without_lines};
ghost use Rattle.xt_tree.specs.View.{content_of, forest_of};
ghost use Rattle.xt_build.specs.Least.{merged};
ghost use Rattle.xt_build.specs.View.{found_of};
ghost use Rattle.xt_edit.specs.Finding.{IsLesser, at_no_line};

use std::alloc::Global;
use std::rc::Rc;
use xt_base::EditCode;
use xt_build::{Fault, check_content, scope_inside};
use xt_names::Scope;
use xt_text::Memory;
use xt_tree::{Content, Node};

// The first number that no node may have.
const NUMBER_LIMIT: u64 = 1 << 62;

/// The least fault of a node itself, with this content, that stands in the scope `around`, and at this depth if it is
/// an element: a bad name, prefix or declaration, too great a depth, or two attributes of one name.
pub(crate) fn element_fault(
    alloc: Global,
    around: &Scope,
    depth: u64,
    content: &Content,
) -> Result<Option<EditCode>, Memory>
    ensures { IfOk result (λ found. at_no_line found
        ≡ least (content_faults (within (content_of content.now) around.now) depth (alone 0) (content_of content.now))) }
{
    let inside = scope_inside(alloc, around, content)?;
    let mut found = None;
    check_content(alloc, &inside, depth, content, 0, &[], &mut found)?;
    Ok(code_of(found))
}

/// The least fault of a node with this content and of what is below it, which all are made anew and numbered from
/// `first` on: those of each node itself, and a node for which no number is left. The node stands in the scope
/// `around`, and at this depth if it is an element.
pub(crate) fn tree_fault(
    alloc: Global,
    around: &Scope,
    depth: u64,
    first: u64,
    content: &Content,
    children: &[Rc<Node>],
) -> Result<Option<EditCode>, Memory>
    ensures { IfOk result (λ found. let tree = without_lines (forest.Node tt (content_of content.now) (plain (forest_of children.now)) forest.Empty) in
        at_no_line found ≡ least (node_faults around.now depth tree ++ number_faults first (map (λ l. l.first) (labels tree)))) }
{
    let mut found = None;
    let count = check_tree(alloc, around, depth, content, children, &mut found)?;
    let left = NUMBER_LIMIT.saturating_sub(first);
    // The node itself takes one number more.
    Ok(or_too_many(code_of(found), count >= left))
}

/// The same where the nodes keep their numbers.
pub(crate) fn nodes_fault(
    alloc: Global,
    around: &Scope,
    depth: u64,
    content: &Content,
    children: &[Rc<Node>],
) -> Result<Option<EditCode>, Memory>
    ensures { IfOk result (λ found. at_no_line found ≡ least (node_faults around.now depth (without_lines (forest.Node 0 (content_of content.now) (forest_of children.now) forest.Empty)))) }
{
    let mut found = None;
    let _ = check_tree(alloc, around, depth, content, children, &mut found)?;
    Ok(code_of(found))
}

// Finds the faults of a node with this content and of what is below it, and says how many nodes are below it; where
// that is no u64, the greatest one.
fn check_tree(
    alloc: Global,
    around: &Scope,
    depth: u64,
    content: &Content,
    children: &[Rc<Node>],
    found: &mut Option<Fault>,
) -> Result<u64, Memory>
    ensures faults { OnOk result (found_of found.new
        ≡ merged (found_of found.old) (least (node_faults around.now depth (without_lines (forest.Node 0 (content_of content.now) (forest_of children.now) forest.Empty))))) }
    ensures count { IfOk result (λ count. count ≡ min (size (forest_of children.now)) u64.MAX) }
{
    let inside = scope_inside(alloc, around, content)?;
    check_content(alloc, &inside, depth, content, 0, &[], found)?;
    let below = depth.saturating_add(1);
    let count = check_nodes(alloc, children, &inside, below, found)?;
    Ok(count)
}

// Finds the faults of siblings, which stand in this scope and at this depth, and of what is below them, and says how
// many nodes these are; where that is no u64, the greatest one.
fn check_nodes(
    alloc: Global,
    siblings: &[Rc<Node>],
    around: &Scope,
    depth: u64,
    found: &mut Option<Fault>,
) -> Result<u64, Memory>
    ensures faults { OnOk result (found_of found.new
        ≡ merged (found_of found.old) (least (node_faults around.now depth (without_lines (forest_of siblings.now))))) }
    ensures count { IfOk result (λ count. count ≡ min (size (forest_of siblings.now)) u64.MAX) }
{
    let below = depth.saturating_add(1);
    let mut count: u64 = 0;
    for sibling in siblings {
        let content = sibling.content();
        let inside = scope_inside(alloc, around, content)?;
        check_content(alloc, &inside, depth, content, 0, &[], found)?;
        let more = check_nodes(alloc, sibling.children(), &inside, below, found)?;
        count = count.saturating_add(1).saturating_add(more);
    }
    Ok(count)
}

fn code_of(found: Option<Fault>) -> Option<EditCode>
    ensures { result ≡ option_map (λ fault. fault.code) found }
{
    found.map(|fault| fault.code)
}

// What is answered of this fault and that there are too many nodes, where there are.
fn or_too_many(found: Option<EditCode>, are_too_many: bool) -> Option<EditCode>
    ensures { at_no_line result ≡ merged (at_no_line found) (least (fault_if are_too_many 12 0)) }
{
    if !are_too_many {
        return found;
    }
    sooner(found, Some(EditCode::TooManyNodes))
}

/// The one of two findings that is answered: that of the least number.
pub(crate) fn sooner(found: Option<EditCode>, other: Option<EditCode>) -> Option<EditCode>
    ensures { at_no_line result ≡ merged (at_no_line found) (at_no_line other) }
{
    match found {
        None => other,
        Some(code) => Some(lesser(code, other)),
    }
}

/// The same of a finding and another, where there is one.
pub(crate) fn lesser(code: EditCode, other: Option<EditCode>) -> EditCode
    ensures { IsLesser code other result }
{
    match other {
        None => code,
        Some(next) => {
            if next.number() < code.number() {
                next
            } else {
                code
            }
        }
    }
}
