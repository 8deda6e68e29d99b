// Declarations in a search tree, in the code point order of their prefixes. A tree with one more is a new
// tree, which has all nodes but those on the way to it in common with the old one.
ghost use Rattle.std.specs.Prelude.{◌≡◌, ◌&&◌, ◌++◌, [], ◌∷◌, List, IfOk, OnOk};
ghost use Rattle.std.specs.List.{filter, list_all};
ghost use Rattle.std.specs.Option.{option_copied, option_map};
ghost use Rattle.std.specs.Ordering.{nat_cmp};
ghost use Rattle.std.specs.Cmp.Lexicographic.{slice_cmp};
ghost use Rattle.std.specs.FinMap.Entries.{put, find};
ghost use Rattle.std.specs.Str.{chars};
ghost use Rattle.spec_document.specs.Declaration.{is_there};
ghost use Rattle.xt_names.specs.Nth.{IsNth};
ghost use Rattle.xt_names.specs.View.{entry_of, entries_of};
ghost use Rattle.xt_names.specs.SearchTree.{node_entries, link_entries, has_entry, IsOrdered};

use crate::Namespace;
use std::alloc::Global;
use std::cmp::Ordering;
use std::rc::Rc;
use xt_text::{Memory, Text, compare};

/// A tree, or none.
pub(crate) type Link = Option<Rc<Node>>;

/// A declaration, and those before and after it.
#[derive(Drop)]
pub(crate) struct Node {
    namespace: Rc<Namespace>,
    // How many nodes are on the longest way down from here. It steers the balance alone: two sides differ
    // by at most one.
    height: u8,
    before: Link,
    after: Link,
}

/// The same tree.
pub(crate) fn share(link: &Link) -> Result<Link, Memory>
    ensures { IfOk result (λ same. link_entries same ≡ link_entries link.now) }
{
    match link {
        None => Ok(None),
        Some(node) => Ok(Some(node.clone()?)),
    }
}

/// The URI of a prefix.
pub(crate) fn find<'a>(link: &'a Link, prefix: &str) -> Option<&'a Text>
    requires { IsOrdered (link_entries link.now) }
    ensures { option_copied result ≡ find (slice_cmp nat_cmp) (chars prefix.now) (link_entries link.now) }
{
    let mut below = link;
    while let Some(node) = below {
        let node: &Node = node;
        let own: &Namespace = &node.namespace;
        match compare(prefix, own.prefix.as_str()) {
            Ordering::Less => below = &node.before,
            Ordering::Equal => return Some(&own.uri),
            Ordering::Greater => below = &node.after,
        }
    }
    None
}

/// The tree with this declaration, in place of one of its prefix.
pub(crate) fn put(alloc: Global, link: &Link, namespace: Rc<Namespace>) -> Result<Rc<Node>, Memory>
    requires { IsOrdered (link_entries link.now) }
    ensures { IfOk result (λ node. node_entries node.value ≡ put (slice_cmp nat_cmp) namespace.value.prefix namespace.value.uri (link_entries link.now)) }
{
    let Some(node) = link else {
        return join(alloc, None, namespace, None);
    };
    let Parts { before, own, after } = Parts::of(node)?;
    match compare(namespace.prefix.as_str(), own.prefix.as_str()) {
        Ordering::Less => {
            let before = put(alloc, &before, namespace)?;
            balance(alloc, Some(before), own, after)
        }
        Ordering::Equal => join(alloc, before, namespace, after),
        Ordering::Greater => {
            let after = put(alloc, &after, namespace)?;
            balance(alloc, before, own, Some(after))
        }
    }
}

/// Whether each declaration of one tree stands in the other too.
pub(crate) fn same(link: &Link, other: &Link) -> bool
    requires own { IsOrdered (link_entries link.now) }
    requires other { IsOrdered (link_entries other.now) }
    ensures { result ≡ (list_all (has_entry (link_entries other.now)) (link_entries link.now) && list_all (has_entry (link_entries link.now)) (link_entries other.now)) }
{
    is_within(link, other) && is_within(other, link)
}

// Whether each declaration of the tree stands in the other.
fn is_within(link: &Link, other: &Link) -> bool
    requires { IsOrdered (link_entries other.now) }
    ensures { result ≡ list_all (has_entry (link_entries other.now)) (link_entries link.now) }
{
    match link {
        None => true,
        Some(node) => {
            is_within(&node.before, other)
                && has(other, &node.namespace)
                && is_within(&node.after, other)
        }
    }
}

// Whether the tree has this declaration.
fn has(link: &Link, namespace: &Namespace) -> bool
    requires { IsOrdered (link_entries link.now) }
    ensures { result ≡ has_entry (link_entries link.now) (entry_of namespace.now) }
{
    match find(link, namespace.prefix.as_str()) {
        None => false,
        Some(uri) => uri.same(&namespace.uri),
    }
}

/// Adds the namespaces that have a URI to the list, in order.
pub(crate) fn push_namespaces(list: &mut Vec<Rc<Namespace>>, link: &Link) -> Result<(), Memory>
    ensures { OnOk result (entries_of list.new.items ≡ entries_of list.old.items ++ filter (λ n. is_there n.1) (link_entries link.now)) }
{
    let Some(node) = link else {
        return Ok(());
    };
    push_namespaces(list, &node.before)?;
    push_namespace(list, &node.namespace)?;
    push_namespaces(list, &node.after)
}

/// The namespace at this number among those that have a URI, in order. Where there are not so many, so many fewer are
/// left.
pub(crate) fn nth_namespace<'a>(link: &'a Link, left: &mut u64) -> Option<&'a Namespace>
    ensures { IsNth left.old left.new (filter (λ n. is_there n.1) (link_entries link.now)) (option_map (λ n. entry_of n.now) result) }
{
    let Some(node) = link else {
        return None;
    };
    if let Some(found) = nth_namespace(&node.before, left) {
        return Some(found);
    }
    if let Some(found) = own_nth(&node.namespace, left) {
        return Some(found);
    }
    nth_namespace(&node.after, left)
}

// The same of this namespace alone.
fn own_nth<'a>(namespace: &'a Namespace, left: &mut u64) -> Option<&'a Namespace>
    ensures { IsNth left.old left.new (filter (λ n. is_there n.1) (entry_of namespace.now ∷ [])) (option_map (λ n. entry_of n.now) result) }
{
    if namespace.uri.is_empty() {
        return None;
    }
    if *left == 1 {
        return Some(namespace);
    }
    *left = left.saturating_sub(1);
    None
}

// Adds the namespace to the list, if it has a URI.
fn push_namespace(list: &mut Vec<Rc<Namespace>>, namespace: &Rc<Namespace>) -> Result<(), Memory>
    ensures { OnOk result (entries_of list.new.items ≡ entries_of list.old.items ++ filter (λ n. is_there n.1) (entry_of namespace.now.value ∷ [])) }
{
    if !namespace.uri.is_empty() {
        list.push(namespace.clone()?)?;
    }
    Ok(())
}

// A declaration, and the trees of those before and after it.
#[derive(Drop)]
struct Parts {
    before: Link,
    own: Rc<Namespace>,
    after: Link,
}

impl Parts {
    // What stands in a node, shared with it.
    fn of(node: &Rc<Node>) -> Result<Parts, Memory>
        ensures { IfOk result (λ parts. node_entries node.now.value ≡ link_entries parts.before ++ entry_of parts.own.value ∷ link_entries parts.after) }
    {
        Ok(Parts {
            before: share(&node.before)?,
            own: node.namespace.clone()?,
            after: share(&node.after)?,
        })
    }
}

// The height of a tree.
fn height(link: &Link) -> u8 {
    match link {
        None => 0,
        Some(node) => node.height,
    }
}

// The tree of these, whose sides differ in height by at most one.
fn join(
    alloc: Global,
    before: Link,
    namespace: Rc<Namespace>,
    after: Link,
) -> Result<Rc<Node>, Memory>
    ensures { IfOk result (λ node. node_entries node.value ≡ link_entries before ++ entry_of namespace.value ∷ link_entries after) }
{
    let height = height(&before).max(height(&after)).saturating_add(1);
    Ok(Rc::new(
        alloc,
        Node {
            namespace,
            height,
            before,
            after,
        },
    )?)
}

// The tree of these, whose sides differ in height by at most two.
fn balance(
    alloc: Global,
    before: Link,
    namespace: Rc<Namespace>,
    after: Link,
) -> Result<Rc<Node>, Memory>
    ensures { IfOk result (λ node. node_entries node.value ≡ link_entries before ++ entry_of namespace.value ∷ link_entries after) }
{
    let heights = (height(&before), height(&after));
    match (&before, &after) {
        (Some(top), _) if heights.0 > heights.1.saturating_add(1) => {
            lift_before(alloc, Parts::of(top)?, namespace, after)
        }
        (_, Some(top)) if heights.1 > heights.0.saturating_add(1) => {
            lift_after(alloc, before, namespace, Parts::of(top)?)
        }
        _ => join(alloc, before, namespace, after),
    }
}

// The same, where the side before is too high: a node of it comes to the top.
fn lift_before(
    alloc: Global,
    top: Parts,
    namespace: Rc<Namespace>,
    after: Link,
) -> Result<Rc<Node>, Memory>
    ensures { IfOk result (λ node. node_entries node.value ≡ (link_entries top.before ++ entry_of top.own.value ∷ link_entries top.after) ++ entry_of namespace.value ∷ link_entries after) }
{
    match &top.after {
        Some(middle) if height(&top.before) < height(&top.after) => {
            let middle = Parts::of(middle)?;
            let lower = join(alloc, top.before, top.own, middle.before)?;
            let upper = join(alloc, middle.after, namespace, after)?;
            join(alloc, Some(lower), middle.own, Some(upper))
        }
        _ => {
            let upper = join(alloc, top.after, namespace, after)?;
            join(alloc, top.before, top.own, Some(upper))
        }
    }
}

// The same, where the side after is too high.
fn lift_after(
    alloc: Global,
    before: Link,
    namespace: Rc<Namespace>,
    top: Parts,
) -> Result<Rc<Node>, Memory>
    ensures { IfOk result (λ node. node_entries node.value ≡ link_entries before ++ entry_of namespace.value ∷ (link_entries top.before ++ entry_of top.own.value ∷ link_entries top.after)) }
{
    match &top.before {
        Some(middle) if height(&top.after) < height(&top.before) => {
            let middle = Parts::of(middle)?;
            let lower = join(alloc, before, namespace, middle.before)?;
            let upper = join(alloc, middle.after, top.own, top.after)?;
            join(alloc, Some(lower), middle.own, Some(upper))
        }
        _ => {
            let lower = join(alloc, before, namespace, top.before)?;
            join(alloc, Some(lower), top.own, top.after)
        }
    }
}
