// Lists and options, compared element by element.
ghost use Rattle.std.specs.Prelude.{◌≡◌, List, map, ℕ};
ghost use Rattle.std.specs.Bool.{Decides};
ghost use Rattle.spec_meaning.specs.Question as plain;
ghost use Rattle.xt_names.specs.View.{entry_of};
ghost use Rattle.spec_node.specs.declared.node_ref.NodeRef.{NodeRef};
ghost use Rattle.spec_stylesheet.specs.Sheet as sheet;
ghost use Rattle.xt_syntax.specs.SheetView.{alias_of};
ghost use Rattle.xt_questions.specs.View.{template_of, sets_of};

use crate::{NamedSets, NamedTemplate};
use xt_names::{Expanded, Namespace};
use xt_syntax::Alias;
use xt_text::Text;
use xt_tree::NodeRef;

/// What stands for a value.
pub(crate) trait Alike {
    ghost Seen: { Type 0 };

    ghost seen: { Self → Seen };

    /// Whether both stand for the same value. Takes no memory.
    fn alike(&self, other: &Self) -> bool
        ensures { Decides result (seen self.now ≡ seen other.now) };
}

/// Whether both lists stand for the same values, one by one.
pub(crate) fn all_alike<T: Alike>(list: &[T], others: &[T]) -> bool
    ensures { Decides result (map T.seen list.now ≡ map T.seen others.now) }
{
    if list.len() != others.len() {
        return false;
    }
    for (index, value) in list.iter().enumerate() {
        if !value.alike(&others[index]) {
            return false;
        }
    }
    true
}

impl Alike for NodeRef {
    ghost Seen = { NodeRef };

    ghost seen = { λ n. n };

    fn alike(&self, other: &NodeRef) -> bool {
        self == other
    }
}

/// Whether both are the same name, or neither is one.
pub(crate) fn same_name_if(one: &Option<Expanded>, other: &Option<Expanded>) -> bool
    ensures { Decides result (one.now ≡ other.now) }
{
    match (one, other) {
        (None, None) => true,
        (Some(name), Some(other)) => name.same(other),
        _ => false,
    }
}

/// Whether both are the same text, or neither is one.
pub(crate) fn same_text_if(one: &Option<Text>, other: &Option<Text>) -> bool
    ensures { Decides result (one.now ≡ other.now) }
{
    match (one, other) {
        (None, None) => true,
        (Some(text), Some(other)) => text.same(other),
        _ => false,
    }
}

/// Whether both lists have the same nodes in the same order.
pub(crate) fn same_nodes(list: &[NodeRef], others: &[NodeRef]) -> bool
    ensures { Decides result (list.now ≡ others.now) }
{
    all_alike(list, others)
}

impl Alike for Namespace {
    ghost Seen = { List ℕ × List ℕ };

    ghost seen = { entry_of };

    fn alike(&self, other: &Namespace) -> bool {
        self.prefix.same(&other.prefix) && self.uri.same(&other.uri)
    }
}

impl Alike for NamedTemplate {
    ghost Seen = { plain.NamedTemplate NodeRef };

    ghost seen = { template_of };

    fn alike(&self, other: &NamedTemplate) -> bool {
        self.name.same(&other.name) && self.element == other.element
    }
}

impl Alike for NamedSets {
    ghost Seen = { plain.NamedSets NodeRef };

    ghost seen = { sets_of };

    fn alike(&self, other: &NamedSets) -> bool {
        self.name.same(&other.name)
            && same_nodes(self.elements.as_slice(), other.elements.as_slice())
    }
}

impl Alike for Alias {
    ghost Seen = { sheet.Alias };

    ghost seen = { alias_of };

    fn alike(&self, other: &Alias) -> bool {
        self.same(other)
    }
}
