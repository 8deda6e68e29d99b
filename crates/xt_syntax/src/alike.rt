// Lists and options of trees, compared tree by tree.
ghost use Rattle.std.specs.Prelude.{◌≡◌, map};
ghost use Rattle.std.specs.Bool.{Decides};
ghost use Rattle.std.specs.Option.{option_map};
ghost use Rattle.spec_expression.specs.Syntax as tree;
ghost use Rattle.xt_syntax.specs.View.{expr_of};

use crate::expr::Expr;

/// What stands for a tree.
pub(crate) trait Alike {
    ghost Seen: { Type 0 };

    ghost seen: { Self → Seen };

    /// Whether both stand for the same tree. Takes no memory.
    fn alike(&self, other: &Self) -> bool
        ensures { Decides result (seen self.now ≡ seen other.now) };
}

/// Whether both lists stand for the same trees, one by one.
pub(crate) fn all_alike<T: Alike>(list: &[T], others: &[T]) -> bool
    ensures { Decides result (map T.seen list.now ≡ map T.seen others.now) }
{
    if list.len() != others.len() {
        return false;
    }
    for (index, tree) in list.iter().enumerate() {
        if !tree.alike(&others[index]) {
            return false;
        }
    }
    true
}

/// Whether neither is there, or both are and stand for the same tree.
pub(crate) fn both_alike<T: Alike>(one: &Option<T>, other: &Option<T>) -> bool
    ensures { Decides result (option_map T.seen one.now ≡ option_map T.seen other.now) }
{
    match (one, other) {
        (None, None) => true,
        (Some(tree), Some(other)) => tree.alike(other),
        _ => false,
    }
}

impl Alike for Expr {
    ghost Seen = { tree.Expr };

    ghost seen = { expr_of };

    fn alike(&self, other: &Expr) -> bool {
        self.same(other)
    }
}
