// Laws of document order and of axes, which hold of the definitions alone.
ghost use Rattle.std.specs.Prelude.{◌≡◌, ℕ, List, [], ◌∷◌, IsTrue, count_by};
ghost use Rattle.std.specs.declared.cmp.Ordering.TheVariants.{Equal};
ghost use Rattle.std.specs.Cmp.{IsTotalOrder};
ghost use Rattle.spec_document.specs.declared.axis.Axis.TheVariants as axes;
ghost use Rattle.spec_document.specs.Forest.{Document};
ghost use Rattle.spec_document.specs.Axis.{is_on, is_in_tree};
ghost use Rattle.spec_document.specs.Order.{Way, document_cmp, entries_of, ways_of, AreInOrder};

/// Document order is a strict total order of places (XPath 1.0, section 5): of two places one comes
/// first, unless they are one.
pub fn document_order_is_total()
    ensures total { IsTotalOrder document_cmp }
    ensures strict { (p q : List Way) → document_cmp p q ≡ Equal → p ≡ q }
{}

/// The axes self, ancestor, descendant, following and preceding of a node of the tree part the nodes of
/// the tree: each stands on exactly one of them (XPath 1.0, section 2.2).
pub fn axes_part_the_tree()
    ensures { (p q : List Way) → IsTrue (is_in_tree p) → IsTrue (is_in_tree q) →
        count_by (λ axis. is_on axis p q) (axes.Itself ∷ axes.Ancestor ∷ axes.Descendant ∷ axes.Following ∷ axes.Preceding ∷ []) ≡ 1 }
{}

/// The nodes of a document are listed in document order, so each is listed once.
pub fn nodes_stand_in_order()
    ensures { (document : Document ℕ) → AreInOrder (ways_of (entries_of document)) }
{}
