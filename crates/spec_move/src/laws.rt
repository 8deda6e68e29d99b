// Laws of moves, which hold of the definitions alone.
ghost use Rattle.std.specs.Prelude.{◌≡◌, ◌≤◌, ◌+◌, ◌↔◌, ℕ, List, ◌∷◌, Some, Ok, Err, IsTrue, false, nat_eq, nat_lt};
ghost use Rattle.std.specs.List.{list_all, IsDistinct};
ghost use Rattle.spec_document.specs.Forest.{Content, Document, plain, labels, height, IsNormal};
ghost use Rattle.spec_document.specs.declared.parent.Parent.{Parent};
ghost use Rattle.spec_document.specs.Place.{Found, node_at};
ghost use Rattle.spec_document.specs.Fault.{Fault, least};
ghost use Rattle.spec_document.specs.NodeFaults.{greatest_depth};
ghost use Rattle.spec_document.specs.Numbering.{number_limit};
ghost use Rattle.spec_edit.specs.Depth.{ElementsFit};
ghost use Rattle.spec_edit.specs.Splice.{Spot, spot_of};
ghost use Rattle.spec_edit.specs.Edit.{Edited, without_labels, parent_by, is_position};
ghost use Rattle.spec_edit.specs.Valid.{IsValid};
ghost use Rattle.spec_move.specs.Kept.{Keeps};
ghost use Rattle.spec_move.specs.Judged.{faults_moving};
ghost use Rattle.spec_move.specs.Move.{goes_through, tree_of, moved_nodes, moved_plain};

/// With the labels forgotten, a move in a document is that in the plain document: labels are not asked.
pub fn moves_ask_no_labels()
    ensures { (first : ℕ) (path other : List ℕ) (document : Document ℕ) →
        moved_plain first path other (plain document.nodes) ≡ without_labels (moved_nodes first path other document) }
{}

/// Where the numbers of a document are distinct and all below the first that is free, so are they after a move, with
/// those of the nodes that it made anew: none is given twice, and none from the limit on.
pub fn moves_keep_numbers_distinct()
    ensures { (first : ℕ) (path other : List ℕ) (document : Document ℕ) (new : Edited ℕ) → moved_nodes first path other document ≡ Ok new
        → IsDistinct nat_eq (document.root ∷ labels document.nodes) → IsTrue (list_all (λ n. nat_lt n first) (document.root ∷ labels document.nodes))
        → IsDistinct nat_eq (document.root ∷ labels new.nodes)
        × IsTrue (list_all (λ n. nat_lt n (first + new.made)) (document.root ∷ labels new.nodes))
        × (first ≤ number_limit → first + new.made ≤ number_limit) }
{}

/// Where the elements of a document stand at depths that are allowed, with other nodes at most one level below the
/// deepest, so do those after a move.
pub fn moves_keep_documents_shallow()
    ensures { (first : ℕ) (path other : List ℕ) (document : Document ℕ) (new : Edited ℕ) → moved_nodes first path other document ≡ Ok new
        → height document.nodes ≤ greatest_depth + 1 → ElementsFit 1 document.nodes
        → (height new.nodes ≤ greatest_depth + 1) × ElementsFit 1 new.nodes }
{}

/// Documents stay as events make them: only elements have something below them, no text is empty and no two stand
/// side by side.
pub fn moves_keep_documents_normal()
    ensures { (first : ℕ) (path other : List ℕ) (document : Document ℕ) (new : Edited ℕ) → moved_nodes first path other document ≡ Ok new
        → IsNormal document.nodes → IsNormal new.nodes }
{}

/// Where a document had no fault, it has none after a move.
pub fn moves_keep_documents_valid()
    ensures { (first : ℕ) (path other : List ℕ) (document : Document ℕ) (new : Edited ℕ) → moved_nodes first path other document ≡ Ok new
        → IsNormal document.nodes → IsValid document.nodes → IsValid new.nodes }
{}

/// A number that a node has before and after a move is that of one node: of one kind and of one expanded name, with the
/// same namespaces in scope and the same white space that counts, and of one content unless another text was joined
/// to it.
pub fn moved_numbers_keep_their_nodes()
    ensures { (first : ℕ) (path other : List ℕ) (document : Document ℕ) (new : Edited ℕ) → moved_nodes first path other document ≡ Ok new
        → IsNormal document.nodes
        → IsDistinct nat_eq (document.root ∷ labels document.nodes) → IsTrue (list_all (λ n. nat_lt n first) (document.root ∷ labels document.nodes))
        → (p q : List ℕ) (x y : Found ℕ) → node_at document p ≡ Some x → node_at (record { root = document.root; nodes = new.nodes }) q ≡ Some y
        → x.label ≡ y.label → Keeps x y }
{}

/// A move of a node, which does not go below itself, is refused for a fault exactly where it is the least of those that
/// the whole document has afterwards, at its top and of all its nodes, and of those of the numbers that are given.
pub fn moves_are_judged_by_the_whole_document()
    ensures { (first : ℕ) (path other : List ℕ) (document : Document ℕ) (from to : Spot) (old node new : Found ℕ) (content : Content)
        (parent : Parent) (fault : Fault)
        → IsValid document.nodes → IsNormal document.nodes → spot_of path ≡ Some from → spot_of other ≡ Some to
        → node_at document path ≡ Some node → node.content ≡ Some content
        → node_at document from.above ≡ Some old → node_at document to.above ≡ Some new
        → parent_by new.content new ≡ Some parent → IsTrue (is_position to.position new.children) → goes_through to.above path ≡ false
        → (moved_nodes first path other document ≡ Err fault)
        ↔ (least (faults_moving first from to old new (tree_of node content) parent document) ≡ Some fault) }
{}
