// Laws of edits, which hold of the definitions alone.
ghost use Rattle.std.specs.Prelude.{◌≡◌, ◌≢◌, ◌≤◌, ◌+◌, ◌-◌, ◌↔◌, ℕ, List, [], ◌∷◌, Some, Ok, Err, IsTrue, nat_eq, nat_lt};
ghost use Rattle.std.specs.List.{list_all, IsDistinct};
ghost use Rattle.spec_document.specs.Forest.{Content, Forest, Document, plain, labels, numbered, size, height, IsNormal};
ghost use Rattle.spec_document.specs.declared.parent.Parent.{Parent};
ghost use Rattle.spec_document.specs.Balance.{LineNumbers, forest_of};
ghost use Rattle.spec_document.specs.Body.{events_at, line_faults};
ghost use Rattle.spec_document.specs.Document.{document_of, nodes_of, depth_of};
ghost use Rattle.spec_document.specs.Scope.{Scope, root_scope};
ghost use Rattle.spec_document.specs.Place.{Found, node_at};
ghost use Rattle.spec_document.specs.Fault.{Fault, least};
ghost use Rattle.spec_document.specs.NodeFaults.{greatest_depth};
ghost use Rattle.spec_document.specs.Numbering.{number_limit};
ghost use Rattle.spec_edit.specs.Depth.{ElementsFit};
ghost use Rattle.spec_edit.specs.Kept.{Keeps};
ghost use Rattle.spec_edit.specs.Judged.{path_of, content_by, faults_with, faults_inserting};
ghost use Rattle.spec_edit.specs.Splice.{Spot, spot_of, children_changed, deleted};
ghost use Rattle.spec_edit.specs.Valid.{IsValid};
ghost use Rattle.spec_edit.specs.Edit.{Edit, Insert, Delete, Edited, edited_nodes, edited_plain, without_labels, element_count, parent_by, is_position};

/// With the labels forgotten, an edit of a document is that of the plain document: labels are not asked.
pub fn labels_do_not_matter()
    ensures { (first : ℕ) (edit : Edit) (document : Document ℕ) →
        edited_plain first edit (plain document.nodes) ≡ without_labels (edited_nodes first edit document) }
{}

/// Where the numbers of a document are distinct and all below the first that is free, so are they after an edit, with
/// those of the nodes that it made: none is given twice, and none from the limit on.
pub fn numbers_stay_distinct()
    ensures { (first : ℕ) (edit : Edit) (document : Document ℕ) (new : Edited ℕ) → edited_nodes first edit document ≡ Ok new
        → IsDistinct nat_eq (document.root ∷ labels document.nodes) → IsTrue (list_all (λ n. nat_lt n first) (document.root ∷ labels document.nodes))
        → IsDistinct nat_eq (document.root ∷ labels new.nodes)
        × IsTrue (list_all (λ n. nat_lt n (first + new.made)) (document.root ∷ labels new.nodes))
        × (first ≤ number_limit → first + new.made ≤ number_limit) }
{}

/// Where the elements of a document stand at depths that are allowed, with other nodes at most one level below the
/// deepest, so do those after an edit.
pub fn documents_stay_shallow()
    ensures { (first : ℕ) (edit : Edit) (document : Document ℕ) (new : Edited ℕ) → edited_nodes first edit document ≡ Ok new
        → height document.nodes ≤ greatest_depth + 1 → ElementsFit 1 document.nodes
        → (height new.nodes ≤ greatest_depth + 1) × ElementsFit 1 new.nodes }
{}

/// Siblings that are read are numbered in document order, below the limit, normal, and no deeper than may stand there.
pub fn siblings_begin_well()
    ensures { (scope : Scope) (first : ℕ) (parent : Parent) (body : List (List ℕ)) (nodes : Forest ℕ) → nodes_of scope first parent body ≡ Ok nodes
        → (numbered first nodes ≡ nodes) × (first ≤ number_limit → first + size nodes ≤ number_limit) × IsNormal nodes
        × ElementsFit (depth_of parent + 1) nodes
        × (depth_of parent ≤ greatest_depth → depth_of parent + height nodes ≤ greatest_depth + 1) }
{}

/// Documents stay as events make them: only elements have something below them, no text is empty and no two stand
/// side by side.
pub fn documents_stay_normal()
    ensures { (first : ℕ) (edit : Edit) (document : Document ℕ) (new : Edited ℕ) → edited_nodes first edit document ≡ Ok new
        → IsNormal document.nodes → IsNormal new.nodes }
{}

/// Where the document had no fault, it has none after an edit.
pub fn documents_stay_valid()
    ensures { (first : ℕ) (edit : Edit) (document : Document ℕ) (new : Edited ℕ) → edited_nodes first edit document ≡ Ok new
        → IsValid document.nodes → IsValid new.nodes }
{}

/// A change of attributes or of a name is refused for a fault exactly where the whole document would have that fault as
/// its least afterwards, or no number is left for a node that is made anew: what is judged at the node alone is as good.
pub fn edits_are_judged_by_the_whole_document()
    ensures { (first : ℕ) (edit : Edit) (document : Document ℕ) (spot : Spot) (node : Found ℕ) (old new : Content) (fault : Fault)
        → IsValid document.nodes → spot_of (path_of edit) ≡ Some spot → node_at document (path_of edit) ≡ Some node → node.content ≡ Some old
        → content_by edit old ≡ Some new
        → (edited_nodes first edit document ≡ Err fault) ↔ (least (faults_with first edit spot document node new) ≡ Some fault) }
{}

/// A number that a node has before and after an edit is that of one node: of one kind and of one expanded name, and of
/// one content unless the edit speaks of it or another text was joined to it.
pub fn kept_numbers_keep_their_nodes()
    ensures { (first : ℕ) (edit : Edit) (document : Document ℕ) (new : Edited ℕ) → edited_nodes first edit document ≡ Ok new
        → IsDistinct nat_eq (document.root ∷ labels document.nodes) → IsTrue (list_all (λ n. nat_lt n first) (document.root ∷ labels document.nodes))
        → (p q : List ℕ) (x y : Found ℕ) → node_at document p ≡ Some x → node_at (record { root = document.root; nodes = new.nodes }) q ≡ Some y
        → x.label ≡ y.label → Keeps document edit x y }
{}

/// A document that is read is as the other laws want it: without faults, normal and shallow, with distinct numbers
/// that go on from its root's.
pub fn documents_begin_well()
    ensures { (first : ℕ) (body : List (List ℕ)) (document : Document ℕ) → document_of root_scope first body ≡ Ok document
        → IsValid document.nodes × IsNormal document.nodes × (height document.nodes ≤ greatest_depth + 1) × ElementsFit 1 document.nodes
        × IsDistinct nat_eq (document.root ∷ labels document.nodes)
        × IsTrue (list_all (λ n. nat_lt n (first + 1 + size document.nodes)) (document.root ∷ labels document.nodes))
        × (first + 1 + size document.nodes ≤ number_limit) }
{}

/// A deletion is refused exactly where other than one element would stand at the top afterwards.
pub fn deletions_are_judged_by_the_whole_document()
    ensures { (first : ℕ) (path : List ℕ) (document : Document ℕ) (spot : Spot) (node : Found ℕ) (fault : Fault)
        → IsValid document.nodes → spot_of path ≡ Some spot → node_at document path ≡ Some node
        → (edited_nodes first (Delete path) document ≡ Err fault)
        ↔ ((element_count (children_changed (deleted (spot.position - 1)) spot.above document.nodes) ≢ 1)
        × (fault ≡ record { number = 9; line = 0 })) }
{}

/// An insertion of siblings is refused for a fault exactly where it is the least of their faults at the top, of those of
/// all nodes of the whole document afterwards, and of those of the numbers that are given.
pub fn insertions_are_judged_by_the_whole_document()
    ensures { (first : ℕ) (path : List ℕ) (body : List (List ℕ)) (document : Document ℕ) (spot : Spot) (node : Found ℕ) (parent : Parent)
        (siblings : Forest LineNumbers) (fault : Fault)
        → IsValid document.nodes → IsNormal document.nodes → spot_of path ≡ Some spot → node_at document spot.above ≡ Some node
        → parent_by node.content node ≡ Some parent → IsTrue (is_position spot.position node.children)
        → line_faults body ≡ [] → forest_of (events_at body) ≡ Some siblings
        → (edited_nodes first (Insert path body) document ≡ Err fault) ↔ (least (faults_inserting first spot parent siblings document) ≡ Some fault) }
{}
