// Laws of changes, which hold of the definitions alone.
ghost use Rattle.std.specs.Prelude.{◌≡◌, ℕ, List, ◌∷◌, Some, Ok, IsTrue, true, false, nat_eq, nat_lt};
ghost use Rattle.std.specs.List.{list_all, IsDistinct};
ghost use Rattle.spec_document.specs.Forest.{Document, labels, plain, IsNormal};
ghost use Rattle.spec_document.specs.Place.{Found, kind_by, node_at};
ghost use Rattle.spec_document.specs.declared.kind.Kind.TheVariants as kind;
ghost use Rattle.spec_change.specs.Change.{Change, SaysWhatIsGone, change_of, is_among};
ghost use Rattle.spec_change.specs.Taken.{taken, texts_may_go};
ghost use Rattle.spec_edit.specs.Edit.{Edit, Edited, edited_nodes};

/// What an edit changes is told whole: of the numbers of the old document those that are gone are not in the new one, and
/// all others are; of those of the new one exactly what was brought is not of the old one, and has numbers from the first on.
pub fn changes_say_what_is_gone()
    ensures { (first : ℕ) (edit : Edit) (document : Document ℕ) (new : Edited ℕ) → edited_nodes first edit document ≡ Ok new
        → IsDistinct nat_eq (document.root ∷ labels document.nodes) → IsTrue (list_all (λ n. nat_lt n first) (document.root ∷ labels document.nodes))
        → (change : Change) × (change_of edit document (record { root = document.root; nodes = new.nodes }) ≡ Some change)
        × SaysWhatIsGone first document (record { root = document.root; nodes = new.nodes }) change }
{}

/// Two edits that answer make the same of a document: from one number on the same document, and from another on a
/// document that differs in numbers alone. So where one call answers, another can differ from it by want of memory alone.
pub fn edits_agree()
    ensures { (first next : ℕ) (edit : Edit) (document : Document ℕ) (one other : Edited ℕ) → edited_nodes first edit document ≡ Ok one
        → edited_nodes next edit document ≡ Ok other
        → (plain one.nodes ≡ plain other.nodes) × (one.made ≡ other.made) × (first ≡ next → one ≡ other) }
{}

/// A node keeps its number, unless it is the node at the edit's path, where that goes or is made anew, or stands below that
/// one, or is a text, where siblings come or go or a text is emptied: there texts that meet are one.
pub fn nodes_keep_their_numbers()
    ensures { (first : ℕ) (edit : Edit) (document : Document ℕ) (new : Edited ℕ) → edited_nodes first edit document ≡ Ok new
        → IsNormal document.nodes → (path : List ℕ) (node : Found ℕ) → node_at document path ≡ Some node
        → is_among (taken edit document) node.label ≡ false → (kind_by node.content ≡ kind.Text → texts_may_go edit ≡ false)
        → is_among (document.root ∷ labels new.nodes) node.label ≡ true }
{}
