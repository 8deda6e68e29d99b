// Laws of what changes mark, which hold of the definitions alone.
ghost use Rattle.std.specs.Prelude.{◌≡◌, ℕ, List, ◌∷◌, Option, Some, Ok, true, false, IsTrue, nat_eq, nat_lt};
ghost use Rattle.std.specs.List.{list_all, IsDistinct};
ghost use Rattle.spec_document.specs.Forest.{Document, IsNormal, labels};
ghost use Rattle.spec_document.specs.Name.{Expanded};
ghost use Rattle.spec_document.specs.Order.{entries_of};
ghost use Rattle.spec_stylesheet.specs.Place.{Place};
ghost use Rattle.spec_stylesheet.specs.Sheet.{Sheet, SpaceRule};
ghost use Rattle.spec_seen.specs.Seen.{seen};
ghost use Rattle.spec_meaning.specs.Question.{Question};
ghost use Rattle.spec_run.specs.Documents.{Parameters};
ghost use Rattle.spec_run.specs.World.{truth_by};
ghost use Rattle.spec_edit.specs.Valid.{IsValid};
ghost use Rattle.spec_edit.specs.Edit.{Edit, Edited, edited_nodes};
ghost use Rattle.spec_edit.specs.Splice.{Spot, spot_of};
ghost use Rattle.spec_change.specs.Change.{Change, change_of};
ghost use Rattle.spec_move.specs.Changed.{MoveChange, between, document_without, move_change};
ghost use Rattle.spec_move.specs.Move.{is_path, moved_nodes};
ghost use Rattle.spec_node.specs.declared.node_ref.NodeRef.{NodeRef};
ghost use Rattle.spec_node.specs.Naming.{ref_of, same_ref};
ghost use Rattle.spec_touch.specs.Touched.{is_touched};
ghost use Rattle.spec_touch.specs.Leads.{KeepsSpace, Leads, seen_change};
ghost use Rattle.spec_touch.specs.Moved.{move_touched};
ghost use Rattle.spec_touch.specs.Plain.{AreAsking, TellsApart, spared, spared_by_move};
ghost use Rattle.spec_touch.specs.Marks.{ComeTo, ComesTo, World, WorldChange, answers, any_asks, any_marks, marks};

/// Each edit that is accepted makes a change that leads from the document before to the one after, where the numbers of the
/// document were distinct and all below the first that is free.
pub fn edits_lead()
    ensures { (first : ℕ) (edit : Edit) (document : Document ℕ) (new : Edited ℕ) → edited_nodes first edit document ≡ Ok new
        → IsDistinct nat_eq (document.root ∷ labels document.nodes) → IsTrue (list_all (λ n. nat_lt n first) (document.root ∷ labels document.nodes))
        → (change : Change) × (change_of edit document (record { root = document.root; nodes = new.nodes }) ≡ Some change)
        × Leads change document (record { root = document.root; nodes = new.nodes }) }
{}

/// Where a change leads from one document to another, a question that it does not mark has the same true answer in both,
/// whatever the stylesheet, its elements' names and the parameters are. Nodes of the documents are named by their numbers.
pub fn unmarked_questions_keep_their_answers()
    ensures { (change : Change) (old new : Document ℕ) → Leads change old new
        → (sheet : Sheet) (parameters : Parameters) (called : Place → NodeRef) (question : Question NodeRef) → is_touched change question ≡ false
        → truth_by ref_of same_ref called sheet parameters (entries_of old) question
        ≡ truth_by ref_of same_ref called sheet parameters (entries_of new) question }
{}

/// Where a change of the source, of modules or of a parameter leads from one world to another, a question that it does not
/// mark has the same true answer in both.
pub fn unmarked_questions_keep_their_answers_in_worlds()
    ensures { (change : WorldChange) (old new : World) → ComesTo change old new → (question : Question NodeRef) → marks change question ≡ false
        → answers old question ≡ answers new question }
{}

/// So it is where several changes lead from one world to another, one after the other: a question that none of them marks has
/// the same true answer in both.
pub fn unmarked_by_all_keep_their_answers()
    ensures { (changes : List WorldChange) (old new : World) → ComeTo changes old new → (question : Question NodeRef)
        → any_marks changes question ≡ false → answers old question ≡ answers new question }
{}

/// What need not be asked has the same true answer, too: of the children of a node whose children change, those that stay and
/// are elements are as they were, though a change marks what is below them.
pub fn what_need_not_be_asked_keeps_its_answers()
    ensures { (changes : List WorldChange) (old new : World) → ComeTo changes old new → (question : Question NodeRef)
        → any_asks changes question ≡ false → answers old question ≡ answers new question }
{}

/// And it is no more than what is marked that is asked.
pub fn what_is_not_marked_need_not_be_asked()
    ensures { (changes : List WorldChange) (question : Question NodeRef) → any_marks changes question ≡ false → any_asks changes question ≡ false }
{}

/// The change of an edit as it is seen leads from what is seen of the document before to what is seen of the one after,
/// whatever rules strip white space: a text that is seen before or after alone goes or comes. Where attributes of an element
/// change, xml:space has to say there what it said, as it does in a document without faults (`edits_keep_space`).
pub fn edits_lead_as_they_are_seen()
    ensures { (rules : List SpaceRule) (first : ℕ) (edit : Edit) (document : Document ℕ) (new : Edited ℕ) → edited_nodes first edit document ≡ Ok new
        → IsNormal document.nodes → IsDistinct nat_eq (document.root ∷ labels document.nodes)
        → IsTrue (list_all (λ n. nat_lt n first) (document.root ∷ labels document.nodes))
        → KeepsSpace edit document (record { root = document.root; nodes = new.nodes })
        → (change : Change) × (change_of edit document (record { root = document.root; nodes = new.nodes }) ≡ Some change)
        × Leads (seen_change change (seen rules document) (seen rules (record { root = document.root; nodes = new.nodes })))
        (seen rules document) (seen rules (record { root = document.root; nodes = new.nodes })) }
{}

/// In a document without faults xml:space says what it said wherever an edit changes attributes: where it would say otherwise,
/// the element is made anew.
pub fn edits_keep_space()
    ensures { (first : ℕ) (edit : Edit) (document : Document ℕ) (new : Edited ℕ) → edited_nodes first edit document ≡ Ok new
        → IsValid document.nodes → KeepsSpace edit document (record { root = document.root; nodes = new.nodes }) }
{}

/// So with an edit of the source a question that the change as it is seen does not mark has the same true answer before and
/// after, whatever the stylesheet and the parameters are.
pub fn edits_keep_the_answers_of_unmarked_questions()
    ensures { (sheet : Sheet) (first : ℕ) (edit : Edit) (document : Document ℕ) (new : Edited ℕ) → edited_nodes first edit document ≡ Ok new
        → IsNormal document.nodes → IsDistinct nat_eq (document.root ∷ labels document.nodes)
        → IsTrue (list_all (λ n. nat_lt n first) (document.root ∷ labels document.nodes))
        → KeepsSpace edit document (record { root = document.root; nodes = new.nodes })
        → (parameters : Parameters) (called : Place → NodeRef) (change : Change)
        → change_of edit document (record { root = document.root; nodes = new.nodes }) ≡ Some change → (question : Question NodeRef)
        → is_touched (seen_change change (seen sheet.space_rules.rules document)
        (seen sheet.space_rules.rules (record { root = document.root; nodes = new.nodes }))) question ≡ false
        → truth_by ref_of same_ref called sheet parameters (entries_of (seen sheet.space_rules.rules document)) question
        ≡ truth_by ref_of same_ref called sheet parameters
        (entries_of (seen sheet.space_rules.rules (record { root = document.root; nodes = new.nodes }))) question }
{}

/// Where the patterns of all rules of a mode have no predicates and no key(), the choice of a rule for a node that stays is the
/// same before and after a change, though the change marks it. What is told to be gone or brought must be told apart from what
/// stays; with two nodes of one number a node above could be taken for one that goes.
pub fn plain_choices_stay()
    ensures { (change : Change) (old new : Document ℕ) → Leads change old new → TellsApart change old new
        → (sheet : Sheet) (parameters : Parameters) (called : Place → NodeRef) (question : Question NodeRef)
        → (asking : List (Option Expanded)) → AreAsking asking sheet.rules.rules → spared asking change question ≡ true
        → truth_by ref_of same_ref called sheet parameters (entries_of old) question
        ≡ truth_by ref_of same_ref called sheet parameters (entries_of new) question }
{}

/// So with an edit of the source such a choice is the same before and after, whatever the stylesheet and the parameters are.
pub fn edits_keep_plain_choices()
    ensures { (sheet : Sheet) (first : ℕ) (edit : Edit) (document : Document ℕ) (new : Edited ℕ) → edited_nodes first edit document ≡ Ok new
        → IsNormal document.nodes → IsDistinct nat_eq (document.root ∷ labels document.nodes)
        → IsTrue (list_all (λ n. nat_lt n first) (document.root ∷ labels document.nodes))
        → KeepsSpace edit document (record { root = document.root; nodes = new.nodes })
        → (parameters : Parameters) (called : Place → NodeRef) (change : Change)
        → change_of edit document (record { root = document.root; nodes = new.nodes }) ≡ Some change → (question : Question NodeRef)
        → (asking : List (Option Expanded)) → AreAsking asking sheet.rules.rules
        → spared asking (seen_change change (seen sheet.space_rules.rules document)
        (seen sheet.space_rules.rules (record { root = document.root; nodes = new.nodes }))) question ≡ true
        → truth_by ref_of same_ref called sheet parameters (entries_of (seen sheet.space_rules.rules document)) question
        ≡ truth_by ref_of same_ref called sheet parameters
        (entries_of (seen sheet.space_rules.rules (record { root = document.root; nodes = new.nodes }))) question }
{}

/// Each move that is accepted makes a change.
pub fn moves_make_changes()
    ensures { (first : ℕ) (path other : List ℕ) (document : Document ℕ) (new : Edited ℕ) → moved_nodes first path other document ≡ Ok new
        → IsNormal document.nodes → IsDistinct nat_eq (document.root ∷ labels document.nodes)
        → IsTrue (list_all (λ n. nat_lt n first) (document.root ∷ labels document.nodes))
        → (change : MoveChange) × (move_change path other document (record { root = document.root; nodes = new.nodes }) ≡ Some change) }
{}

/// A move to another parent leads from the document before to the one after in two steps: the children of the parent that the
/// node leaves change, which leads to the document without the node, and then those of the parent that it comes to.
pub fn moves_to_another_parent_lead()
    ensures { (first : ℕ) (path other : List ℕ) (document : Document ℕ) (new : Edited ℕ) → moved_nodes first path other document ≡ Ok new
        → IsNormal document.nodes → IsDistinct nat_eq (document.root ∷ labels document.nodes)
        → IsTrue (list_all (λ n. nat_lt n first) (document.root ∷ labels document.nodes))
        → (from to : Spot) → spot_of path ≡ Some from → spot_of other ≡ Some to → is_path from.above to.above ≡ false
        → (left entered : Change)
        × (move_change path other document (record { root = document.root; nodes = new.nodes }) ≡ Some (between left entered))
        × Leads left document (document_without from document)
        × Leads entered (document_without from document) (record { root = document.root; nodes = new.nodes }) }
{}

/// With a move, to another parent or within one, a question that its change does not mark has the same true answer before and
/// after, whatever the stylesheet, its elements' names and the parameters are.
pub fn moves_keep_the_answers_of_unmarked_questions()
    ensures { (first : ℕ) (path other : List ℕ) (document : Document ℕ) (new : Edited ℕ) → moved_nodes first path other document ≡ Ok new
        → IsNormal document.nodes → IsDistinct nat_eq (document.root ∷ labels document.nodes)
        → IsTrue (list_all (λ n. nat_lt n first) (document.root ∷ labels document.nodes))
        → (change : MoveChange) → move_change path other document (record { root = document.root; nodes = new.nodes }) ≡ Some change
        → (sheet : Sheet) (parameters : Parameters) (called : Place → NodeRef) (question : Question NodeRef)
        → move_touched change question ≡ false
        → truth_by ref_of same_ref called sheet parameters (entries_of document) question
        ≡ truth_by ref_of same_ref called sheet parameters (entries_of (record { root = document.root; nodes = new.nodes })) question }
{}

/// With a move too the choice of a rule for a node that stays is the same before and after, where the patterns of all rules of
/// the mode have no predicates and no key().
pub fn moves_keep_plain_choices()
    ensures { (first : ℕ) (path other : List ℕ) (document : Document ℕ) (new : Edited ℕ) → moved_nodes first path other document ≡ Ok new
        → IsNormal document.nodes → IsDistinct nat_eq (document.root ∷ labels document.nodes)
        → IsTrue (list_all (λ n. nat_lt n first) (document.root ∷ labels document.nodes))
        → (change : MoveChange) → move_change path other document (record { root = document.root; nodes = new.nodes }) ≡ Some change
        → (sheet : Sheet) (parameters : Parameters) (called : Place → NodeRef) (question : Question NodeRef)
        → (asking : List (Option Expanded)) → AreAsking asking sheet.rules.rules → spared_by_move asking change question ≡ true
        → truth_by ref_of same_ref called sheet parameters (entries_of document) question
        ≡ truth_by ref_of same_ref called sheet parameters (entries_of (record { root = document.root; nodes = new.nodes })) question }
{}

/// So it does as it is seen, whatever rules strip white space.
pub fn moves_to_another_parent_lead_as_they_are_seen()
    ensures { (rules : List SpaceRule) (first : ℕ) (path other : List ℕ) (document : Document ℕ) (new : Edited ℕ)
        → moved_nodes first path other document ≡ Ok new
        → IsNormal document.nodes → IsDistinct nat_eq (document.root ∷ labels document.nodes)
        → IsTrue (list_all (λ n. nat_lt n first) (document.root ∷ labels document.nodes))
        → (from to : Spot) → spot_of path ≡ Some from → spot_of other ≡ Some to → is_path from.above to.above ≡ false
        → (left entered : Change)
        × (move_change path other document (record { root = document.root; nodes = new.nodes }) ≡ Some (between left entered))
        × Leads (seen_change left (seen rules document) (seen rules (document_without from document)))
        (seen rules document) (seen rules (document_without from document))
        × Leads (seen_change entered (seen rules (document_without from document)) (seen rules (record { root = document.root; nodes = new.nodes })))
        (seen rules (document_without from document)) (seen rules (record { root = document.root; nodes = new.nodes })) }
{}

/// So with a move to another parent a question that neither change marks as it is seen has the same true answer before and
/// after.
pub fn moves_to_another_parent_keep_the_answers_of_unmarked_questions()
    ensures { (sheet : Sheet) (first : ℕ) (path other : List ℕ) (document : Document ℕ) (new : Edited ℕ)
        → moved_nodes first path other document ≡ Ok new
        → IsNormal document.nodes → IsDistinct nat_eq (document.root ∷ labels document.nodes)
        → IsTrue (list_all (λ n. nat_lt n first) (document.root ∷ labels document.nodes))
        → (from to : Spot) → spot_of path ≡ Some from → spot_of other ≡ Some to → is_path from.above to.above ≡ false
        → (left entered : Change)
        → move_change path other document (record { root = document.root; nodes = new.nodes }) ≡ Some (between left entered)
        → (parameters : Parameters) (called : Place → NodeRef) (question : Question NodeRef)
        → is_touched (seen_change left (seen sheet.space_rules.rules document)
        (seen sheet.space_rules.rules (document_without from document))) question ≡ false
        → is_touched (seen_change entered (seen sheet.space_rules.rules (document_without from document))
        (seen sheet.space_rules.rules (record { root = document.root; nodes = new.nodes }))) question ≡ false
        → truth_by ref_of same_ref called sheet parameters (entries_of (seen sheet.space_rules.rules document)) question
        ≡ truth_by ref_of same_ref called sheet parameters
        (entries_of (seen sheet.space_rules.rules (record { root = document.root; nodes = new.nodes }))) question }
{}
