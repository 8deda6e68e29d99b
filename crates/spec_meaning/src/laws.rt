// Laws of steps and of programs that ask, which hold of the definitions alone.
ghost use Rattle.std.specs.Prelude.{◌≡◌, ℕ, List, map};
ghost use Rattle.spec_document.specs.declared.axis.Axis.{Axis};
ghost use Rattle.spec_document.specs.Axis.{in_axis_order};
ghost use Rattle.spec_document.specs.Forest.{Document};
ghost use Rattle.spec_document.specs.Order.{entries_of, way_to, is_same_place, AreInOrder};
ghost use Rattle.spec_document.specs.Place.{Place};
ghost use Rattle.spec_expression.specs.Syntax.{Test};
ghost use Rattle.spec_meaning.specs.Program.{Program, Supply, State, IsEnded, Hold, run, outcome_of, reads_of, with_reads};
ghost use Rattle.spec_meaning.specs.Question.{Question, Answer};
ghost use Rattle.spec_meaning.specs.Step.{stepped};
ghost use Rattle.spec_meaning.specs.Value.{Value};

/// A step gives each node once: its answer is nodes in document order, read in the order of its axis
/// (XPath 1.0, section 2.2).
pub fn steps_give_each_node_once()
    ensures { (document : Document ℕ) (axis : Axis) (test : Test) (node : Place) →
        (nodes : List Place) × (stepped (λ entry. entry.place) is_same_place (entries_of document) axis test node ≡ in_axis_order axis nodes) × AreInOrder (map way_to nodes) }
{}

/// Reads suffice: where the reads of a program that ended hold, it ends alike and reads the same.
pub fn agreement()
    ensures { (p : Program ℕ (Value ℕ)) (ask other : Question ℕ → Answer ℕ) (supply others : Supply ℕ) (depth : ℕ) →
        Hold other others (reads_of ask supply depth p) → IsEnded (outcome_of ask supply p) →
        (outcome_of other others p ≡ outcome_of ask supply p) × (reads_of other others depth p ≡ reads_of ask supply depth p) }
{}

/// A run tells: it ends as the true answers have it, leaves them alone, and adds what it read to the reads, where
/// they are kept.
pub fn told()
    ensures { (p : Program ℕ (Value ℕ)) (supply : Supply ℕ) (depth : ℕ) (s : State ℕ) →
        ((run supply depth p s).said ≡ outcome_of s.truth supply p)
        × ((run supply depth p s).state.truth ≡ s.truth)
        × ((run supply depth p s).state.reads ≡ with_reads (reads_of s.truth supply depth p) s.reads) }
{}
