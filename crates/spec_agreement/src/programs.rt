// Laws of programs that ask, at the nodes of the code and for each type of result.
ghost use Rattle.std.specs.Prelude.{◌≡◌, ℕ};
ghost use Rattle.spec_meaning.specs.Program.{Program, Supply, State, IsEnded, Hold, run, outcome_of, reads_of, with_reads};
ghost use Rattle.spec_meaning.specs.Question.{Question, Answer};
ghost use Rattle.spec_node.specs.declared.node_ref.NodeRef.{NodeRef};
ghost use Rattle.spec_agreement.specs.Results.{ResultType, ResultOf};

/// Reads suffice: where the reads of a program that ended hold, it ends alike and reads the same.
pub fn agreement()
    ensures { (type : ResultType) (p : Program NodeRef (ResultOf type)) →
        (ask other : Question NodeRef → Answer NodeRef) (supply others : Supply NodeRef) (depth : ℕ) →
        Hold other others (reads_of ask supply depth p) → IsEnded (outcome_of ask supply p) →
        (outcome_of other others p ≡ outcome_of ask supply p) × (reads_of other others depth p ≡ reads_of ask supply depth p) }
{}

/// A run tells: it ends as the true answers have it, leaves them alone, and adds what it read to the reads, where
/// they are kept.
pub fn told()
    ensures { (type : ResultType) (p : Program NodeRef (ResultOf type)) (supply : Supply NodeRef) (depth : ℕ) (s : State NodeRef) →
        ((run supply depth p s).said ≡ outcome_of s.truth supply p)
        × ((run supply depth p s).state.truth ≡ s.truth)
        × ((run supply depth p s).state.reads ≡ with_reads (reads_of s.truth supply depth p) s.reads) }
{}
