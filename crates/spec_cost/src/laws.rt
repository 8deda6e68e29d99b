// Laws of what a change costs.
ghost use Rattle.std.specs.Prelude.{◌≡◌, ◌<◌, ◌≤◌, ℕ, true, false, List, [], ◌∷◌, None, length, min};
ghost use Rattle.spec_node.specs.declared.node_ref.NodeRef.{NodeRef};
ghost use Rattle.spec_run.specs.Going.{Asked};
ghost use Rattle.spec_run.specs.Trail.{Kept};
ghost use Rattle.spec_run.specs.Meaning.{Setting, run_of};
ghost use Rattle.spec_run.specs.Hold.{GoesOn};
ghost use Rattle.spec_reuse.specs.Among.{IsIn};
ghost use Rattle.spec_reuse.specs.Instantiation.{Instantiation, instantiations, kept_of, own_of};
ghost use Rattle.spec_reuse.specs.Ledger.{AllEnd, HasLike, IsFound};
ghost use Rattle.spec_meaning.specs.Question.{Question, Answer};
ghost use Rattle.spec_cost.specs.Marking.{Mark, are_marked, by_own_reads};
ghost use Rattle.spec_cost.specs.Fresh.{AreNewIn, NoneAlike};
ghost use Rattle.spec_cost.specs.Paying.{IsCost, KeepsRun, most_told};

/// No more instantiations are counted than the new run has.
pub fn no_more_is_run_than_there_is()
    ensures { (s : Setting NodeRef) (before after : List (Kept NodeRef)) (marks left : List Mark) (ran asked : ℕ) → IsCost s before marks ran asked after left → ran ≤ length (instantiations s) }
{}

/// Records that keep a run stand for what is kept of each of its instantiations that came to their ends: where that would be
/// taken for an instantiation of another run, one of them would be.
pub fn what_keeps_a_run_is_enough()
    ensures { (s t : Setting NodeRef) (records : List (Kept NodeRef)) (i j : Instantiation NodeRef) → s.same ≡ t.same → KeepsRun s records
        → IsIn i (instantiations s) → GoesOn (own_of s i).ending → IsFound t (kept_of s i ∷ []) j → IsFound t records j }
{}

/// Where all that a run enters comes to its end and is kept, nothing of it is run again.
pub fn what_is_kept_is_not_run_again()
    ensures { (s : Setting NodeRef) (before after : List (Kept NodeRef)) (marks left : List Mark) (ran asked : ℕ) → KeepsRun s before
        → AllEnd s (instantiations s) → IsCost s before marks ran asked after left → ran ≡ 0 }
{}

/// Of each unit and node of which the new run has an instantiation and the one that was kept has none, one is counted.
pub fn what_is_new_is_run()
    ensures { (s t : Setting NodeRef) (before after : List (Kept NodeRef)) (marks left : List Mark) (ran asked : ℕ) (i : Instantiation NodeRef)
        → KeepsRun s before → (cost : IsCost t before marks ran asked after left) → IsIn i (instantiations t) → ¬ (HasLike (instantiations s) i.call) → HasLike cost.list i.call }
{}

/// So as many are told as there are such units and nodes, or the most that can be told.
pub fn as_many_are_run_as_are_new()
    ensures { (s t : Setting NodeRef) (before after : List (Kept NodeRef)) (marks left : List Mark) (ran asked : ℕ) (new : List (Instantiation NodeRef))
        → KeepsRun s before → IsCost t before marks ran asked after left → NoneAlike new → AreNewIn s t new → min (length new) most_told ≤ ran }
{}

/// Where a run ends with a result and nothing is run, a question is asked again if one is marked that is asked of the source, of a
/// parameter, or for a unit.
pub fn what_is_marked_is_asked()
    ensures { (s : Setting NodeRef) (before after : List (Kept NodeRef)) (marks left : List Mark) (ran asked : ℕ) (kept : Kept NodeRef)
        (question : Question NodeRef) (answer : Answer NodeRef) → IsCost s before marks ran asked after left → (run_of s).refusal ≡ None → ran ≡ 0 → IsIn kept before
        → IsIn (Asked question answer) kept.trace → by_own_reads question ≡ false → are_marked marks question ≡ true → 0 < asked }
{}
