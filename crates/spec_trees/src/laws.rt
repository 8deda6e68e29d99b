// Laws of trees of records.
ghost use Rattle.std.specs.Prelude.{◌≡◌, ◌≤◌, ◌+◌, ℕ, zero, suc, Bool, List, [], ◌∷◌, ◌++◌};
ghost use Rattle.spec_meaning.specs.Question.{Question, Answer};
ghost use Rattle.spec_run.specs.Plan.{Call};
ghost use Rattle.spec_run.specs.Going.{Event, Asked, Entered};
ghost use Rattle.spec_run.specs.Hold.{GoesOn};
ghost use Rattle.spec_run.specs.Trail.{Kept, IsTrue};
ghost use Rattle.spec_run.specs.Meaning.{Setting};
ghost use Rattle.spec_reuse.specs.Among.{IsIn};
ghost use Rattle.spec_reuse.specs.Instantiation.{Instantiation, meaning_of, entered, instantiations};
ghost use Rattle.spec_reuse.specs.Serving.{IsOf};
ghost use Rattle.spec_reuse.specs.Ledger.{AllFound};
ghost use Rattle.spec_reuse.specs.Record.{Runs, none, ran, records_in, outcome_of};
ghost use Rattle.spec_trees.specs.Tree.{SaysAlong, SaysAll, Says, AreAtHand};

/// A tree grows from the end of what was done: behind a question, and behind a call whose tree says all by itself, with the
/// levels for it. Where all that was done is gone over so, the tree says all by itself.
pub fn trees_grow()
    ensures end { (same : ℕ → ℕ → Bool) (levels : ℕ) → SaysAlong same [] none levels }
    ensures asked { (same : ℕ → ℕ → Bool) (question : Question ℕ) (answer : Answer ℕ) (es : List (Event ℕ)) (runs : Runs ℕ) (levels : ℕ) →
        SaysAlong same es runs levels → SaysAlong same (Asked question answer ∷ es) runs levels }
    ensures entered { (same : ℕ → ℕ → Bool) (call : Call ℕ) (depth : ℕ) (es : List (Event ℕ)) (kept : Kept ℕ) (below rest : Runs ℕ)
        (least levels : ℕ) → SaysAll same kept below least → IsOf call kept → suc (depth + least) ≤ levels →
        SaysAlong same es rest levels → SaysAlong same (Entered call depth ∷ es) (ran kept below rest) levels }
    ensures levels { (same : ℕ → ℕ → Bool) (es : List (Event ℕ)) (runs : Runs ℕ) (levels more : ℕ) → levels ≤ more →
        SaysAlong same es runs levels → SaysAlong same es runs more }
    ensures whole { (same : ℕ → ℕ → Bool) (kept : Kept ℕ) (runs : Runs ℕ) (levels : ℕ) → IsTrue same kept → kept.height ≤ levels →
        SaysAlong same kept.trace runs levels → SaysAll same kept runs levels }
{}

/// A tree that says all comes to what its call means.
pub fn a_tree_that_says_all_says_what_is_meant()
    ensures { (s : Setting ℕ) (i : Instantiation ℕ) (kept : Kept ℕ) (runs : Runs ℕ) → Says s i kept runs →
        meaning_of s i ≡ outcome_of kept runs }
{}

/// Of all that such a call enters in a run, with itself, a record is found among those at hand, where the tree is.
pub fn a_tree_that_says_all_is_what_is_entered()
    ensures { (s : Setting ℕ) (i : Instantiation ℕ) (kept : Kept ℕ) (runs : Runs ℕ) (hand : List (Kept ℕ)) → Says s i kept runs →
        ((j : Instantiation ℕ) → IsIn j (entered s (suc i.below) i.past zero i.call) → IsIn j (instantiations s)) →
        AreAtHand s hand (records_in (ran kept runs none)) → AllFound s hand (entered s (suc i.below) i.past zero i.call) }
{}
