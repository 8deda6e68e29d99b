// Laws of what is kept of a run.
ghost use Rattle.std.specs.Prelude.{◌≡◌, ◌≤◌, ℕ, zero, suc, Bool, true, false, List, [], ◌∷◌, ◌++◌};
ghost use Rattle.spec_stylesheet.specs.Place.{Place};
ghost use Rattle.spec_meaning.specs.Program.{Wanted};
ghost use Rattle.spec_meaning.specs.Related.{Each};
ghost use Rattle.spec_run.specs.Plan.{Refused, Target, Call};
ghost use Rattle.spec_run.specs.Direct.{Failed};
ghost use Rattle.spec_run.specs.Going.{Event, Saw};
ghost use Rattle.spec_run.specs.Hold.{GoesOn, Hold, came};
ghost use Rattle.spec_run.specs.Trail.{Kept, IsTrue};
ghost use Rattle.spec_run.specs.Meaning.{Setting};
ghost use Rattle.spec_reuse.specs.Among.{IsIn};
ghost use Rattle.spec_reuse.specs.Instantiation.{Instantiation, given_to, meant_below, own_of, meaning_of, kept_of, entered, instantiations};
ghost use Rattle.spec_reuse.specs.Serving.{IsOf, taken_for, Fits, ReadsHold, Serves, comes_to};
ghost use Rattle.spec_reuse.specs.Cost.{Repeats, AreEntered};
ghost use Rattle.spec_reuse.specs.Ledger.{nested_along, nested_in, AllEnd, GoesTo};
ghost use Rattle.spec_reuse.specs.Alike.{SettingsAlike, EnterAlike, NamesOnly, IsOneOfTarget};
ghost use Rattle.spec_reuse.specs.Record.{Runs, none, ran, records_in, outcome_of, IsRunOf, IsRecordOf, StayAlong};

/// What is kept of a call is also kept of each other one of its unit, its node and its declared parameters: what else
/// differs in a call is read before anything depends on it, or changes nothing.
pub fn a_record_is_of_each_call_like_its_own()
    ensures { (same : ℕ → ℕ → Bool) (call : Call ℕ) (kept : Kept ℕ) → IsTrue same kept → IsOf call kept →
        IsTrue same (taken_for call kept) }
{}

/// A record that serves says what is meant: its stream with the streams of what is entered now in place of its holes; or,
/// where one of these is refused, what stood before the hole of the first such, and that refusal.
pub fn a_record_that_serves_says_what_is_meant()
    ensures { (s : Setting ℕ) (i : Instantiation ℕ) (kept : Kept ℕ) → Serves s i kept → meaning_of s i ≡ comes_to s i kept }
{}

/// So where the instantiation comes to its end, what would be kept of it is that record.
pub fn a_record_that_serves_is_what_is_kept()
    ensures { (s : Setting ℕ) (i : Instantiation ℕ) (kept : Kept ℕ) → Serves s i kept → GoesOn (own_of s i).ending →
        IsRecordOf s i kept }
{}

/// Where a record fits and a front of what was done holds, each nested call in it going on, the same is done so far: the
/// record is gone along from the front on, and all of it is done where all holds. All that is entered along the front
/// comes to its end. So the record does not serve if what was read behind the front does not hold.
pub fn a_front_that_holds_is_done()
    ensures front { (s : Setting ℕ) (i : Instantiation ℕ) (kept : Kept ℕ) (front rest : List (Event ℕ)) → Fits s i kept →
        kept.trace ≡ front ++ rest → Hold s.ask (given_to s i) (meant_below s i) [] front →
        (more : List (Event ℕ)) × ((own_of s i).going.trace ≡ front ++ more) }
    ensures next { (s : Setting ℕ) (i : Instantiation ℕ) (kept : Kept ℕ) (front : List (Event ℕ)) (event : Event ℕ)
        (rest : List (Event ℕ)) → Fits s i kept → kept.trace ≡ front ++ event ∷ rest →
        Hold s.ask (given_to s i) (meant_below s i) [] front → GoesTo s i front event }
    ensures whole { (s : Setting ℕ) (i : Instantiation ℕ) (kept : Kept ℕ) → Fits s i kept →
        Hold s.ask (given_to s i) (meant_below s i) [] kept.trace → (own_of s i).going.trace ≡ kept.trace }
    ensures ended { (s : Setting ℕ) (i : Instantiation ℕ) (kept : Kept ℕ) (front rest : List (Event ℕ)) → Fits s i kept →
        kept.trace ≡ front ++ rest → Hold s.ask (given_to s i) (meant_below s i) [] front → AllEnd s (nested_along s i front) }
    ensures reads { (s : Setting ℕ) (i : Instantiation ℕ) (kept : Kept ℕ) (front rest : List (Event ℕ)) → Serves s i kept →
        kept.trace ≡ front ++ rest → Hold s.ask (given_to s i) (meant_below s i) [] front →
        ReadsHold s.ask (given_to s i) (meant_below s i) (came (meant_below s i) front) rest }
{}

/// No record serves a call that saw a refusal: what is seen in a record is given.
pub fn what_saw_a_refusal_is_not_served()
    ensures { (s : Setting ℕ) (i : Instantiation ℕ) (kept : Kept ℕ) (front more : List (Event ℕ)) (wanted : Wanted) (depth : ℕ)
        (place : Place) (why : Refused) → (own_of s i).going.trace ≡ front ++ Saw wanted depth place (Failed why) ∷ more →
        ¬ (Serves s i kept) }
{}

/// A record with those below it, where all of it holds, comes to what its instantiation means.
pub fn kept_runs_come_to_what_is_meant()
    ensures { (s : Setting ℕ) (i : Instantiation ℕ) (kept : Kept ℕ) (below : Runs ℕ) → IsRunOf s i kept below →
        meaning_of s i ≡ outcome_of kept below }
{}

/// What is the run of an instantiation is that of each other one of its unit, its node and its declared parameters, in
/// another world and at another place of a run too, where its questions have their answers, each global that it saw has
/// its turn behind it with that value, and there are the levels for it.
pub fn kept_runs_stay()
    ensures { (s t : Setting ℕ) (i j : Instantiation ℕ) (kept : Kept ℕ) (below : Runs ℕ) → s.same ≡ t.same →
        IsRunOf s i kept below → IsOf j.call kept → kept.height ≤ j.below → StayAlong t j kept.trace below →
        IsRunOf t j kept below }
{}

/// Where each global that it saw has its turn behind it, what is kept of the run of an instantiation is kept of what the
/// instantiation enters, one by one and in the same order, with itself at the end.
pub fn kept_runs_are_what_is_entered()
    ensures { (s : Setting ℕ) (i : Instantiation ℕ) (kept : Kept ℕ) (below : Runs ℕ) → IsRunOf s i kept below →
        StayAlong s i kept.trace below →
        Each (IsRecordOf s) (entered s (suc i.below) i.past zero i.call) (records_in (ran kept below none)) }
{}

/// Wherever a call comes to its end in a run, it comes to the same end, and what is kept of it is the same: with any
/// levels left, any globals under way, and any globals past.
pub fn a_call_comes_to_one_end()
    ensures meant { (s : Setting ℕ) (i j : Instantiation ℕ) → IsIn i (instantiations s) → IsIn j (instantiations s) →
        Repeats s i j → meaning_of s j ≡ meaning_of s i }
    ensures kept { (s : Setting ℕ) (i j : Instantiation ℕ) → IsIn i (instantiations s) → IsIn j (instantiations s) →
        Repeats s i j → IsRecordOf s j (kept_of s i) }
{}

/// What came to its end in a run serves wherever else in it the same call comes to its end.
pub fn what_came_to_its_end_serves_again()
    ensures { (s : Setting ℕ) (i j : Instantiation ℕ) → IsIn i (instantiations s) → IsIn j (instantiations s) →
        Repeats s i j → Serves s j (kept_of s i) }
{}

/// What serves a call that comes to its end serves it wherever else in a run it comes to its end.
pub fn a_record_serves_again()
    ensures { (s : Setting ℕ) (i j : Instantiation ℕ) (kept : Kept ℕ) → IsIn i (instantiations s) →
        IsIn j (instantiations s) → Repeats s i j → Serves s i kept → Serves s j kept }
{}

/// No call repeats within itself: what it enters again would enter it again too, and so on without an end.
pub fn a_call_does_not_repeat_within_itself()
    ensures { (s : Setting ℕ) (i j : Instantiation ℕ) → IsIn i (nested_in s j) → ¬ (Repeats s i j) }
{}

/// What a run enters does not depend on the names of nodes: where two worlds answer related questions alike, the runs in
/// them enter related calls, one by one and in the same order.
pub fn names_do_not_matter_to_what_is_entered()
    ensures { (is_named : ℕ → ℕ → Bool) (s t : Setting ℕ) →
        let Named : ℕ → ℕ → Type 0 = λ n m. is_named n m ≡ true in
        SettingsAlike Named s t → Each (EnterAlike Named) (instantiations s) (instantiations t) }
{}

/// So a run enters units and nodes alone that its world names.
pub fn only_nodes_of_the_world_are_entered()
    ensures { (is_there : ℕ → Bool) (s : Setting ℕ) (i : Instantiation ℕ) →
        let IsThere : ℕ → Type 0 = λ n. is_there n ≡ true in
        NamesOnly IsThere s → IsIn i (instantiations s) → IsOneOfTarget IsThere i.call.target × IsThere i.call.node }
{}

/// Where no record is of a unit and node that the change makes, what may be told to have been entered does not contradict
/// itself: that a record serves is not decided here, so no list is given, but it cannot be that there is none.
pub fn no_want_of_what_was_entered()
    ensures { (s : Setting ℕ) (records : List (Kept ℕ)) (is_made : Target ℕ → ℕ → Bool) →
        ((k : Kept ℕ) → IsIn k records → is_made k.call.target k.call.node ≡ false) →
        ¬ (¬ ((list : List (Instantiation ℕ)) × AreEntered s records (λ target node. is_made target node ≡ true) list)) }
{}
