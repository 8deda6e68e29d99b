// Laws of what a run enters by itself, where records serve the rest.
ghost use Rattle.std.specs.Prelude.{◌≡◌, ◌⊎◌, ◌≤◌, ◌<◌, ◌-◌, ℕ, suc, Bool, true, false, List, [], ◌∷◌, ◌++◌, Option, None, Some};
ghost use Rattle.std.specs.List.{list_any};
ghost use Rattle.spec_document.specs.Name.{Expanded, same_name};
ghost use Rattle.spec_stylesheet.specs.Place.{Place};
ghost use Rattle.spec_meaning.specs.Value.{Value};
ghost use Rattle.spec_meaning.specs.Question.{Question, Answer};
ghost use Rattle.spec_meaning.specs.Program.{Wanted, Global, Given};
ghost use Rattle.spec_meaning.specs.Context.{Bound, binding_of};
ghost use Rattle.spec_run.specs.Plan.{Refused, Target, Call, Plan, Use};
ghost use Rattle.spec_run.specs.Direct.{Supplied, Known, Failed, Outcome};
ghost use Rattle.spec_run.specs.Going.{Event, Saw, Entered, Going, noted, own};
ghost use Rattle.spec_run.specs.Passes.{Passes};
ghost use Rattle.spec_run.specs.Hold.{GoesOn, Hold, came};
ghost use Rattle.spec_run.specs.Trail.{Kept};
ghost use Rattle.spec_run.specs.Meaning.{Setting, Past, going_into, global_call, element_named, settled};
ghost use Rattle.spec_reuse.specs.Among.{IsIn, AreSomeOf};
ghost use Rattle.spec_reuse.specs.Instantiation.{Instantiation, given_to, meant_below, own_of, for_reference, entered, instantiations};
ghost use Rattle.spec_reuse.specs.Serving.{Fits, Serves};
ghost use Rattle.spec_reuse.specs.Cost.{Repeats, AreEntered};
ghost use Rattle.spec_reuse.specs.Ledger.{nested_along, nested_in, nested_but, unless_known, AllEnd, AreOfRun, IsMoreAtHand, IsStuck, AsksHold, IsFound, AllFound, Enters};
ghost use Rattle.spec_reuse.specs.Ledger.{EntersFront, IsRead, EntersNone, IsAlong, IsRun, AreCounted};

/// A call is entered behind what it enters, where there is a level for it.
pub fn a_call_is_entered_where_there_is_a_level()
    ensures there { (s : Setting ℕ) (levels : ℕ) (past : Past ℕ) (depth : ℕ) (call : Call ℕ) → depth < levels →
        entered s levels past depth call ≡ nested_in s (record { call = call; below = levels - suc depth; past = past })
        ++ record { call = call; below = levels - suc depth; past = past } ∷ [] }
    ensures nowhere { (s : Setting ℕ) (levels : ℕ) (past : Past ℕ) (depth : ℕ) (call : Call ℕ) → levels ≤ depth →
        entered s levels past depth call ≡ [] }
    ensures left { (s : Setting ℕ) (levels : ℕ) (past : Past ℕ) (depth : ℕ) (call : Call ℕ) →
        entered s levels past depth call ≡ entered s (levels - depth) past 0 call }
{}

/// For a reference to a global its evaluation is entered, where its turn is to come, it is not under way, and there is such
/// a global.
pub fn an_evaluation_is_entered_for_a_reference()
    ensures past { (s : Setting ℕ) (levels : ℕ) (past : Past ℕ) (name : Expanded) (depth : ℕ) (place : Place) (value : Value ℕ) →
        binding_of name past.values ≡ Some value → for_reference s (entered s levels) past name depth place ≡ [] }
    ensures under_way { (s : Setting ℕ) (levels : ℕ) (past : Past ℕ) (name : Expanded) (depth : ℕ) (place : Place) →
        list_any (same_name name) past.under ≡ true → for_reference s (entered s levels) past name depth place ≡ [] }
    ensures not_there { (s : Setting ℕ) (levels : ℕ) (past : Past ℕ) (name : Expanded) (depth : ℕ) (place : Place) →
        element_named name s.globals ≡ None → for_reference s (entered s levels) past name depth place ≡ [] }
    ensures evaluated { (s : Setting ℕ) (levels : ℕ) (past : Past ℕ) (name : Expanded) (depth : ℕ) (place : Place) (element : ℕ) →
        binding_of name past.values ≡ None → list_any (same_name name) past.under ≡ false →
        element_named name s.globals ≡ Some element → for_reference s (entered s levels) past name depth place
        ≡ entered s levels (going_into name past) depth (global_call s.root element place) }
    ensures left { (s : Setting ℕ) (levels : ℕ) (past : Past ℕ) (name : Expanded) (depth : ℕ) (place : Place) →
        for_reference s (entered s levels) past name depth place ≡ for_reference s (entered s (levels - depth)) past name 0 place }
{}

/// What is entered along events is entered along the first of them and then along the others: for each reference to a
/// global, and for each call. Of it some is left where it is known what references give, and all where it is known of none.
pub fn events_enter_one_after_another()
    ensures both { (s : Setting ℕ) (i : Instantiation ℕ) (es others : List (Event ℕ)) →
        nested_along s i (es ++ others) ≡ nested_along s i es ++ nested_along s i others }
    ensures referred { (s : Setting ℕ) (i : Instantiation ℕ) (es : List (Event ℕ)) (name : Expanded) (depth : ℕ) (place : Place)
        (supplied : Supplied ℕ) → nested_along s i (es ++ Saw (Global name) depth place supplied ∷ [])
        ≡ nested_along s i es ++ for_reference s (entered s i.below) i.past name depth place }
    ensures entered { (s : Setting ℕ) (i : Instantiation ℕ) (es : List (Event ℕ)) (call : Call ℕ) (depth : ℕ) →
        nested_along s i (es ++ Entered call depth ∷ [])
        ≡ nested_along s i es ++ entered s i.below i.past depth (settled i.call call) }
    ensures both_but { (s : Setting ℕ) (i : Instantiation ℕ) (is_known : Expanded → ℕ → Place → Bool) (es others : List (Event ℕ)) →
        nested_but s i is_known (es ++ others) ≡ nested_but s i is_known es ++ nested_but s i is_known others }
    ensures referred_but { (s : Setting ℕ) (i : Instantiation ℕ) (is_known : Expanded → ℕ → Place → Bool) (es : List (Event ℕ))
        (name : Expanded) (depth : ℕ) (place : Place) (supplied : Supplied ℕ) →
        nested_but s i is_known (es ++ Saw (Global name) depth place supplied ∷ [])
        ≡ nested_but s i is_known es ++ unless_known is_known (for_reference s (entered s i.below) i.past) name depth place }
    ensures entered_but { (s : Setting ℕ) (i : Instantiation ℕ) (is_known : Expanded → ℕ → Place → Bool) (es : List (Event ℕ))
        (call : Call ℕ) (depth : ℕ) → nested_but s i is_known (es ++ Entered call depth ∷ [])
        ≡ nested_but s i is_known es ++ entered s i.below i.past depth (settled i.call call) }
    ensures some { (s : Setting ℕ) (i : Instantiation ℕ) (is_known : Expanded → ℕ → Place → Bool) (es : List (Event ℕ)) →
        AreSomeOf (nested_but s i is_known es) (nested_along s i es) }
    ensures none { (s : Setting ℕ) (i : Instantiation ℕ) (es : List (Event ℕ)) →
        nested_but s i (λ name depth place. false) es ≡ nested_along s i es }
{}

/// All that something of a run enters is of the run, and so is what it enters along a front of what it does.
pub fn what_is_entered_is_of_the_run()
    ensures all { (s : Setting ℕ) (i : Instantiation ℕ) → IsIn i (instantiations s) → AreOfRun s (nested_in s i) }
    ensures along { (s : Setting ℕ) (i : Instantiation ℕ) (front more : List (Event ℕ)) → IsIn i (instantiations s) →
        (own_of s i).going.trace ≡ front ++ more → AreOfRun s (nested_along s i front) }
{}

/// All that is entered for a nested call that comes to its end comes to its end, and so does all that is entered for a
/// reference that gives something.
pub fn what_comes_to_its_end_enters_what_does()
    ensures call { (s : Setting ℕ) (i : Instantiation ℕ) (call : Call ℕ) (depth : ℕ) → GoesOn (meant_below s i depth call).ending →
        AllEnd s (entered s i.below i.past depth (settled i.call call)) }
    ensures reference { (s : Setting ℕ) (i : Instantiation ℕ) (name : Expanded) (depth : ℕ) (place : Place) (value : Given ℕ) →
        given_to s i (Global name) depth place ≡ Known value →
        AllEnd s (for_reference s (entered s i.below) i.past name depth place) }
{}

/// Where a call comes to its end again, at no earlier turn, what it enters then repeats what it entered before.
pub fn what_is_entered_again_repeats()
    ensures { (s : Setting ℕ) (i j : Instantiation ℕ) (more : List (Bound ℕ)) → IsIn i (instantiations s) →
        IsIn j (instantiations s) → j.past.values ≡ i.past.values ++ more → Repeats s i j → (b : Instantiation ℕ) →
        IsIn b (nested_in s j) → (a : Instantiation ℕ) × IsIn a (nested_in s i) × Repeats s a b }
{}

/// A record that serves a call which comes to its end is found, since all of its questions have their answers; and it is
/// wherever else in a run the call comes to its end. So where records are found of a call and all that it entered, they
/// are found of it again, at no earlier turn, and of all that it enters then; and so for a reference that gives something
/// at another element too, with other levels left.
pub fn what_was_found_is_found_again()
    ensures asks { (s : Setting ℕ) (i : Instantiation ℕ) (kept : Kept ℕ) → Serves s i kept → GoesOn (own_of s i).ending →
        AsksHold s.ask kept.trace }
    ensures again { (s : Setting ℕ) (records : List (Kept ℕ)) (i j : Instantiation ℕ) → IsIn i (instantiations s) →
        IsIn j (instantiations s) → Repeats s i j → IsFound s records i → IsFound s records j }
    ensures all { (s : Setting ℕ) (records : List (Kept ℕ)) (i j : Instantiation ℕ) (more : List (Bound ℕ)) →
        IsIn i (instantiations s) → IsIn j (instantiations s) → j.past.values ≡ i.past.values ++ more → Repeats s i j →
        AllFound s records (nested_in s i ++ i ∷ []) → AllFound s records (nested_in s j ++ j ∷ []) }
    ensures reference { (s : Setting ℕ) (records : List (Kept ℕ)) (i : Instantiation ℕ) (name : Expanded) (depth other : ℕ)
        (place there : Place) (value again : Given ℕ) → given_to s i (Global name) depth place ≡ Known value →
        given_to s i (Global name) other there ≡ Known again →
        AllFound s records (for_reference s (entered s i.below) i.past name depth place) →
        AllFound s records (for_reference s (entered s i.below) i.past name other there) }
{}

/// What is counted of one part of a run and then of the next is counted of both.
pub fn parts_are_counted_one_after_another()
    ensures { (s : Setting ℕ) (before mid after : List (Kept ℕ)) (one two is js : List (Instantiation ℕ)) → AreOfRun s (is ++ js) →
        Enters s before one is mid → Enters s mid two js after → Enters s before (one ++ two) (is ++ js) after }
{}

/// What is gone over along a front of what a call does is a front of what it enters. What is gone over again counts once,
/// where what is gone over a second time comes to its end: some of a part, or a front of it before what was not gone over
/// yet; a front and then all, or a front and then another, of which either may be the longer one.
pub fn a_part_counts_once()
    ensures along { (s : Setting ℕ) (before after : List (Kept ℕ)) (list : List (Instantiation ℕ)) (i : Instantiation ℕ)
        (front more : List (Event ℕ)) → (own_of s i).going.trace ≡ front ++ more → AllEnd s (nested_along s i front) →
        Enters s before list (nested_along s i front) after → EntersFront s before list (nested_in s i) after }
    ensures again { (s : Setting ℕ) (before mid after : List (Kept ℕ)) (one two front again rest : List (Instantiation ℕ)) →
        AreOfRun s (front ++ rest) → AreSomeOf again front → AllEnd s again → Enters s before one front mid →
        Enters s mid two (again ++ rest) after → Enters s before (one ++ two) (front ++ rest) after }
    ensures some { (s : Setting ℕ) (before mid after : List (Kept ℕ)) (one two is again : List (Instantiation ℕ)) → AreOfRun s is →
        AreSomeOf again is → AllEnd s again → Enters s before one is mid → Enters s mid two again after →
        Enters s before (one ++ two) is after }
    ensures all { (s : Setting ℕ) (before mid after : List (Kept ℕ)) (one two is : List (Instantiation ℕ)) → AreOfRun s is →
        EntersFront s before one is mid → Enters s mid two is after → Enters s before (one ++ two) is after }
    ensures front { (s : Setting ℕ) (before mid after : List (Kept ℕ)) (one two is : List (Instantiation ℕ)) → AreOfRun s is →
        EntersFront s before one is mid → EntersFront s mid two is after → EntersFront s before (one ++ two) is after }
{}

/// Where a global is refused that a record saw behind a front that holds, the call is refused with it, and all that it
/// enters but for that reference comes to its end.
pub fn a_refused_global_is_the_last_that_is_entered()
    ensures { (s : Setting ℕ) (i : Instantiation ℕ) (kept : Kept ℕ) (is_known : Expanded → ℕ → Place → Bool)
        (front rest : List (Event ℕ)) (name : Expanded) (depth : ℕ) (place : Place) (supplied : Supplied ℕ) (why : Refused) →
        Fits s i kept → kept.trace ≡ front ++ Saw (Global name) depth place supplied ∷ rest →
        Hold s.ask (given_to s i) (meant_below s i) [] front → given_to s i (Global name) depth place ≡ Failed why →
        is_known name depth place ≡ true → AllEnd s (nested_but s i is_known (own_of s i).going.trace) }
{}

/// Of that of which records are found nothing is counted, also where it stands among what was gone over.
pub fn what_is_found_is_not_counted()
    ensures among { (s : Setting ℕ) (before after : List (Kept ℕ)) (list is js : List (Instantiation ℕ)) → AreSomeOf is js →
        ((i : Instantiation ℕ) → IsIn i js → IsIn i is ⊎ IsFound s after i) → Enters s before list is after →
        Enters s before list js after }
    ensures all { (s : Setting ℕ) (records : List (Kept ℕ)) (is : List (Instantiation ℕ)) →
        AllFound s records is → Enters s records [] is records }
{}

/// Going on with what is at hand, a run enters nothing of which no record is found, where records are found of all that was
/// entered for that. It goes on so from wherever it came with less at hand, though it begins again before that, up to where
/// it is stuck; and from where it lacked something that is given now.
pub fn what_is_at_hand_enters_nothing_new()
    ensures goes { (s : Setting ℕ) (i : Instantiation ℕ) (records : List (Kept ℕ)) (hand : ℕ → Wanted → Option (Given ℕ)) (room : ℕ)
        (plan later : Plan ℕ) (going last : Going ℕ) → ((name : Expanded) (depth : ℕ) (place : Place) (given : Given ℕ) →
        hand depth (Global name) ≡ Some given → AllFound s records (for_reference s (entered s i.below) i.past name depth place)) →
        Passes s.ask hand room plan going later last →
        (es : List (Event ℕ)) × (last.trace ≡ going.trace ++ es) × AllFound s records (nested_along s i es) }
    ensures further { (s : Setting ℕ) (i : Instantiation ℕ) (records : List (Kept ℕ)) (hand more : ℕ → Wanted → Option (Given ℕ))
        (room : ℕ) (plan stood later : Plan ℕ) (going before last : Going ℕ) → IsMoreAtHand hand more →
        Passes s.ask hand room plan going stood before → Passes s.ask more room plan going later last → IsStuck more later →
        ((name : Expanded) (depth : ℕ) (place : Place) (given : Given ℕ) →
        more depth (Global name) ≡ Some given → AllFound s records (for_reference s (entered s i.below) i.past name depth place)) →
        (es : List (Event ℕ)) × (last.trace ≡ before.trace ++ es) × AllFound s records (nested_along s i es) }
    ensures given { (ask : Question ℕ → Answer ℕ) (hand more : ℕ → Wanted → Option (Given ℕ)) (room : ℕ) (plan : Plan ℕ)
        (going last : Going ℕ) (wanted : Wanted) (depth : ℕ) (place : Place) (next : Given ℕ → Plan ℕ) (given : Given ℕ) →
        IsMoreAtHand hand more → Passes ask hand room plan going (Use wanted depth place next) last → more depth wanted ≡ Some given →
        Passes ask more room plan going (next given) (noted (Saw wanted depth place (Known given)) last) }
{}

/// A call stands behind what it enters. It is not counted where a record of it is found; and it is counted where none was
/// found that was at hand before all that, and a record of it is kept that is found if it comes to its end. A record at
/// hand may be kept again.
pub fn a_call_is_counted_behind_what_it_enters()
    ensures served { (s : Setting ℕ) (before after : List (Kept ℕ)) (list : List (Instantiation ℕ)) (i : Instantiation ℕ)
        (kept : Kept ℕ) → Enters s before list (nested_in s i) after → IsIn kept after → Serves s i kept →
        AsksHold s.ask kept.trace → Enters s before list (nested_in s i ++ i ∷ []) after }
    ensures counted { (s : Setting ℕ) (before after more : List (Kept ℕ)) (list : List (Instantiation ℕ)) (i : Instantiation ℕ) →
        Enters s before list (nested_in s i) after → ¬ (IsFound s before i) →
        (GoesOn (own_of s i).ending → IsFound s more i) →
        ((kept : Kept ℕ) → IsIn kept more → (kept.call.target ≡ i.call.target) × (kept.call.node ≡ i.call.node)) →
        Enters s before (list ++ i ∷ []) (nested_in s i ++ i ∷ []) (after ++ more) }
    ensures kept { (s : Setting ℕ) (before after : List (Kept ℕ)) (list is : List (Instantiation ℕ)) (kept : Kept ℕ) →
        Enters s before list is after → IsIn kept after → Enters s before list is (after ++ kept ∷ []) }
{}

/// A record that fits is gone along from its first event on: over events that hold and enter nothing, over calls that go
/// on, and over references that give what was seen.
pub fn a_record_is_gone_along()
    ensures begins { (s : Setting ℕ) (i : Instantiation ℕ) (kept : Kept ℕ) (records : List (Kept ℕ)) → IsIn i (instantiations s) →
        Fits s i kept → IsAlong s i kept [] kept.trace records [] records }
    ensures event { (s : Setting ℕ) (i : Instantiation ℕ) (kept : Kept ℕ) (done rest : List (Event ℕ)) (event : Event ℕ)
        (before after : List (Kept ℕ)) (list : List (Instantiation ℕ)) → IsAlong s i kept done (event ∷ rest) before list after →
        EntersNone event → Hold s.ask (given_to s i) (meant_below s i) (came (meant_below s i) done) (event ∷ []) →
        IsAlong s i kept (done ++ event ∷ []) rest before list after }
    ensures call { (s : Setting ℕ) (i : Instantiation ℕ) (kept : Kept ℕ) (done rest : List (Event ℕ)) (call : Call ℕ) (depth : ℕ)
        (before mid after : List (Kept ℕ)) (one two : List (Instantiation ℕ)) →
        IsAlong s i kept done (Entered call depth ∷ rest) before one mid → GoesOn (meant_below s i depth call).ending →
        Enters s mid two (entered s i.below i.past depth (settled i.call call)) after →
        IsAlong s i kept (done ++ Entered call depth ∷ []) rest before (one ++ two) after }
    ensures reference { (s : Setting ℕ) (i : Instantiation ℕ) (kept : Kept ℕ) (done rest : List (Event ℕ)) (name : Expanded) (depth : ℕ)
        (place : Place) (supplied : Supplied ℕ) (before mid after : List (Kept ℕ)) (one two : List (Instantiation ℕ)) →
        IsAlong s i kept done (Saw (Global name) depth place supplied ∷ rest) before one mid →
        given_to s i (Global name) depth place ≡ supplied →
        Enters s mid two (for_reference s (entered s i.below) i.past name depth place) after →
        IsAlong s i kept (done ++ Saw (Global name) depth place supplied ∷ []) rest before (one ++ two) after }
{}

/// Where it was gone along to its end, or to a call that is refused, the record serves, and all was entered that the call
/// enters. Where an event does not hold or another value is given, it does not serve, and a front was entered. Where a
/// global is refused, all was entered, and no record serves.
pub fn a_record_is_gone_along_to_its_end()
    ensures whole { (s : Setting ℕ) (i : Instantiation ℕ) (kept : Kept ℕ) (done : List (Event ℕ)) (before after : List (Kept ℕ))
        (list : List (Instantiation ℕ)) → IsAlong s i kept done [] before list after →
        Enters s before list (nested_in s i) after × Serves s i kept }
    ensures refused { (s : Setting ℕ) (i : Instantiation ℕ) (kept : Kept ℕ) (done rest : List (Event ℕ)) (call : Call ℕ) (depth : ℕ)
        (before mid after : List (Kept ℕ)) (one two : List (Instantiation ℕ)) →
        IsAlong s i kept done (Entered call depth ∷ rest) before one mid → ¬ (GoesOn (meant_below s i depth call).ending) →
        Enters s mid two (entered s i.below i.past depth (settled i.call call)) after →
        Enters s before (one ++ two) (nested_in s i) after × Serves s i kept }
    ensures differs { (s : Setting ℕ) (i : Instantiation ℕ) (kept : Kept ℕ) (done rest : List (Event ℕ)) (event : Event ℕ)
        (before after : List (Kept ℕ)) (list : List (Instantiation ℕ)) → IsAlong s i kept done (event ∷ rest) before list after →
        IsRead event → ¬ (Hold s.ask (given_to s i) (meant_below s i) (came (meant_below s i) done) (event ∷ [])) →
        EntersFront s before list (nested_in s i) after × ¬ (Serves s i kept) }
    ensures another { (s : Setting ℕ) (i : Instantiation ℕ) (kept : Kept ℕ) (done rest : List (Event ℕ)) (name : Expanded) (depth : ℕ)
        (place : Place) (supplied : Supplied ℕ) (value : Given ℕ) (before mid after : List (Kept ℕ)) (one two : List (Instantiation ℕ)) →
        IsAlong s i kept done (Saw (Global name) depth place supplied ∷ rest) before one mid →
        given_to s i (Global name) depth place ≡ Known value → ¬ (Known value ≡ supplied) →
        Enters s mid two (for_reference s (entered s i.below) i.past name depth place) after →
        EntersFront s before (one ++ two) (nested_in s i) after × ¬ (Serves s i kept) }
    ensures lost { (s : Setting ℕ) (i : Instantiation ℕ) (kept : Kept ℕ) (done rest : List (Event ℕ)) (name : Expanded) (depth : ℕ)
        (place : Place) (supplied : Supplied ℕ) (why : Refused) (before mid after : List (Kept ℕ)) (one two : List (Instantiation ℕ)) →
        IsAlong s i kept done (Saw (Global name) depth place supplied ∷ rest) before one mid →
        given_to s i (Global name) depth place ≡ Failed why →
        Enters s mid two (for_reference s (entered s i.below) i.past name depth place) after →
        Enters s before (one ++ two) (nested_in s i) after × ((other : Kept ℕ) → ¬ (Serves s i other))
        × ((is_known : Expanded → ℕ → Place → Bool) → is_known name depth place ≡ true →
        AllEnd s (nested_but s i is_known (own_of s i).going.trace)) }
{}

/// A run of a call is gone along from its start on: over what enters nothing of which no record is found, over calls, and
/// over references.
pub fn a_run_is_gone_along()
    ensures begins { (s : Setting ℕ) (i : Instantiation ℕ) (is_known : Expanded → ℕ → Place → Bool) (records : List (Kept ℕ)) →
        IsIn i (instantiations s) → IsRun s i is_known [] records [] records }
    ensures passes { (s : Setting ℕ) (i : Instantiation ℕ) (is_known : Expanded → ℕ → Place → Bool) (done es more : List (Event ℕ))
        (before after : List (Kept ℕ)) (list : List (Instantiation ℕ)) → IsRun s i is_known done before list after →
        (own_of s i).going.trace ≡ (done ++ es) ++ more → AllFound s after (nested_along s i es) →
        IsRun s i is_known (done ++ es) before list after }
    ensures call { (s : Setting ℕ) (i : Instantiation ℕ) (is_known : Expanded → ℕ → Place → Bool) (done more : List (Event ℕ))
        (call : Call ℕ) (depth : ℕ) (before mid after : List (Kept ℕ)) (one two : List (Instantiation ℕ)) →
        IsRun s i is_known done before one mid → (own_of s i).going.trace ≡ (done ++ Entered call depth ∷ []) ++ more →
        Enters s mid two (entered s i.below i.past depth (settled i.call call)) after →
        IsRun s i is_known (done ++ Entered call depth ∷ []) before (one ++ two) after }
    ensures reference { (s : Setting ℕ) (i : Instantiation ℕ) (is_known : Expanded → ℕ → Place → Bool) (done more : List (Event ℕ))
        (name : Expanded) (depth : ℕ) (place : Place) (supplied : Supplied ℕ) (before mid after : List (Kept ℕ))
        (one two : List (Instantiation ℕ)) → IsRun s i is_known done before one mid →
        (own_of s i).going.trace ≡ (done ++ Saw (Global name) depth place supplied ∷ []) ++ more →
        Enters s mid two (unless_known is_known (for_reference s (entered s i.below) i.past) name depth place) after →
        IsRun s i is_known (done ++ Saw (Global name) depth place supplied ∷ []) before (one ++ two) after }
    ensures notes { (ask : Question ℕ → Answer ℕ) (supply : Wanted → ℕ → Place → Supplied ℕ) (nested : ℕ → Call ℕ → Outcome ℕ) (room : ℕ)
        (plan : Plan ℕ) (going : Going ℕ) →
        (more : List (Event ℕ)) × ((own ask supply nested room plan going).going.trace ≡ going.trace ++ more) }
{}

/// What is counted of a whole run, with the records of the last one at hand, is counted as it should be, where none of
/// these records is of a unit and node that the change makes. It may be told to have been entered, where all that is
/// counted comes to its end; and what may be told to have been entered may be counted.
pub fn what_is_counted_of_a_run_may_be_told()
    ensures counted { (s : Setting ℕ) (last after : List (Kept ℕ)) (is_made : Target ℕ → ℕ → Bool) (list : List (Instantiation ℕ)) →
        ((kept : Kept ℕ) → IsIn kept last → is_made kept.call.target kept.call.node ≡ false) →
        Enters s last list (instantiations s) after → AreCounted s last (λ target node. is_made target node ≡ true) list }
    ensures entered { (s : Setting ℕ) (records : List (Kept ℕ)) (is_made : Target ℕ → ℕ → Bool) (list : List (Instantiation ℕ)) →
        AllEnd s list → AreCounted s records (λ target node. is_made target node ≡ true) list →
        AreEntered s records (λ target node. is_made target node ≡ true) list }
    ensures may_count { (s : Setting ℕ) (records : List (Kept ℕ)) (is_made : Target ℕ → ℕ → Bool) (list : List (Instantiation ℕ)) →
        AreEntered s records (λ target node. is_made target node ≡ true) list →
        AreCounted s records (λ target node. is_made target node ≡ true) list }
{}
