// Laws of instantiations, at the nodes of the code.
ghost use Rattle.std.specs.Prelude.{◌≡◌, ◌≤◌, ◌-◌, ℕ, suc, [], List, None, length};
ghost use Rattle.spec_stylesheet.specs.Place.{Place};
ghost use Rattle.spec_meaning.specs.Question.{Question, Answer};
ghost use Rattle.spec_meaning.specs.Program.{Wanted};
ghost use Rattle.spec_meaning.specs.Stream as stream;
ghost use Rattle.spec_meaning.specs.Stream.{Stream, filled, holes};
ghost use Rattle.spec_run.specs.Plan.{Call, Plan};
ghost use Rattle.spec_run.specs.Direct.{Supplied, Ending, Outcome, direct};
ghost use Rattle.spec_run.specs.Going.{Event, Going, at_start, closed, given, opened, own, owned, whole};
ghost use Rattle.spec_run.specs.Hold.{GoesOn, Hold, came, over};
ghost use Rattle.spec_run.specs.Trail.{Trail, Kept, IsTrue};
ghost use Rattle.spec_run.specs.Cut.{cut};
ghost use Rattle.spec_run.specs.Meaning.{Setting, Past, meaning, referred, supplied};
ghost use Rattle.spec_node.specs.declared.node_ref.NodeRef.{NodeRef};
ghost use Rattle.spec_node.specs.Naming.{same_ref};
ghost use Rattle.xt_engine.specs.Progress.{started};
ghost use Rattle.xt_engine.specs.Advances.{Made};
ghost use Rattle.spec_agreement.specs.Turns.{Turns, entered_by, kept_of};

/// An instantiation that is run by itself, with the streams of what it enters in place of its holes, is what it means.
pub fn holes_are_filled()
    ensures { (ask : Question NodeRef → Answer NodeRef) (supply : Wanted → ℕ → Place → Supplied NodeRef) →
        (nested : ℕ → Call NodeRef → Outcome NodeRef) (room : ℕ) (plan : Plan NodeRef) →
        whole (own ask supply nested room plan at_start) ≡ direct ask supply nested room plan stream.Ended [] }
{}

/// Reads suffice: where all that an instantiation read on the way to its end holds in another world, with other
/// instantiations below it and room for its height, it comes to the same end there, with the same stream with holes.
pub fn reads_suffice()
    ensures { (ask other : Question NodeRef → Answer NodeRef) (supply there : Wanted → ℕ → Place → Supplied NodeRef) →
        (nested among : ℕ → Call NodeRef → Outcome NodeRef) (room left : ℕ) (plan : Plan NodeRef) →
        GoesOn (own ask supply nested room plan at_start).ending →
        Hold other there among [] (own ask supply nested room plan at_start).going.trace →
        (own ask supply nested room plan at_start).going.height ≤ left →
        own other there among left plan at_start
        ≡ owned (over (came among (own ask supply nested room plan at_start).going.trace) (own ask supply nested room plan at_start).going)
        (own ask supply nested room plan at_start).ending }
{}

/// What an engine makes of a call, turn by turn (clause `Advances`), to its end, is true to keep: it goes along the plan
/// of that call.
pub fn what_is_made_is_true_to_keep()
    ensures { (ask : Question NodeRef → Answer NodeRef) (call : Call NodeRef) (room : ℕ) (made : Made NodeRef) →
        Turns ask (started call room) None made → IsTrue same_ref (kept_of call made) }
{}

/// What is kept of an instantiation suffices: where all that it read holds, with what it enters there and room for its
/// height, it means its stream with the streams of what it enters there in place of its holes, and comes to its end.
pub fn what_is_kept_suffices()
    ensures { (s : Setting NodeRef) (levels : ℕ) (past : Past NodeRef) (kept : Kept NodeRef) → IsTrue s.same kept → kept.height ≤ levels →
        Hold s.ask (supplied kept.call (referred s (meaning s levels) past)) (entered_by s levels past kept.call) [] kept.trace →
        meaning s (suc levels) past 0 kept.call
        ≡ record { content = filled kept.content (came (entered_by s levels past kept.call) kept.trace); ending = kept.ending } }
{}

/// What comes to its end with so many levels left comes to it in the same way with more.
pub fn more_levels_change_nothing()
    ensures { (s : Setting NodeRef) (levels more : ℕ) (past : Past NodeRef) (depth below : ℕ) (call : Call NodeRef) →
        levels - depth ≤ more - below → GoesOn (meaning s levels past depth call).ending →
        meaning s more past below call ≡ meaning s levels past depth call }
{}

/// What stood before a hole when it was opened, with a hole for each stream until then, is what the finished stream
/// has before it: so where a nested instantiation is refused later on, what is written until then is cut out of it.
pub fn a_hole_keeps_what_stood_before_it()
    ensures { (plan : Plan NodeRef) (g last : Going NodeRef) (events : List (Event NodeRef)) (ending : Ending NodeRef) →
        (call : Call NodeRef) (depth : ℕ) (content : Stream) →
        Trail plan (given content (opened call depth g)) events last ending → holes (closed g) ≡ length g.streams →
        cut (length g.streams) (closed last) ≡ closed (opened call depth g) }
{}
