// Laws of runs.
ghost use Rattle.std.specs.Prelude.{◌≡◌, ◌≤◌, ◌-◌, ℕ, [], Bool, List, length};
ghost use Rattle.spec_stylesheet.specs.Place.{Place};
ghost use Rattle.spec_meaning.specs.Question.{Question, Answer};
ghost use Rattle.spec_meaning.specs.Program.{Wanted};
ghost use Rattle.spec_meaning.specs.Stream as stream;
ghost use Rattle.spec_meaning.specs.Stream.{Stream, holes};
ghost use Rattle.spec_run.specs.Plan.{Call, Plan};
ghost use Rattle.spec_run.specs.Direct.{Supplied, Ending, Outcome, direct};
ghost use Rattle.spec_run.specs.Going.{Event, Going, at_start, closed, given, opened, own, owned, whole};
ghost use Rattle.spec_run.specs.Hold.{GoesOn, Hold, came, over};
ghost use Rattle.spec_run.specs.Trail.{Trail};
ghost use Rattle.spec_run.specs.Cut.{cut};
ghost use Rattle.spec_run.specs.Meaning.{Setting, Past, meaning};

/// An instantiation that is run by itself, with the streams of what it enters in place of its holes, is what it means.
pub fn holes_are_filled()
    ensures { (ask : Question ℕ → Answer ℕ) (supply : Wanted → ℕ → Place → Supplied ℕ) (nested : ℕ → Call ℕ → Outcome ℕ) (room : ℕ) (plan : Plan ℕ) →
        whole (own ask supply nested room plan at_start) ≡ direct ask supply nested room plan stream.Ended [] }
{}

/// Reads suffice: where all that an instantiation read on the way to its end holds in another world, with other
/// instantiations below it and room for its height, it comes to the same end there, with the same stream with holes.
pub fn reads_suffice()
    ensures { (ask other : Question ℕ → Answer ℕ) (supply there : Wanted → ℕ → Place → Supplied ℕ) (nested among : ℕ → Call ℕ → Outcome ℕ) (room left : ℕ) (plan : Plan ℕ) →
        GoesOn (own ask supply nested room plan at_start).ending → Hold other there among [] (own ask supply nested room plan at_start).going.trace →
        (own ask supply nested room plan at_start).going.height ≤ left →
        own other there among left plan at_start ≡ owned (over (came among (own ask supply nested room plan at_start).going.trace) (own ask supply nested room plan at_start).going) (own ask supply nested room plan at_start).ending }
{}

/// What comes to its end with so many levels left comes to it in the same way with more.
pub fn more_levels_change_nothing()
    ensures { (s : Setting ℕ) (levels more : ℕ) (past : Past ℕ) (depth below : ℕ) (call : Call ℕ) →
        levels - depth ≤ more - below → GoesOn (meaning s levels past depth call).ending → meaning s more past below call ≡ meaning s levels past depth call }
{}

/// What stood before a hole when it was opened, with a hole for each stream until then, is what the finished stream
/// has before it: so where a nested instantiation is refused later on, what is written until then is cut out of it.
pub fn a_hole_keeps_what_stood_before_it()
    ensures { (plan : Plan ℕ) (g last : Going ℕ) (events : List (Event ℕ)) (ending : Ending ℕ) (call : Call ℕ) (depth : ℕ) (content : Stream) →
        Trail plan (given content (opened call depth g)) events last ending → holes (closed g) ≡ length g.streams →
        cut (length g.streams) (closed last) ≡ closed (opened call depth g) }
{}
