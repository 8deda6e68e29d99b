// Laws of PYX lines and of forests, which hold of the definitions alone.
ghost use Rattle.std.specs.Prelude.{◌≡◌, ◌↔◌, ℕ, List, [], None, Some, map};
ghost use Rattle.std.specs.Option.{option_map, option_and_then};
ghost use Rattle.spec_document.specs.declared.event.Event.{Event};
ghost use Rattle.spec_document.specs.Balance.{forest_of, unbalanced_line, IsUnbalanced};
ghost use Rattle.spec_document.specs.Forest.{Plain, IsForestOf, IsNormal, plain, written};
ghost use Rattle.spec_document.specs.Place.{Found, at_number, namespaces_of, namespace_at, namespace_of};
ghost use Rattle.spec_document.specs.Pyx.{escaped, unescaped, line_of, event_of, IsWritable};

/// What is written with escapes is read as it was.
pub fn escapes_read_back()
    ensures { (text : List ℕ) → unescaped (escaped text) ≡ text }
{}

/// The line of an event is read as that event, where its characters are XML Chars and no attribute
/// name or target has a space in it.
pub fn written_lines_read_back()
    ensures { (event : Event (List ℕ)) → IsWritable event → event_of (line_of event) ≡ Some event }
{}

/// Events are those of at most one forest.
pub fn events_have_one_forest()
    ensures { (events : List (Event (List ℕ))) (f g : Plain) → IsForestOf events f → IsForestOf events g → f ≡ g }
{}

/// The forest that is computed from events, its lines forgotten, is the one whose events they are; none
/// is computed where they are no forest's.
pub fn forests_are_computed()
    ensures { (events : List (ℕ × Event (List ℕ))) (f : Plain) → (option_map plain (forest_of events) ≡ Some f) ↔ IsForestOf (map (λ e. e.1) events) f }
{}

/// The events that are written for a forest are that forest, where it is as one that events are: only
/// elements have something below them, no text is empty and no two stand side by side.
pub fn written_forests_read_back()
    ensures { (f : Plain) → IsNormal f → IsForestOf (written f) f }
{}

/// The line at which events are unbalanced is that of the first event with which they cannot go on to a
/// forest, as they can with those before it; where each may follow, an end is missing, which is no line's.
pub fn unbalanced_lines_are_the_first()
    ensures { (events : List (ℕ × Event (List ℕ))) → IsUnbalanced events (unbalanced_line None [] events) }
{}

/// The namespace node of an element that has a number in document order is the one of its prefix, by which
/// its place ends: each prefix stands once (XPath 1.0, section 5.4).
pub fn namespace_nodes_are_told_by_their_prefix()
    ensures { (node : Found ℕ) (number : ℕ)
        → option_and_then (λ n. namespace_of node n.0) (at_number number (namespaces_of node)) ≡ namespace_at node number }
{}
