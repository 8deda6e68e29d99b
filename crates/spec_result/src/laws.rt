// Laws of results, which hold of the definitions alone.
ghost use Rattle.std.specs.Prelude.{◌≡◌};
ghost use Rattle.spec_document.specs.Forest.{IsForestOf, IsNormal, texts_in, written};
ghost use Rattle.spec_meaning.specs.Stream.{Stream, texts_of};
ghost use Rattle.spec_document.specs.Scope.{Scope};
ghost use Rattle.spec_result.specs.Named.{IsGood, IsNamed};
ghost use Rattle.spec_result.specs.Recovery.{standing};
ghost use Rattle.spec_result.specs.Shape.{shaped, tree_of};

/// The tree that a stream shapes is as one that lines make: only elements have something below them, no
/// text is empty and no two stand side by side. So the events that are written for it are those of this
/// tree, and of no other.
pub fn results_are_normal()
    ensures normal { (stream : Stream) → IsNormal (shaped stream) }
    ensures reads_back { (stream : Stream) → IsForestOf (written (shaped stream)) (shaped stream) }
{}

/// The string-value of a result is that of the fragment with this stream (XSLT 1.0, section 11.1): the
/// recoveries lose no text that stands in elements or beside them.
pub fn texts_are_those_of_the_stream()
    ensures { (stream : Stream) → texts_in (shaped stream) ≡ texts_of stream }
{}

/// In the tree of what stands of a stream each name, read with the declarations in force there, is the one that
/// stands: each element has its expanded name, and its attributes have theirs, in their order, with their values.
/// That is said where the names of elements are QNames, copied namespace nodes undeclare no prefix, and fewer than
/// 2^63 namespaces are in scope. In the scope of a document the tree is `shaped stream`.
pub fn names_are_declared()
    ensures { (scope : Scope) (stream : Stream) → IsGood scope (standing stream) → IsNamed scope (standing stream) (tree_of scope (standing stream)) }
{}
