// Laws of the names of results.
ghost use Rattle.std.specs.Prelude.{◌≡◌, ℕ, List, Option, Some, Ok};
ghost use Rattle.spec_document.specs.Forest.{Plain};
ghost use Rattle.spec_document.specs.Name.{Expanded};
ghost use Rattle.spec_stylesheet.specs.declared.method.Method.{Method};
ghost use Rattle.spec_stylesheet.specs.Sheet.{Sheet};
ghost use Rattle.spec_compile.specs.Sheet.{IsSheet};
ghost use Rattle.spec_result.specs.Recovery.{standing};
ghost use Rattle.spec_run.specs.Documents.{Documents, main_name};
ghost use Rattle.spec_run.specs.Outcome.{IsOutcome, Done};
ghost use Rattle.spec_named.specs.Named.{AreValid, IsNamedWell, IsNamedResult, stream_of};

use spec_result::names_are_declared;

/// What a run writes has good names, whether it comes to its end or is refused: where the source and the modules have no
/// faults, the names of all elements that stand are QNames, and no namespace node that is copied undeclares a prefix.
pub fn streams_are_named_well()
    ensures { (documents : Documents) (source : Plain) (sheet : Sheet) → AreValid documents → documents.source ≡ Some source
        → IsSheet documents.modules main_name (Ok sheet) → IsNamedWell (standing (stream_of sheet documents.parameters source)) }
{}

/// The result of every run that comes to its end is the tree of what its stream lets stand, and each name in it, read
/// with the declarations in force there, is the one that stands: each element has its expanded name, and its attributes
/// have theirs, in their order, with their values. All that is asked is that the source and the modules have no faults,
/// and that fewer than 2^63 namespaces are in scope wherever a prefix may have to be made.
pub fn results_are_named()
    ensures { (documents : Documents) (source result : Plain) (method : Option (Method Expanded)) (messages : List (List ℕ)) →
        AreValid documents → documents.source ≡ Some source → IsOutcome documents (Done result method messages)
        → (sheet : Sheet) × IsSheet documents.modules main_name (Ok sheet) × IsNamedResult (stream_of sheet documents.parameters source) result }
{
    names_are_declared();
}
