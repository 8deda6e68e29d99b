// Laws of calls that run a program in a world: of each function that has the clause `Runs`. `X` is what a call gives.
ghost use Rattle.std.specs.Prelude.{◌≡◌, ℕ, ◌++◌, List, Some, Result, IfSome};
ghost use Rattle.spec_meaning.specs.Program.{Program, Supply, State, Read, Said, IsEnded, Hold, outcome_of, reads_of, with_reads};
ghost use Rattle.spec_node.specs.declared.node_ref.NodeRef.{NodeRef};
ghost use Rattle.xt_questions.specs.Change.{AllStand};
ghost use Rattle.xt_questions.specs.Runs.{Runs};
ghost use Rattle.xt_questions.specs.declared.fault.EvalFault.{EvalFault};
ghost use Rattle.spec_agreement.specs.Results.{ResultType, ResultOf};
ghost use Rattle.spec_agreement.specs.Calls.{said_by, Says};

/// A call tells: it says how the program ends by what is true, leaves that alone, and what it read stands after the
/// reads of the world, where that keeps them. Of want of memory nothing is said but that what is true stays.
pub fn calls_tell<X>()
    ensures truth { (type : ResultType) (view : X → ResultOf type) (p : Program NodeRef (ResultOf type)) →
        (supply : Supply NodeRef) (depth : ℕ) (old new : State NodeRef) (result : Result X EvalFault) →
        Runs view supply depth p old new result → new.truth ≡ old.truth }
    ensures said { (type : ResultType) (view : X → ResultOf type) (p : Program NodeRef (ResultOf type)) →
        (supply : Supply NodeRef) (depth : ℕ) (old new : State NodeRef) (result : Result X EvalFault) →
        Runs view supply depth p old new result → Says view result (outcome_of old.truth supply p) }
    ensures reads { (type : ResultType) (view : X → ResultOf type) (p : Program NodeRef (ResultOf type)) →
        (supply : Supply NodeRef) (depth : ℕ) (old new : State NodeRef) (result : Result X EvalFault) →
        Runs view supply depth p old new result →
        IfSome (said_by view result) (λ said. new.reads ≡ with_reads (reads_of old.truth supply depth p) old.reads) }
{}

/// Who reads the same gets the same: a call gave a value or was refused, and what it read, which the world keeps after
/// the reads before it, holds elsewhere: each question has the same answer there, and what is needed of the run is
/// given alike. Then each call there that runs the same program says the same, unless it is for want of memory. In a
/// content just as deep it reads the same.
pub fn calls_agree<X>()
    ensures said { (type : ResultType) (view : X → ResultOf type) (p : Program NodeRef (ResultOf type)) →
        (supply others : Supply NodeRef) (depth below : ℕ) (old new there after : State NodeRef) (first second : Result X EvalFault) →
        (said : Said (ResultOf type)) (kept reads : List (Read NodeRef)) →
        Runs view supply depth p old new first → said_by view first ≡ Some said → IsEnded said →
        old.reads ≡ Some kept → new.reads ≡ Some (kept ++ reads) → Hold there.truth others reads →
        Runs view others below p there after second → Says view second said }
    ensures reads { (type : ResultType) (view : X → ResultOf type) (p : Program NodeRef (ResultOf type)) →
        (supply others : Supply NodeRef) (depth : ℕ) (old new there after : State NodeRef) (first second : Result X EvalFault) →
        (said : Said (ResultOf type)) (kept reads : List (Read NodeRef)) →
        Runs view supply depth p old new first → said_by view first ≡ Some said → IsEnded said →
        old.reads ≡ Some kept → new.reads ≡ Some (kept ++ reads) → Hold there.truth others reads →
        Runs view others depth p there after second →
        IfSome (said_by view second) (λ other. after.reads ≡ with_reads reads there.reads) }
{}

/// The same where what is needed of the run is given as before: then it is enough that the questions have the same
/// answers there, which `holds` of `xt_questions` finds out.
pub fn calls_agree_where_reads_stand<X>()
    ensures { (type : ResultType) (view : X → ResultOf type) (p : Program NodeRef (ResultOf type)) →
        (supply : Supply NodeRef) (depth below : ℕ) (old new there after : State NodeRef) (first second : Result X EvalFault) →
        (said : Said (ResultOf type)) (kept reads : List (Read NodeRef)) →
        Runs view supply depth p old new first → said_by view first ≡ Some said → IsEnded said →
        old.reads ≡ Some kept → new.reads ≡ Some (kept ++ reads) → AllStand there.truth reads →
        Runs view supply below p there after second → Says view second said }
{}
