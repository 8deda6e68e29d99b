// Laws of numbers.
ghost use Rattle.std.specs.Prelude.{◌≡◌, ℕ, Bool, List, Option};
ghost use Rattle.spec_expression.specs.Number.{Number};
ghost use Rattle.spec_expression.specs.declared.code.DynCode.TheVariants as code;
ghost use Rattle.spec_stylesheet.specs.declared.number_level.NumberLevel.TheVariants.{Single, Multiple};
ghost use Rattle.spec_stylesheet.specs.Pattern.{Pattern};
ghost use Rattle.spec_stylesheet.specs.Instruction.{Count};
ghost use Rattle.spec_meaning.specs.Context.{Context};
ghost use Rattle.spec_meaning.specs.Meaning.{last_of};
ghost use Rattle.spec_meaning.specs.Question.{Question, Answer, Refusal, Here};
ghost use Rattle.spec_meaning.specs.Program.{Supply, Gives, Refuses, outcome_of};
ghost use Rattle.spec_transform.specs.Numbering.{numbers};

/// The number at the level `single` is the last of those at the level `multiple`, and there is none where there are
/// none of these (XSLT 1.0, section 7.7).
pub fn the_single_number_is_the_last()
    ensures { (same : ℕ → ℕ → Bool) (count from : Option Pattern) (c : Context ℕ) (ask : Question ℕ → Answer ℕ) (supply : Supply ℕ) (ns : List Number) →
        outcome_of ask supply (numbers same (record { level = Multiple; count = count; from = from }) c) ≡ Gives ns →
        outcome_of ask supply (numbers same (record { level = Single; count = count; from = from }) c) ≡ Gives (last_of ns) }
{}

/// Counting is refused for nothing but a number that is too wide, whatever is refused in a predicate.
pub fn counting_is_refused_for_width_alone()
    ensures { (same : ℕ → ℕ → Bool) (count : Count) (c : Context ℕ) (ask : Question ℕ → Answer ℕ) (supply : Supply ℕ) (why : Refusal) →
        outcome_of ask supply (numbers same count c) ≡ Refuses why → why ≡ Here code.Wide }
{}
