// Laws of matching and of the choice of template rules.
ghost use Rattle.std.specs.Prelude.{◌≡◌, ◌≢◌, ℕ, Bool, List, Option, None, Some, IsSomeAnd, slice_get, false, true};
ghost use Rattle.std.specs.Option.{ForSome};
ghost use Rattle.spec_document.specs.Name.{Expanded};
ghost use Rattle.spec_stylesheet.specs.Pattern.{Pattern};
ghost use Rattle.spec_stylesheet.specs.Sheet.{Rule};
ghost use Rattle.spec_meaning.specs.Context.{Context};
ghost use Rattle.spec_meaning.specs.Question.{Question, Answer, Candidates, Refusal};
ghost use Rattle.spec_meaning.specs.Program.{Supply, Gives, Refuses, outcome_of};
ghost use Rattle.spec_transform.specs.Choice.{may_be_chosen, chosen, IsRanked, CanBeChosen, IsGreatest};
ghost use Rattle.spec_transform.specs.Match.{matches};

/// Where rules stand ranked, the one that is chosen is a candidate whose pattern matches, and no other such one
/// counts for more (XSLT 1.0, sections 5.5 and 5.6). Where none is chosen, the pattern of no candidate matches.
pub fn the_first_is_the_greatest()
    ensures one { (same : ℕ → ℕ → Bool) (c : Rule → Context ℕ) (n : ℕ) (mode : Option Expanded) (candidates : Candidates) (rules : List Rule) →
        (ask : Question ℕ → Answer ℕ) (supply : Supply ℕ) (number : ℕ) →
        IsRanked rules → outcome_of ask supply (chosen same c n mode candidates rules) ≡ Gives (Some number) →
        IsSomeAnd (slice_get rules number) (IsGreatest (CanBeChosen same c n mode candidates ask supply) rules) }
    ensures none { (same : ℕ → ℕ → Bool) (c : Rule → Context ℕ) (n : ℕ) (mode : Option Expanded) (candidates : Candidates) (rules : List Rule) →
        (ask : Question ℕ → Answer ℕ) (supply : Supply ℕ) (k : ℕ) →
        outcome_of ask supply (chosen same c n mode candidates rules) ≡ Gives None →
        ForSome (slice_get rules k) (λ rule. may_be_chosen mode candidates rule ≡ true → outcome_of ask supply (matches same (c rule) rule.pattern n) ≡ Gives false) }
{}

/// Matching and choice are never refused, whatever is refused in a predicate (XSLT 1.0, section 5.2).
pub fn matching_is_never_refused()
    ensures matching { (same : ℕ → ℕ → Bool) (c : Context ℕ) (pattern : Pattern) (n : ℕ) (ask : Question ℕ → Answer ℕ) (supply : Supply ℕ) (why : Refusal) →
        outcome_of ask supply (matches same c pattern n) ≢ Refuses why }
    ensures choice { (same : ℕ → ℕ → Bool) (c : Rule → Context ℕ) (n : ℕ) (mode : Option Expanded) (candidates : Candidates) (rules : List Rule) →
        (ask : Question ℕ → Answer ℕ) (supply : Supply ℕ) (why : Refusal) →
        outcome_of ask supply (chosen same c n mode candidates rules) ≢ Refuses why }
{}
