// Laws of what a format is cut into.
ghost use Rattle.std.specs.Prelude.{◌≡◌, ℕ, List, true, not, drop};
ghost use Rattle.std.specs.List.{list_all};
ghost use Rattle.spec_format.specs.Format.{cut, is_between, is_empty, is_token, joined};

/// A format is cut into its runs of letters and digits and the runs between them: together they are the format, each token is a run of letters
/// and digits, no other run has one, and before each token but the first stands at least one other character, so no run could be longer.
pub fn a_format_is_cut_into_its_runs()
    ensures whole { (text : List ℕ) → joined (cut text) ≡ text }
    ensures tokens { (text : List ℕ) → list_all (λ part. is_token part.token) (cut text).parts ≡ true }
    ensures between { (text : List ℕ) → list_all (λ part. is_between part.before) (cut text).parts ≡ true }
    ensures behind { (text : List ℕ) → is_between (cut text).behind ≡ true }
    ensures apart { (text : List ℕ) → list_all (λ part. not (is_empty part.before)) (drop 1 (cut text).parts) ≡ true }
{}
