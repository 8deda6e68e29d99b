// Laws of keys.
ghost use Rattle.std.specs.Prelude.{◌≡◌, ℕ, Bool, List};
ghost use Rattle.spec_meaning.specs.Question.{Refusal, Refused};
ghost use Rattle.spec_meaning.specs.Program.{Said};
ghost use Rattle.spec_transform.specs.Key.{Entry, keyed};

/// Where a key is refused for one value it is refused for every other, and it is the same refusal: so it does not
/// matter which value is asked for first (XSLT 1.0, section 12.2).
pub fn a_refusal_is_of_all_values()
    ensures { (same : ℕ → ℕ → Bool) (nodes : List ℕ) (text other : List ℕ) (said : Said (List (Entry ℕ))) (why : Refusal) →
        keyed same nodes text said ≡ Refused why → keyed same nodes other said ≡ Refused why }
{}
