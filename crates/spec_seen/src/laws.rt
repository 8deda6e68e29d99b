// Laws of what is seen.
ghost use Rattle.std.specs.Prelude.{◌≡◌, ℕ, false, [], List};
ghost use Rattle.std.specs.List.{list_any};
ghost use Rattle.spec_document.specs.Forest.{Document, plain};
ghost use Rattle.spec_stylesheet.specs.Sheet.{SpaceRule};
ghost use Rattle.spec_seen.specs.Seen.{LosesTexts, at_root, seen, seen_among};

/// Without a rule all of a document is seen.
pub fn without_rules_all_is_seen()
    ensures { (document : Document ℕ) → seen [] document ≡ document }
{}

/// Where no rule strips, all of a document is seen.
pub fn where_no_rule_strips_all_is_seen()
    ensures { (rules : List SpaceRule) (document : Document ℕ) → list_any (λ rule. rule.strips) rules ≡ false → seen rules document ≡ document }
{}

/// Labels do not matter: what is seen is the same for all labels of the nodes.
pub fn labels_do_not_matter()
    ensures { (rules : List SpaceRule) (document : Document ℕ) →
        plain (seen rules document).nodes ≡ seen_among rules at_root (plain document.nodes) }
{}

/// Nothing but texts is lost: what is seen keeps its label, its content and its order.
pub fn nothing_but_texts_is_lost()
    ensures { (rules : List SpaceRule) (document : Document ℕ) → LosesTexts document.nodes (seen rules document).nodes }
{}
