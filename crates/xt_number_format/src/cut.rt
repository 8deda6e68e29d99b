// What a format is cut into.
ghost use Rattle.std.specs.Prelude.{◌≡◌, ℕ, List, [], ◌∷◌, ◌++◌, IfOk, OnOk};
ghost use Rattle.std.specs.Str.{chars};
ghost use Rattle.spec_format.specs.Format as spec;

use spec_format::Part;
use std::alloc::Global;
use std::marker::Model;
use std::mem;
use unicode::properties::{GeneralCategory, GeneralCategoryGroup};
use xt_text::{Memory, Text};

/// A format of numbers (XSLT 1.0, section 7.7.1). Contracts see what stands before the first number and behind the last, the token of the first,
/// and the further tokens, each with what stands before it.
#[derive(Drop)]
pub struct Format {
    prefix: Text,
    first: Text,
    others: Vec<Part<Text>>,
    suffix: Text,
}

impl Model for Format {
    ghost use Rattle.spec_format.specs.Format as spec;

    ghost Value = { spec.Format };

    ghost view = { λ format. record { prefix = format.prefix; first = format.first; others = format.others.items; suffix = format.suffix } };
}

impl Format {
    /// What stands before the first number.
    pub(crate) fn prefix(&self) -> &Text
        ensures { result.now ≡ self.now.prefix }
    {
        &self.prefix
    }

    /// The token of the first number.
    pub(crate) fn first(&self) -> &Text
        ensures { result.now ≡ self.now.first }
    {
        &self.first
    }

    /// What stands behind the last number.
    pub(crate) fn suffix(&self) -> &Text
        ensures { result.now ≡ self.now.suffix }
    {
        &self.suffix
    }

    /// What stands before a number behind the first, and the token of that number. Its place is counted from 0.
    pub(crate) fn part_at(&self, place: usize) -> (&str, &Text)
        ensures before { chars result.0.now ≡ (spec.part_at self.now place).before }
        ensures token { result.1.now ≡ (spec.part_at self.now place).token }
    {
        if self.others.is_empty() {
            return (".", &self.first);
        }
        let part = &self.others[place.min(self.others.len() - 1)];
        (part.before.as_str(), &part.token)
    }
}

/// Cuts the format into its tokens, which are the runs of letters and digits, and the runs between them. The first run of other characters is
/// the prefix and the last the suffix; where there is no token, all is the prefix and the token is `1`.
pub fn split(alloc: Global, format: &str) -> Result<Format, Memory>
    ensures { IfOk result (λ f. f ≡ spec.split (chars format.now)) }
{
    let mut cut = Cut::new(alloc);
    for character in format.chars() {
        cut.push(alloc, character)?;
    }
    cut.into_format(alloc)
}

/// A text that is cut: its tokens, each with the run before it, and the run behind the last.
#[derive(Drop)]
struct Cut {
    parts: Vec<Part<Text>>,
    behind: Text,
}

impl Model for Cut {
    ghost use Rattle.spec_format.specs.Format as spec;

    ghost Value = { spec.Cut };

    ghost view = { λ cut. record { parts = cut.parts.items; behind = cut.behind } };
}

impl Cut {
    /// The empty text.
    fn new(alloc: Global) -> Cut
        ensures { result ≡ spec.cut [] }
    {
        Cut {
            parts: Vec::new(alloc),
            behind: Text::new(alloc),
        }
    }

    /// One character more at the end of the text.
    fn push(&mut self, alloc: Global, character: char) -> Result<(), Memory>
        ensures { OnOk result ((text : List ℕ) → self.old ≡ spec.cut text → self.new ≡ spec.cut (text ++ character ∷ [])) }
    {
        if !is_alphanumeric(character) {
            return self.behind.push(character);
        }
        if self.behind.is_empty() && !self.parts.is_empty() {
            let last = self.parts.len() - 1;
            return self.parts[last].token.push(character);
        }
        let mut token = Text::new(alloc);
        token.push(character)?;
        let before = mem::replace(&mut self.behind, Text::new(alloc));
        self.parts.push(Part { before, token })?;
        Ok(())
    }

    /// The format of this text.
    fn into_format(self, alloc: Global) -> Result<Format, Memory>
        ensures { IfOk result (λ f. f ≡ spec.format_from self.parts self.behind) }
    {
        let Cut { mut parts, behind } = self;
        if parts.is_empty() {
            return Ok(Format {
                prefix: behind,
                first: Text::from_str(alloc, "1")?,
                others: parts,
                suffix: Text::new(alloc),
            });
        }
        let first = parts.remove(0);
        Ok(Format {
            prefix: first.before,
            first: first.token,
            others: parts,
            suffix: behind,
        })
    }
}

/// Whether it is a letter or digit of any script, of which tokens are made.
fn is_alphanumeric(character: char) -> bool
    ensures { result ≡ spec.is_alphanumeric character }
{
    let category = GeneralCategory::for_char(character);
    GeneralCategoryGroup::Letter.contains(category)
        || GeneralCategoryGroup::Number.contains(category)
}
