// What is read of a value template, piece by piece.
ghost use Rattle.std.specs.Prelude.{◌≡◌, ◌∷◌, ◌++◌, [], false, map, List, Result, Ok, OnOk};
ghost use Rattle.std.specs.Str.{chars};
ghost use Rattle.spec_stylesheet.specs.ValueTemplate as plain;
ghost use Rattle.spec_static.specs.TemplateGrammar as grammar;
ghost use Rattle.spec_static.specs.TemplateGrammar.{with_character, with_value, on_parts, refused};
ghost use Rattle.xt_syntax.specs.View.{expr_of};
ghost use Rattle.xt_syntax.specs.PartView.{avt_part_of};
ghost use Rattle.xt_avt.specs.Cut.{piece_of};
ghost use Rattle.xt_avt.specs.Reading.{Comes, Finishes, all_with, begins_text, with_text};

use crate::braces::Piece;
use crate::fault::AvtFault;
use spec_static::TemplateRefusal;
use std::alloc::Global;
use std::mem;
use xp_parse::{ParseFault, parse};
use xt_names::Scope;
use xt_syntax::{Avt, AvtPart, Expr};
use xt_text::{Memory, Text};

/// What was read of a value template so far.
#[derive(Drop)]
pub struct Parts {
    parts: Vec<AvtPart>,
    /// The characters behind the last of the parts.
    text: Text,
    /// The least refusal so far. Where there is one, the parts do not count.
    refused: Option<TemplateRefusal>,
}

/// The lesser of two refusals.
fn least(one: TemplateRefusal, other: TemplateRefusal) -> TemplateRefusal
    ensures { result ≡ grammar.least one other }
{
    if other.code().number() < one.code().number() {
        other
    } else {
        one
    }
}

/// Adds the text as a part of its own, where it is not empty.
fn push_text(parts: &mut Vec<AvtPart>, text: Text) -> Result<(), Memory>
    ensures { OnOk result ((more : List plain.AvtPart) → begins_text more ≡ false → map avt_part_of parts.new.items ++ more ≡ map avt_part_of parts.old.items ++ with_text text more) }
{
    if text.is_empty() {
        return Ok(());
    }
    parts.push(AvtPart::Text(text))?;
    Ok(())
}

impl Parts {
    /// Nothing is read yet. Takes no memory.
    pub fn new(alloc: Global) -> Parts
        ensures { (r : Result (List plain.AvtPart) TemplateRefusal) → all_with result r ≡ r }
    {
        Parts {
            parts: Vec::new(alloc),
            text: Text::new(alloc),
            refused: None,
        }
    }

    /// Notes a refusal.
    fn refuse(&mut self, why: TemplateRefusal)
        ensures { (r : Result (List plain.AvtPart) TemplateRefusal) → all_with self.old (refused why r) ≡ all_with self.new r }
    {
        self.refused = match self.refused {
            Some(before) => Some(least(before, why)),
            None => Some(why),
        };
    }

    /// Adds a character.
    fn push_character(&mut self, character: char) -> Result<(), Memory>
        ensures { OnOk result ((r : Result (List plain.AvtPart) TemplateRefusal) → all_with self.old (on_parts (with_character character) r) ≡ all_with self.new r) }
    {
        self.text.push(character)
    }

    /// Adds an expression.
    fn push_value(&mut self, alloc: Global, value: Expr) -> Result<(), Memory>
        ensures { OnOk result ((r : Result (List plain.AvtPart) TemplateRefusal) → all_with self.old (with_value (Ok (expr_of value)) r) ≡ all_with self.new r) }
    {
        let text = mem::replace(&mut self.text, Text::new(alloc));
        push_text(&mut self.parts, text)?;
        self.parts.push(AvtPart::Expr(value))?;
        Ok(())
    }

    /// Adds what stands between braces, or notes the refusal of what is no expression.
    fn push_enclosed(&mut self, alloc: Global, text: &str, scope: &Scope) -> Result<(), Memory>
        ensures { OnOk result ((ps : List grammar.Piece) → (r : Result (List plain.AvtPart) TemplateRefusal) → Comes scope.now self.new ps r → Comes scope.now self.old (grammar.Enclosed (chars text.now) ∷ ps) r) }
    {
        match parse(alloc, text, scope) {
            Ok(value) => self.push_value(alloc, value),
            Err(ParseFault::Refused(why)) => {
                self.refuse(TemplateRefusal::AnExpression(why));
                Ok(())
            }
            Err(ParseFault::Memory) => Err(Memory),
        }
    }

    /// Adds a piece.
    pub fn push(&mut self, alloc: Global, piece: Piece<'_>, scope: &Scope) -> Result<(), Memory>
        ensures { OnOk result ((ps : List grammar.Piece) → (r : Result (List plain.AvtPart) TemplateRefusal) → Comes scope.now self.new ps r → Comes scope.now self.old (piece_of piece.entry ∷ ps) r) }
    {
        match piece {
            Piece::Character(character) => self.push_character(character),
            Piece::Enclosed(text) => self.push_enclosed(alloc, text, scope),
            Piece::Stray => {
                self.refuse(TemplateRefusal::Braces);
                Ok(())
            }
        }
    }

    /// The tree of what was read, or the least refusal.
    pub fn finish(self) -> Result<Avt, AvtFault>
        ensures { Finishes (all_with self (Ok [])) result }
    {
        if let Some(why) = self.refused {
            return Err(AvtFault::Refused(why));
        }
        let mut parts = self.parts;
        push_text(&mut parts, self.text)?;
        Ok(Avt { parts })
    }
}
