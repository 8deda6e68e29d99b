// Functions of texts (XPath 1.0, section 4.2).
ghost use Rattle.std.specs.Prelude.{◌≡◌, IfOk};
ghost use Rattle.std.specs.Str.{chars};
ghost use Rattle.spec_meaning.specs.Value as value;
ghost use Rattle.spec_meaning.specs.Call.{of_texts, text_of_argument};
ghost use Rattle.xt_tree.specs.ValueView.{value_of};

use spec_meaning::TextsFunction;
use std::alloc::Global;
use xp_text::{after, before, concat, contains, starts_with, translate};
use xt_text::{Memory, Text};
use xt_tree::Value;

/// What a function makes of texts.
pub(crate) fn of_texts(
    alloc: Global,
    function: TextsFunction,
    texts: &[Text],
) -> Result<Value, Memory>
    ensures { IfOk result (λ v. value_of v ≡ of_texts function texts.now) }
{
    match function {
        TextsFunction::Concat => {
            let whole = concat(alloc, texts)?;
            Ok(Value::Text(whole))
        }
        TextsFunction::StartsWith => {
            Ok(Value::Boolean(starts_with(text_at(texts, 0), text_at(texts, 1))))
        }
        TextsFunction::Contains => {
            Ok(Value::Boolean(contains(text_at(texts, 0), text_at(texts, 1))))
        }
        TextsFunction::SubstringBefore => {
            let front = before(alloc, text_at(texts, 0), text_at(texts, 1))?;
            Ok(Value::Text(front))
        }
        TextsFunction::SubstringAfter => {
            let back = after(alloc, text_at(texts, 0), text_at(texts, 1))?;
            Ok(Value::Text(back))
        }
        TextsFunction::Translate => {
            let text = translate(
                alloc,
                text_at(texts, 0),
                text_at(texts, 1),
                text_at(texts, 2),
            )?;
            Ok(Value::Text(text))
        }
    }
}

// The text of this number, from 0; the empty one where there is none.
fn text_at(texts: &[Text], number: usize) -> &str
    ensures { chars result.now ≡ text_of_argument texts.now number }
{
    if number < texts.len() {
        texts[number].as_str()
    } else {
        ""
    }
}
