// Instructions, each named by a word `KIND:EXPRESSION`: `text`, `value-of`, `copy-of`, `number`, `count`,
// `apply-imports`, `fallback`, `literal`, `element`, `attribute`, `comment`, `instruction`, `copy`, `variable`,
// `message`, `for-each`, `if`, `choose`, `apply-templates`, `call-template`. `instructions-differ WORD..` tells
// whether each is the same as itself and as no other one. Those that have a content have one text in it.

use crate::trees::parsed;
use cases::{Fault, Word, one, text_of};
use std::alloc::Global;
use std::rc::Rc;
use xt_names::{Expanded, Scope};
use xt_syntax::{
    Avt, AvtPart, Binding, Branch, Control, Count, Form, Instr, LiteralTag, MadeName, NumberLevel,
    NumberSource, Numbering, Place, Selection, Site, SortKey, WithContent, WithoutContent,
};
use xt_text::{Memory, Path, Text};

/// Whether each instruction is the same as itself and as no other one.
pub fn differ(alloc: Global, words: &[Word]) -> Result<bool, Fault> {
    let mut instrs = Vec::new(alloc);
    for word in words {
        let instr = instruction(alloc, text_of(word)?)?;
        instrs.push(instr)?;
    }
    Ok(all_differ(instrs.as_slice()))
}

fn all_differ(instrs: &[Instr]) -> bool {
    for (index, instr) in instrs.iter().enumerate() {
        for (other_index, other) in instrs.iter().enumerate() {
            if instr.same(other) != (index == other_index) {
                return false;
            }
        }
    }
    true
}

/// An instruction by its word.
pub fn instruction(alloc: Global, word: &str) -> Result<Instr, Fault> {
    let (kind, rest) = word.split_once(':').ok_or(Fault::NoCase)?;
    let site = site(alloc)?;
    let form = form(alloc, kind, rest)?;
    Ok(Instr { site, form })
}

/// What is no node of a stylesheet, with no prefix in scope but `xml`.
pub fn nowhere(alloc: Global) -> Result<Site, Memory> {
    let scope = Scope::root(alloc)?;
    let place = Place {
        module: None,
        path: Path::new(alloc),
    };
    Ok(Site { place, scope })
}

// The element `main/1`, with no prefix in scope but `xml`.
fn site(alloc: Global) -> Result<Site, Memory> {
    let mut path = Path::new(alloc);
    path.push(1)?;
    let module = Text::from_str(alloc, "main")?;
    let scope = Scope::root(alloc)?;
    let place = Place {
        module: Some(module),
        path,
    };
    Ok(Site { place, scope })
}

/// The name in no namespace.
pub fn name(alloc: Global, local: &str) -> Result<Expanded, Memory> {
    let local = Text::from_str(alloc, local)?;
    Ok(Expanded::new(Text::new(alloc), local))
}

fn form(alloc: Global, kind: &str, rest: &str) -> Result<Form, Fault> {
    match kind {
        "text" => Ok(Form::WithoutContent(WithoutContent::Text(
            Text::from_str(alloc, rest)?,
            true,
        ))),
        "value-of" => Ok(Form::WithoutContent(WithoutContent::ValueOf(parsed(alloc, rest)?))),
        "copy-of" => Ok(Form::WithoutContent(WithoutContent::CopyOf(parsed(alloc, rest)?))),
        "number" => {
            let format = template(alloc, "1")?;
            Ok(numbering(NumberSource::Value(parsed(alloc, rest)?), format))
        }
        "count" => {
            let format = template(alloc, "1")?;
            Ok(numbering(NumberSource::Count(count(rest)?), format))
        }
        "apply-imports" => Ok(Form::WithoutContent(WithoutContent::ApplyImports)),
        "fallback" => Ok(Form::WithoutContent(WithoutContent::Fallback)),
        _ => control(alloc, kind, rest),
    }
}

/// A content of one text.
pub fn content(alloc: Global) -> Result<Rc<Vec<Instr>>, Memory> {
    let text = Text::from_str(alloc, "x")?;
    let site = nowhere(alloc)?;
    let form = Form::WithoutContent(WithoutContent::Text(text, false));
    let content = one(alloc, Instr { site, form })?;
    Ok(Rc::new(alloc, content)?)
}

fn numbering(source: NumberSource, format: Avt) -> Form {
    Form::WithoutContent(WithoutContent::Number(Numbering {
        source,
        format,
        grouping_separator: None,
        grouping_size: None,
    }))
}

fn count(level: &str) -> Result<Count, Fault> {
    let level = match level {
        "single" => NumberLevel::Single,
        "multiple" => NumberLevel::Multiple,
        "any" => NumberLevel::Any,
        _ => return Err(Fault::NoCase),
    };
    Ok(Count {
        level,
        count: None,
        from: None,
    })
}

// A value template of one text.
fn template(alloc: Global, text: &str) -> Result<Avt, Memory> {
    let text = Text::from_str(alloc, text)?;
    let parts = one(alloc, AvtPart::Text(text))?;
    Ok(Avt { parts })
}

fn literal(alloc: Global, local: &str) -> Result<LiteralTag, Memory> {
    Ok(LiteralTag {
        prefix: Text::new(alloc),
        name: name(alloc, local)?,
        namespaces: Vec::new(alloc),
        sets: Vec::new(alloc),
        attributes: Vec::new(alloc),
    })
}

fn made_name(alloc: Global, text: &str) -> Result<MadeName, Memory> {
    Ok(MadeName {
        name: template(alloc, text)?,
        namespace: None,
    })
}

fn control(alloc: Global, kind: &str, rest: &str) -> Result<Form, Fault> {
    match kind {
        "for-each" => {
            let content = content(alloc)?;
            let keys = Rc::new(alloc, Vec::new(alloc))?;
            let select = parsed(alloc, rest)?;
            Ok(Form::Control(Control::ForEach(select, keys, content)))
        }
        "for-items" => {
            let parameters = one(alloc, binding(alloc, rest)?)?;
            let parameters = Rc::new(alloc, parameters)?;
            let keys = Rc::new(alloc, Vec::new(alloc))?;
            let select = parsed(alloc, rest)?;
            let name = name(alloc, "t")?;
            Ok(Form::Control(Control::ForItems(select, keys, name, parameters)))
        }
        "if" => {
            let content = content(alloc)?;
            let test = parsed(alloc, rest)?;
            Ok(Form::Control(Control::If(test, content)))
        }
        "choose" => choose(alloc, rest),
        "apply-templates" => apply_templates(alloc, rest),
        "call-template" => {
            let parameters = one(alloc, binding(alloc, rest)?)?;
            let parameters = Rc::new(alloc, parameters)?;
            let name = name(alloc, "t")?;
            Ok(Form::Control(Control::CallTemplate(name, parameters)))
        }
        _ => {
            let content = content(alloc)?;
            let made = with_content(alloc, kind, rest)?;
            Ok(Form::WithContent(made, content))
        }
    }
}

fn with_content(alloc: Global, kind: &str, rest: &str) -> Result<WithContent, Fault> {
    match kind {
        "literal" => Ok(WithContent::Literal(literal(alloc, rest)?)),
        "element" => Ok(WithContent::Element(made_name(alloc, rest)?, Vec::new(alloc))),
        "attribute" => Ok(WithContent::Attribute(made_name(alloc, rest)?)),
        "comment" => Ok(WithContent::Comment),
        "instruction" => Ok(WithContent::ProcessingInstruction(template(alloc, rest)?)),
        "copy" => Ok(WithContent::Copy(one(alloc, name(alloc, rest)?)?)),
        "variable" => Ok(WithContent::Variable(name(alloc, rest)?, None)),
        "message" => Ok(WithContent::Message(rest == "yes")),
        _ => Err(Fault::NoCase),
    }
}

fn choose(alloc: Global, test: &str) -> Result<Form, Fault> {
    let content = content(alloc)?;
    let site = nowhere(alloc)?;
    let test = parsed(alloc, test)?;
    let branch = Branch {
        site,
        test: Some(test),
        content,
    };
    let branches = one(alloc, branch)?;
    let branches = Rc::new(alloc, branches)?;
    Ok(Form::Control(Control::Choose(branches)))
}

// Sorted by the string-value.
fn apply_templates(alloc: Global, select: &str) -> Result<Form, Fault> {
    let parameters = Rc::new(alloc, Vec::new(alloc))?;
    let keys = Rc::new(alloc, one(alloc, sort_key(alloc)?)?)?;
    let select = parsed(alloc, select)?;
    let selection = Selection {
        select,
        mode: None,
        keys,
    };
    Ok(Form::Control(Control::ApplyTemplates(selection, parameters)))
}

fn sort_key(alloc: Global) -> Result<SortKey, Fault> {
    let data_type = template(alloc, "text")?;
    let site = nowhere(alloc)?;
    let select = parsed(alloc, ".")?;
    Ok(SortKey {
        site,
        select,
        data_type,
        order: Avt {
            parts: Vec::new(alloc),
        },
    })
}

/// A parameter `v` that selects the value of this expression.
pub fn binding(alloc: Global, select: &str) -> Result<Binding, Fault> {
    let content = Rc::new(alloc, Vec::new(alloc))?;
    let name = name(alloc, "v")?;
    let site = nowhere(alloc)?;
    let select = parsed(alloc, select)?;
    Ok(Binding {
        site,
        name,
        select: Some(select),
        content,
    })
}
