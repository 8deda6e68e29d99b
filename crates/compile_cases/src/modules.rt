// The modules of cases.
use cases::{Fault, Word, built, text_of};
use indexmap::IndexMap;
use std::alloc::Global;
use xt_build::Line;
use xt_text::{Memory, Text};
use xt_tree::Doc;

// What stands around the nodes of a module.
#[derive(Clone, Copy)]
enum Kind {
    Module,
    Sheet,
    Body,
}

// A module that is read: its name, its lines so far, and the names of the elements that are open.
#[derive(Drop)]
struct Source {
    name: Text,
    lines: Vec<Line>,
    open: Vec<Text>,
}

/// The modules that these words tell of.
pub fn modules_of(alloc: Global, words: &[Word]) -> Result<IndexMap<String, Doc>, Fault> {
    let sources = sources_of(alloc, words)?;
    let mut modules = IndexMap::new(alloc);
    for source in sources {
        hold(alloc, &mut modules, source)?;
    }
    Ok(modules)
}

fn hold(alloc: Global, modules: &mut IndexMap<String, Doc>, source: Source) -> Result<(), Fault> {
    let mut source = source;
    source.end_all(alloc)?;
    let key = String::from_str(alloc, source.name.as_str())?;
    let document = built(alloc, source.lines.as_slice())?;
    modules.insert(key, document)?;
    Ok(())
}

fn sources_of(alloc: Global, words: &[Word]) -> Result<Vec<Source>, Fault> {
    let mut sources = Vec::new(alloc);
    for word in words {
        let text = text_of(word)?;
        add(alloc, &mut sources, text)?;
    }
    Ok(sources)
}

// Begins a module, or adds to the last one.
fn add(alloc: Global, sources: &mut Vec<Source>, text: &str) -> Result<(), Fault> {
    match beginning(text) {
        Some((kind, name)) => {
            let source = begun(alloc, kind, name)?;
            sources.push(source)?;
            Ok(())
        }
        None => match sources.last_mut() {
            None => Err(Fault::NoCase),
            Some(source) => source.add(alloc, text),
        },
    }
}

fn beginning(text: &str) -> Option<(Kind, &str)> {
    let (kind, name) = text.split_once(':')?;
    match kind {
        "module" => Some((Kind::Module, name)),
        "sheet" => Some((Kind::Sheet, name)),
        "body" => Some((Kind::Body, name)),
        _ => None,
    }
}

fn begun(alloc: Global, kind: Kind, name: &str) -> Result<Source, Memory> {
    let mut source = Source {
        name: Text::from_str(alloc, name)?,
        lines: Vec::new(alloc),
        open: Vec::new(alloc),
    };
    source.begin(alloc, kind)?;
    Ok(source)
}

impl Source {
    fn begin(&mut self, alloc: Global, kind: Kind) -> Result<(), Memory> {
        match kind {
            Kind::Module => Ok(()),
            Kind::Sheet => self.start_sheet(alloc),
            Kind::Body => self.start_body(alloc),
        }
    }

    fn start_sheet(&mut self, alloc: Global) -> Result<(), Memory> {
        self.start(alloc, "xsl:", "stylesheet")?;
        self.push(alloc, "Aversion 1.0")?;
        self.push(alloc, "Axmlns:xsl http://www.w3.org/1999/XSL/Transform")
    }

    fn start_body(&mut self, alloc: Global) -> Result<(), Memory> {
        self.start_sheet(alloc)?;
        self.start(alloc, "xsl:", "template")?;
        self.push(alloc, "Amatch /")
    }

    // Adds what a word says.
    fn add(&mut self, alloc: Global, text: &str) -> Result<(), Fault> {
        if text == ")" {
            return self.end(alloc);
        }
        if let Some(attribute) = text.strip_prefix("@") {
            return self.attribute(alloc, attribute);
        }
        if let Some(name) = text.strip_prefix("<") {
            return Ok(self.start(alloc, "xsl:", name)?);
        }
        if let Some(name) = text.strip_prefix("(") {
            return Ok(self.start(alloc, "", name)?);
        }
        Ok(self.push(alloc, text)?)
    }

    fn start(&mut self, alloc: Global, prefix: &str, local: &str) -> Result<(), Memory> {
        let mut name = Text::from_str(alloc, prefix)?;
        name.push_str(local)?;
        self.push_marked(alloc, "(", &name)?;
        self.open.push(name)?;
        Ok(())
    }

    // Ends the last element that is open.
    fn end(&mut self, alloc: Global) -> Result<(), Fault> {
        match self.open.pop() {
            None => Err(Fault::NoCase),
            Some(name) => Ok(self.push_marked(alloc, ")", &name)?),
        }
    }

    fn end_all(&mut self, alloc: Global) -> Result<(), Fault> {
        for _ in 0..self.open.len() {
            self.end(alloc)?;
        }
        Ok(())
    }

    fn attribute(&mut self, alloc: Global, text: &str) -> Result<(), Fault> {
        let (name, value) = text.split_once('=').ok_or(Fault::NoCase)?;
        let mut line = Text::from_str(alloc, "A")?;
        line.push_str(name)?;
        line.push(' ')?;
        line.push_str(value)?;
        Ok(self.push(alloc, line.as_str())?)
    }

    fn push_marked(&mut self, alloc: Global, mark: &str, name: &Text) -> Result<(), Memory> {
        let mut line = Text::from_str(alloc, mark)?;
        line.push_str(name.as_str())?;
        self.push(alloc, line.as_str())
    }

    fn push(&mut self, alloc: Global, text: &str) -> Result<(), Memory> {
        let line = Line::new(alloc, text.as_bytes())?;
        self.lines.push(line)?;
        Ok(())
    }
}
