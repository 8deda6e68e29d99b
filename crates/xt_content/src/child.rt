// What a child is to the element that holds it.
ghost use Rattle.std.specs.Prelude.{◌≡◌, ◌++◌, [], IfOk, OnOk};
ghost use Rattle.spec_compile.specs.Content as spec;
ghost use Rattle.spec_stylesheet.specs.Instruction.{instrs};
ghost use Rattle.std.specs.Prelude.{map};
ghost use Rattle.xt_syntax.specs.InstrView.{instr_of};
ghost use Rattle.xt_content.specs.Kind.{parted};
ghost use Rattle.xt_content.specs.View.{added, below_in, child_if, child_in, children_in, element_if, one_in, outline_in, outlines, parts_in, parts_of};
ghost use Rattle.xt_content.specs.Visit.{before, followed};

use crate::outline::{Outline, Outlined};
use std::alloc::Global;
use std::rc::Rc;
use xt_syntax::{Binding, Branch, Instr, SortKey};
use xt_text::Memory;

/// What a child is to the element that holds it.
#[derive(Drop)]
pub enum Child {
    /// An instruction of its content.
    Instruction(Instr),
    /// An xsl:param or xsl:with-param (XSLT 1.0, section 11).
    Parameter(Binding),
    /// An xsl:sort (section 10).
    SortKey(SortKey),
    /// An xsl:when or xsl:otherwise (section 9.2).
    Branch(Branch),
}

/// The children of an element, and what the elements among them and below them name.
#[derive(Drop)]
pub struct Below {
    pub children: Vec<Child>,
    pub outline: Outline,
}

/// What one node among siblings is.
#[derive(Drop)]
pub(crate) struct One {
    pub(crate) child: Option<Child>,
    pub(crate) element: Option<Outlined>,
}

fn push_child(children: &mut Vec<Child>, child: Option<Child>) -> Result<(), Memory>
    ensures { OnOk result (children_in children.new.items ≡ children_in children.old.items ++ child_if child) }
{
    match child {
        None => Ok(()),
        Some(child) => {
            children.push(child)?;
            Ok(())
        }
    }
}

fn push_element(outline: &mut Outline, element: Option<Outlined>) -> Result<(), Memory>
    ensures { OnOk result (outline_in outline.new ≡ followed (outline_in outline.old) (outlines (element_if element))) }
{
    match element {
        None => Ok(()),
        Some(element) => {
            outline.elements.push(element)?;
            Ok(())
        }
    }
}

impl Below {
    /// Adds what a further node is. Want of memory alone is an error.
    pub(crate) fn push(&mut self, one: One) -> Result<(), Memory>
        ensures { OnOk result (below_in self.new ≡ before (below_in self.old) (one_in one)) }
    {
        let One { child, element } = one;
        let Ok(_) = push_child(&mut self.children, child) else {
            drop(element);
            return Err(Memory);
        };
        push_element(&mut self.outline, element)
    }

    /// Nothing.
    pub(crate) fn new(alloc: Global) -> Below
        ensures { below_in result ≡ spec.nothing_below }
    {
        Below {
            children: Vec::new(alloc),
            outline: Outline {
                elements: Vec::new(alloc),
            },
        }
    }
}

/// Children by what they are, each in their order.
#[derive(Drop)]
pub struct Parts {
    pub content: Vec<Instr>,
    pub parameters: Vec<Binding>,
    pub sort_keys: Vec<SortKey>,
    pub branches: Vec<Branch>,
}

impl Parts {
    fn new(alloc: Global) -> Parts
        ensures { parts_in result ≡ parted (children_in []) }
    {
        Parts {
            content: Vec::new(alloc),
            parameters: Vec::new(alloc),
            sort_keys: Vec::new(alloc),
            branches: Vec::new(alloc),
        }
    }

    fn push(&mut self, child: Child) -> Result<(), Memory>
        ensures { OnOk result (parts_in self.new ≡ added (parts_in self.old) (parts_of (child_in child))) }
    {
        match child {
            Child::Instruction(instruction) => {
                self.content.push(instruction)?;
                Ok(())
            }
            Child::Parameter(parameter) => {
                self.parameters.push(parameter)?;
                Ok(())
            }
            Child::SortKey(sort_key) => {
                self.sort_keys.push(sort_key)?;
                Ok(())
            }
            Child::Branch(branch) => {
                self.branches.push(branch)?;
                Ok(())
            }
        }
    }
}

/// The children by what they are. Want of memory alone is an error.
pub fn parted(alloc: Global, children: Vec<Child>) -> Result<Parts, Memory>
    ensures { IfOk result (λ parts. parts_in parts ≡ parted (children_in children.items)) }
{
    let mut parts = Parts::new(alloc);
    for child in children {
        parts.push(child)?;
    }
    Ok(parts)
}

/// The instructions among the children, in their order. Want of memory alone is an error.
pub fn content_in(alloc: Global, children: Vec<Child>) -> Result<Rc<Vec<Instr>>, Memory>
    ensures { IfOk result (λ content. instrs (map instr_of content.value.items) ≡ spec.content_in (children_in children.items)) }
{
    let parts = parted(alloc, children)?;
    Ok(Rc::new(alloc, parts.content)?)
}
