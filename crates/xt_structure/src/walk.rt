// The walk over the nodes of a module: the first fault in document order.
ghost use Rattle.std.specs.Prelude.{◌≡◌, ◌||◌, ◌++◌, ◌∷◌, [], IfOk, map};
ghost use Rattle.std.specs.Str.{chars};
ghost use Rattle.spec_structure.specs.Elements as elements;
ghost use Rattle.spec_structure.specs.Inside as scopes;
ghost use Rattle.spec_structure.specs.Structure as spec;
ghost use Rattle.xt_structure.specs.View.{faults_in, in_force, visit_in};
ghost use Rattle.xt_structure.specs.Visit as visits;
ghost use Rattle.xt_tree.specs.View.{forest_of, tree_of, written_of};

use crate::code::{after_role, content_by, element_code};
use crate::fault::{Fault, below};
use crate::inside::{Inside, inside_of, role_of};
use crate::table::{after_other, takes_text};
use crate::text::is_white;
use spec_expression::StaticCode;
use spec_structure::ContentKind;
use std::alloc::Global;
use std::rc::Rc;
use xt_text::{Memory, Path, Text};
use xt_tree::{Content, Node, Written};

/// What is said of an element by itself.
#[derive(Clone, Copy)]
pub(crate) enum Verdict {
    /// The least code that stands at it.
    Fault(StaticCode),
    /// It is skipped with all in it.
    Skips,
    /// What may stand among its children.
    Holds(ContentKind),
}

/// What is said of an element by itself, and what may stand after it.
#[derive(Clone, Copy)]
pub(crate) struct Judged {
    pub(crate) verdict: Verdict,
    pub(crate) after: ContentKind,
}

/// What is said of a node with all below it.
#[derive(Drop)]
pub(crate) enum Visit {
    /// The first fault.
    Fault(Fault),
    /// What may stand after it, for it has no fault.
    Next(ContentKind),
}

fn verdict_by(code: Option<StaticCode>, below: Option<ContentKind>) -> Verdict
    ensures { result ≡ visits.verdict_by code below }
{
    match code {
        Some(code) => Verdict::Fault(code),
        None => match below {
            None => Verdict::Skips,
            Some(below) => Verdict::Holds(below),
        },
    }
}

// What is said of an element of this name, where `inside` is in force inside it.
fn judge(
    alloc: Global,
    inside: &Inside,
    kind: ContentKind,
    name: &str,
    attributes: &[Written],
    children: &[Rc<Node>],
) -> Result<Judged, Memory>
    ensures verdict { IfOk result (λ judged. judged.verdict ≡ visits.verdict_of (in_force inside.now) kind (scopes.role_of (in_force inside.now) (chars name.now)) (map written_of attributes.now) (forest_of children.now)) }
    ensures after { IfOk result (λ judged. judged.after ≡ spec.after_role kind (scopes.role_of (in_force inside.now) (chars name.now))) }
{
    let role = role_of(inside, name);
    let code = element_code(alloc, inside, kind, &role, attributes, children)?;
    let below = content_by(kind, &role);
    let after = after_role(kind, &role);
    Ok(Judged {
        verdict: verdict_by(code, below),
        after,
    })
}

fn after(found: Option<Fault>, next: ContentKind) -> Visit
    ensures { visit_in result ≡ visits.after next (faults_in found) }
{
    match found {
        None => Visit::Next(next),
        Some(fault) => Visit::Fault(fault),
    }
}

fn after_text(kind: ContentKind, text: &Text) -> ContentKind
    ensures { result ≡ spec.after_text kind text.now }
{
    if is_white(text) {
        kind
    } else {
        after_other(kind)
    }
}

fn may_stand(kind: ContentKind, text: &Text) -> bool
    ensures { result ≡ (elements.takes_text kind || scopes.is_white text.now) }
{
    takes_text(kind) || is_white(text)
}

fn text_fault(kind: ContentKind, path: Path, text: &Text) -> Option<Fault>
    ensures { faults_in result ≡ spec.text_fault kind path text.now }
{
    if may_stand(kind, text) {
        return None;
    }
    Some(Fault {
        code: StaticCode::MisplacedContent,
        path,
    })
}

fn visit_text(
    alloc: Global,
    kind: ContentKind,
    path: &Path,
    position: u64,
    text: &Text,
) -> Result<Visit, Memory>
    ensures { IfOk result (λ visit. visit_in visit ≡ visits.after (spec.after_text kind text.now) (spec.text_fault kind (path.now ++ position ∷ []) text.now)) }
{
    let here = below(alloc, path, position)?;
    Ok(after(text_fault(kind, here, text), after_text(kind, text)))
}

// What is said of the node that has this position below the element at this path.
#[cycle(fault_among)]
fn visit_node(
    alloc: Global,
    outer: &Inside,
    kind: ContentKind,
    path: &Path,
    position: u64,
    node: &Node,
) -> Result<Visit, Memory>
    ensures { IfOk result (λ visit. visit_in visit ≡ visits.visited (in_force outer.now) kind path.now position (tree_of node.now).content (tree_of node.now).children) }
{
    match node.content() {
        Content::Element { name, attributes } => {
            let inside = inside_of(alloc, outer, name.as_str(), attributes.as_slice())?;
            let judged = judge(
                alloc,
                &inside,
                kind,
                name.as_str(),
                attributes.as_slice(),
                node.children(),
            )?;
            let here = below(alloc, path, position)?;
            match judged.verdict {
                Verdict::Fault(code) => Ok(Visit::Fault(Fault { code, path: here })),
                Verdict::Skips => Ok(Visit::Next(judged.after)),
                Verdict::Holds(kind) => {
                    let found = fault_among(alloc, &inside, kind, &here, node.children())?;
                    Ok(after(found, judged.after))
                }
            }
        }
        Content::Text { text } => visit_text(alloc, kind, path, position, text),
        Content::Comment { .. } => Ok(Visit::Next(kind)),
        Content::Instruction { .. } => Ok(Visit::Next(kind)),
    }
}

/// The first fault among these siblings below the element at this path.
#[cycle(fault_among)]
pub(crate) fn fault_among(
    alloc: Global,
    inside: &Inside,
    kind: ContentKind,
    path: &Path,
    siblings: &[Rc<Node>],
) -> Result<Option<Fault>, Memory>
    ensures { IfOk result (λ found. faults_in found ≡ spec.fault_among (in_force inside.now) kind path.now 1 (forest_of siblings.now)) }
{
    let mut kind = kind;
    for (i, sibling) in siblings.iter().enumerate() {
        match visit_node(alloc, inside, kind, path, i as u64 + 1, sibling)? {
            Visit::Fault(fault) => return Ok(Some(fault)),
            Visit::Next(next) => kind = next,
        }
    }
    Ok(None)
}
