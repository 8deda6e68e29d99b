// Whether events are balanced.
ghost use Rattle.std.specs.Prelude.{◌≡◌, [], map, reverse, None, IfOk, MatchOption, is_some, true};
ghost use Rattle.std.specs.Option.{option_map};
ghost use Rattle.spec_document.specs.Balance.{forest_of, unbalanced_line};
ghost use Rattle.spec_document.specs.Balance as spec;
ghost use Rattle.xt_build.specs.View.{located_of};

use crate::read::Located;
use std::alloc::Global;
use xt_pyx::Event;
use xt_text::{Memory, Text};

/// None where the events are balanced. Else the line of the first that may not follow those before it,
/// or 0 where an end is missing.
pub(crate) fn unbalanced(alloc: Global, events: &[Located]) -> Result<Option<u64>, Memory>
    ensures { IfOk result (λ found. MatchOption found (is_some (forest_of (map located_of events.now)) ≡ true)
        (λ line. (forest_of (map located_of events.now) ≡ None) × (unbalanced_line None [] (map located_of events.now) ≡ line))) }
{
    let mut open: Vec<&Text> = Vec::new(alloc);
    let mut before = None;
    for located in events {
        if !may_follow(before, open.as_slice(), &located.event) {
            return Ok(Some(located.line));
        }
        match &located.event {
            Event::Start { name } => open.push(name)?,
            Event::End { .. } => {
                let _ = open.pop();
            }
            _ => {}
        }
        before = Some(&located.event);
    }
    if open.is_empty() {
        Ok(None)
    } else {
        Ok(Some(0))
    }
}

// Whether the event may stand behind the one before it, where elements of these names are open, the
// innermost last: an end has the name of the innermost, and an attribute follows a start or an attribute.
fn may_follow(before: Option<&Event>, names: &[&Text], event: &Event) -> bool
    ensures { result ≡ spec.may_follow (option_map (λ e. e.now) before.entry) (reverse (map (λ name. name.now) names.now)) event.now }
{
    match event {
        Event::End { name } => match names.last() {
            None => false,
            Some(innermost) => name.same(innermost),
        },
        Event::Attribute { .. } => matches!(
            before,
            Some(Event::Start { .. } | Event::Attribute { .. })
        ),
        _ => true,
    }
}
