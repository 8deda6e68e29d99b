// What a call writes with all that it entered.
ghost use Rattle.std.specs.Prelude.{◌≡◌, [], true, length, IfOk};
ghost use Rattle.spec_meaning.specs.Stream as stream;
ghost use Rattle.spec_result.specs.Recovery.{messages_of};
ghost use Rattle.xt_tree.specs.StreamView.{stream_of, streams_of};

use std::alloc::Global;
use std::rc::Rc;
use xt_result::is_silent;
use xt_text::Memory;
use xt_tree::Items;

/// The stream with these parts in its holes. One that has none is shared: most records that serve enter nothing, and what
/// they wrote is not made anew.
///
/// # Errors
/// Want of memory.
pub fn with_parts(
    alloc: Global,
    items: &Rc<Items>,
    parts: &[Rc<Items>],
) -> Result<Rc<Items>, Memory>
    requires { stream.holes (stream_of items.now.value) ≡ length parts.now }
    ensures { IfOk result (λ whole. stream_of whole.value ≡ stream.filled (stream_of items.now.value) (streams_of parts.now)) }
{
    if parts.is_empty() {
        return Ok(items.clone()?);
    }
    items.fill(alloc, parts)
}

/// Whether there is no message in a stream, nor in the parts that are to stand in its holes. The stream is looked at only
/// where there is none in these.
pub fn is_silent_with(items: &Items, are_silent: bool) -> bool
    ensures parts { result ≡ true → are_silent ≡ true }
    ensures own { result ≡ true → messages_of (stream_of items.now) ≡ [] }
{
    if !are_silent {
        return false;
    }
    is_silent(items)
}

/// Whether both are silent.
pub(crate) fn both(one: bool, other: bool) -> bool
    ensures one { result ≡ true → one ≡ true }
    ensures other { result ≡ true → other ≡ true }
{
    one && other
}
