// The calls that are under way, and what stood in their place in the last run.
use crate::Pool;
use std::alloc::Global;
use xt_engine::Call;
use xt_text::Memory;

// So many records of what was entered are looked at for one that stood in a call's place.
const NEAR: usize = 4;

/// A call under way.
#[derive(Drop)]
struct Frame {
    // What is kept of what it enters stands from here on among what this run keeps.
    mark: usize,
    // The turn of the record that stood in its place in the last run.
    before: Option<usize>,
    // The turns of the records of what was entered there, the first at the end.
    ahead: Vec<usize>,
}

/// The calls under way, each within the one before it. They are hints: nothing of what is served depends on them.
#[derive(Drop)]
pub(crate) struct Frames {
    list: Vec<Frame>,
}

impl Frames {
    /// None is under way; what stood outermost in the last run is ahead.
    pub(crate) fn new(alloc: Global, last: &Pool) -> Result<Frames, Memory> {
        let mut list = Vec::new(alloc);
        let ahead = last.turns_of_all(alloc)?;
        list.push(Frame {
            mark: 0,
            before: None,
            ahead,
        })?;
        Ok(Frames { list })
    }

    /// A call is under way, where so many records are kept. The turn of the record that stood in its place, if one did.
    pub(crate) fn open(
        &mut self,
        alloc: Global,
        last: &Pool,
        call: &Call,
        count: usize,
    ) -> Result<Option<usize>, Memory> {
        let before = self.next_at(last, call);
        self.list.push(Frame {
            mark: count,
            before,
            ahead: Vec::new(alloc),
        })?;
        Ok(before)
    }

    // The turn of the next record that stood there and has the key of this call. Those before it are passed over.
    fn next_at(&mut self, last: &Pool, call: &Call) -> Option<usize> {
        let frame = self.list.last_mut()?;
        let (left, turn) = nearest(frame.ahead.as_slice(), last, call)?;
        frame.ahead.truncate(left);
        Some(turn)
    }

    /// The innermost call goes along the record at this turn of the last run; where there is none, it is run.
    pub(crate) fn go_along(
        &mut self,
        alloc: Global,
        last: &Pool,
        turn: Option<usize>,
        count: usize,
    ) -> Result<(), Memory> {
        let Some(frame) = self.list.last_mut() else {
            return Ok(());
        };
        frame.mark = count;
        let along = match turn {
            Some(turn) => Some(turn),
            None => frame.before,
        };
        frame.ahead = match along {
            Some(turn) => last.turns_below(alloc, turn)?,
            None => Vec::new(alloc),
        };
        Ok(())
    }

    /// The turn of the record that stood in place of the innermost call, if one did.
    pub(crate) fn in_place(&self) -> Option<usize> {
        self.list.last()?.before
    }

    /// The innermost call is done with. From where on what it entered is kept.
    pub(crate) fn close(&mut self, count: usize) -> usize {
        match self.list.pop() {
            None => count,
            Some(frame) => frame.mark,
        }
    }
}

// How many of these turns are left behind the first near the end whose record has the key of this call, and that turn.
fn nearest(ahead: &[usize], last: &Pool, call: &Call) -> Option<(usize, usize)> {
    let mut left = ahead.len();
    let least = left.saturating_sub(NEAR);
    while left > least {
        left = left - 1;
        let turn = ahead[left];
        if last.is_at(turn, call) {
            return Some((left, turn));
        }
    }
    None
}
