// A global that was refused on the way along a record, which then does not serve. The engine that runs the call needs it
// too, and is given what came of it in place of evaluating it again: else each level would double what is evaluated.
ghost use Rattle.std.specs.Prelude.{◌≡◌, true, is_some, IfOk, IfSome};
ghost use Rattle.xt_syntax.specs.PartView.{place_of};
ghost use Rattle.xt_driver.specs.Along.{refuses};
ghost use Rattle.xt_driver.specs.Lost.{is_lost, is_to, IsOfReference, IsNeededAgain, IsGivenAgain, IsRefusal};

use crate::level::Needed;
use crate::memo::Referred;
use std::alloc::Global;
use xt_engine::Entered;
use xt_text::Memory;

/// A reference to a global that was refused.
#[derive(Drop)]
pub struct LostReference {
    pub needed: Box<Needed>,
    /// How many levels were left for it.
    pub levels: u64,
    pub referred: Box<Referred>,
}

/// What was refused.
#[derive(Drop)]
pub enum Lost {
    Nothing,
    Reference(Box<LostReference>),
}

/// What came of the reference with so many levels, where it is what was refused.
pub fn regained_reference(
    alloc: Global,
    lost: &Lost,
    needed: &Needed,
    levels: u64,
) -> Result<Option<Box<Referred>>, Memory>
    ensures again { IfOk result (λ r. IfSome r (λ x. IsOfReference lost.now needed.now levels x.value)) }
    ensures lost { IfOk result (λ r. IsRefusal lost.now → is_some r ≡ is_lost lost.now needed.now.name levels (place_of needed.now.place)) }
{
    match lost {
        Lost::Reference(lost) => reference_again(alloc, lost, needed, levels),
        Lost::Nothing => Ok(None),
    }
}

// The same of one that was refused.
fn reference_again(
    alloc: Global,
    lost: &LostReference,
    needed: &Needed,
    levels: u64,
) -> Result<Option<Box<Referred>>, Memory>
    ensures again { IfOk result (λ r. IfSome r (λ x. IsNeededAgain lost.now needed.now levels x.value)) }
    ensures lost { IfOk result (λ r. refuses lost.now.referred.value.entered ≡ true → is_some r ≡ is_to lost.now needed.now.name levels (place_of needed.now.place)) }
{
    if lost.levels != levels {
        return Ok(None);
    }
    if !lost.needed.name.same(&needed.name) {
        return Ok(None);
    }
    if !lost.needed.place.same(&needed.place) {
        return Ok(None);
    }
    given_again(alloc, &lost.referred.entered)
}

// The same refusal, if it is one.
fn given_again(alloc: Global, entered: &Entered) -> Result<Option<Box<Referred>>, Memory>
    ensures again { IfOk result (λ r. IfSome r (λ x. IsGivenAgain entered.now x.value.entered)) }
    ensures refusal { IfOk result (λ r. is_some r ≡ refuses entered.now) }
{
    match entered {
        Entered::Refused(why, content) => {
            let content = content.clone()?;
            let entered = Entered::Refused(why.copy(alloc)?, content);
            let again = Referred { entered, spare: 0 };
            Ok(Some(Box::new(alloc, again)?))
        }
        Entered::Value(_) => Ok(None),
        Entered::Stream(_) => Ok(None),
        Entered::UnderWay => Ok(None),
    }
}
