// What a node is called, in a mode, as a key of a map.
ghost use Rattle.std.specs.Prelude.{◌≡◌, ◌++◌, fold, IfOk};
ghost use Rattle.std.specs.Cmp.{on_equiv, on_per};
ghost use Rattle.spec_transform.specs.Choice.{same_mode};
ghost use Rattle.xt_match.specs.CalledIn as spec;
ghost use Rattle.xt_match.specs.CalledIn.{fed_called, fed_name, same_called, same_calleds, same_calleds_partly, same_fed_called};

use spec_document::Kind;
use std::alloc::Global;
use std::hash::{Hash, Hasher};
use xt_names::{Expanded, copy_name_if};
use xt_text::Memory;

/// What a node is called, in a mode.
#[derive(Drop)]
pub(crate) struct CalledKey {
    pub(crate) mode: Option<Expanded>,
    pub(crate) kind: Kind,
    pub(crate) name: Option<Expanded>,
}

/// The key of these. It shares the memory of the names.
pub(crate) fn key_of(
    alloc: Global,
    mode: &Option<Expanded>,
    kind: Kind,
    name: &Option<Expanded>,
) -> Result<CalledKey, Memory>
    ensures mode { IfOk result (λ key. key.mode ≡ mode.now) }
    ensures kind { IfOk result (λ key. key.kind ≡ kind) }
    ensures name { IfOk result (λ key. key.name ≡ name.now) }
{
    let mode = copy_name_if(alloc, mode)?;
    let name = copy_name_if(alloc, name)?;
    Ok(CalledKey { mode, kind, name })
}

/// Whether both are the same name, or none.
pub(crate) fn same_name_if(one: &Option<Expanded>, other: &Option<Expanded>) -> bool
    ensures { result ≡ same_mode one.now other.now }
{
    match (one, other) {
        (None, None) => true,
        (Some(one), Some(other)) => one.same(other),
        _ => false,
    }
}

fn kind_number(kind: Kind) -> u64
    ensures { result ≡ spec.kind_number kind }
{
    match kind {
        Kind::Root => 0,
        Kind::Element => 1,
        Kind::Attribute => 2,
        Kind::Namespace => 3,
        Kind::Text => 4,
        Kind::Comment => 5,
        Kind::Instruction => 6,
    }
}

impl PartialEq for CalledKey {
    ghost eq = { λ a b. same_called (record { mode = a.mode; kind = a.kind; name = a.name }) (record { mode = b.mode; kind = b.kind; name = b.name }) };

    ghost laws = { on_per (λ k. record { mode = k.mode; kind = k.kind; name = k.name }) same_calleds_partly };

    fn eq(&self, other: &CalledKey) -> bool {
        same_name_if(&self.mode, &other.mode)
            && kind_number(self.kind) == kind_number(other.kind)
            && same_name_if(&self.name, &other.name)
    }
}

impl Eq for CalledKey {
    ghost laws = { on_equiv (λ k. record { mode = k.mode; kind = k.kind; name = k.name }) same_calleds };
}

// Kinds are not hashed: few nodes of two kinds are called alike.
impl Hash for CalledKey {
    ghost hash_input = { λ k. fed_called (record { mode = k.mode; kind = k.kind; name = k.name }) };

    ghost respects_eq = { λ a b e. same_fed_called (record { mode = a.mode; kind = a.kind; name = a.name }) (record { mode = b.mode; kind = b.kind; name = b.name }) e };

    fn hash<H: Hasher>(&self, state: &mut H) {
        hash_name(&self.mode, state);
        hash_name(&self.name, state);
    }
}

fn hash_name<H: Hasher>(name: &Option<Expanded>, state: &mut H)
    ensures { state.new ≡ fold H.write state.old (fed_name name.now) }
{
    match name {
        None => {}
        Some(name) => {
            name.uri().as_str().hash(state);
            name.local().as_str().hash(state);
        }
    }
}
