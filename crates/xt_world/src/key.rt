// Names and places as keys of maps.
ghost use Rattle.std.specs.Prelude.{◌≡◌, ◌++◌, fold};
ghost use Rattle.std.specs.Cmp.{on_equiv, on_per};
ghost use Rattle.std.specs.Hash as fed;
ghost use Rattle.spec_document.specs.Name.{same_name};
ghost use Rattle.spec_run.specs.World.{same_element};
ghost use Rattle.xt_syntax.specs.PartView.{place_of};
ghost use Rattle.xt_world.specs.Sameness.{fed_module, fed_name, fed_place, same_elements, same_elements_partly, same_fed_name, same_fed_place, same_names, same_names_partly};

use std::hash::{Hash, Hasher};
use xt_base::Place;
use xt_names::Expanded;
use xt_text::Text;

/// An expanded name as a key of a map.
#[derive(Clone, Copy)]
pub(crate) struct NameKey<'a> {
    pub(crate) name: &'a Expanded,
}

/// A place as a key of a map.
#[derive(Clone, Copy)]
pub(crate) struct PlaceKey<'a> {
    pub(crate) place: &'a Place,
}

impl<'a> PartialEq for NameKey<'a> {
    ghost eq = { λ a b. same_name a.name.now b.name.now };

    ghost laws = { on_per (λ k. k.name.now) same_names_partly };

    fn eq(&self, other: &NameKey<'a>) -> bool {
        self.name.same(other.name)
    }
}

impl<'a> Eq for NameKey<'a> {
    ghost laws = { on_equiv (λ k. k.name.now) same_names };
}

impl<'a> Hash for NameKey<'a> {
    ghost hash_input = { λ k. fed_name k.name.now };

    ghost respects_eq = { λ a b e. same_fed_name a.name.now b.name.now e };

    fn hash<H: Hasher>(&self, state: &mut H) {
        self.name.uri().as_str().hash(state);
        self.name.local().as_str().hash(state);
    }
}

/// Whether both are the same place.
pub(crate) fn same_place(place: &Place, other: &Place) -> bool
    ensures { result ≡ same_element (place_of place.now) (place_of other.now) }
{
    place.same(other)
}

impl<'a> PartialEq for PlaceKey<'a> {
    ghost eq = { λ a b. same_element (place_of a.place.now) (place_of b.place.now) };

    ghost laws = { on_per (λ k. place_of k.place.now) same_elements_partly };

    fn eq(&self, other: &PlaceKey<'a>) -> bool {
        same_place(self.place, other.place)
    }
}

impl<'a> Eq for PlaceKey<'a> {
    ghost laws = { on_equiv (λ k. place_of k.place.now) same_elements };
}

impl<'a> Hash for PlaceKey<'a> {
    ghost hash_input = { λ k. fed_place (place_of k.place.now) };

    ghost respects_eq = { λ a b e. same_fed_place (place_of a.place.now) (place_of b.place.now) e };

    fn hash<H: Hasher>(&self, state: &mut H) {
        hash_module(&self.place.module, state);
        self.place.path.positions().hash(state);
    }
}

fn hash_module<H: Hasher>(module_name: &Option<Text>, state: &mut H)
    ensures { state.new ≡ fold H.write state.old (fed_module module_name.now) }
{
    match module_name {
        None => {}
        Some(name) => name.as_str().hash(state),
    }
}
