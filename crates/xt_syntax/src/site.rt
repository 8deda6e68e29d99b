// Where the elements of a stylesheet stand.
ghost use Rattle.std.specs.Prelude.{◌≡◌};
ghost use Rattle.std.specs.Bool.{Decides};
ghost use Rattle.xt_syntax.specs.PartView.{site_of};

use xt_base::Place;
use xt_names::Scope;

/// An element of a stylesheet: where it stands, and the namespaces in scope there, which names that stand in
/// texts need (XSLT 1.0, section 2.4). A scope is shared, so each element has its own at no cost.
#[derive(Drop)]
pub struct Site {
    pub place: Place,
    pub scope: Scope,
}

impl Site {
    /// Whether both are the same place with the same namespaces. Takes no memory.
    pub fn same(&self, other: &Site) -> bool
        ensures { Decides result (site_of self.now ≡ site_of other.now) }
    {
        self.place.same(&other.place) && self.scope.same(&other.scope)
    }
}
