// What an axis takes of siblings, and of nodes on the way to its node.
ghost use Rattle.std.specs.Prelude.{◌≡◌};
ghost use Rattle.xp_axes.specs.Along as spec;

use spec_document::Axis;

/// How much of siblings an axis takes.
#[derive(Clone, Copy)]
pub enum Extent {
    Nothing,
    Themselves,
    WithAllBelow,
}

/// Of the siblings before the node on the way. `is_end`: the way ends there.
pub fn before(axis: Axis, is_end: bool) -> Extent
    ensures { result ≡ spec.before axis is_end }
{
    match axis {
        Axis::Preceding => Extent::WithAllBelow,
        Axis::PrecedingSibling if is_end => Extent::Themselves,
        _ => Extent::Nothing,
    }
}

/// Of the siblings after it.
pub fn after(axis: Axis, is_end: bool) -> Extent
    ensures { result ≡ spec.after axis is_end }
{
    match axis {
        Axis::Following => Extent::WithAllBelow,
        Axis::FollowingSibling if is_end => Extent::Themselves,
        _ => Extent::Nothing,
    }
}

/// Of the children of the node.
pub fn below(axis: Axis) -> Extent
    ensures { result ≡ spec.below axis }
{
    match axis {
        Axis::Child => Extent::Themselves,
        Axis::Descendant | Axis::DescendantOrSelf => Extent::WithAllBelow,
        _ => Extent::Nothing,
    }
}

/// Of the children of the element whose attribute or namespace node it is.
pub fn beside(axis: Axis) -> Extent
    ensures { result ≡ spec.beside axis }
{
    match axis {
        Axis::Following => Extent::WithAllBelow,
        _ => Extent::Nothing,
    }
}

/// Whether the axis takes a node above. `is_end`: the way ends one step below it.
pub fn is_above(axis: Axis, is_end: bool) -> bool
    ensures { result ≡ spec.is_above axis is_end }
{
    match axis {
        Axis::Ancestor | Axis::AncestorOrSelf => true,
        Axis::Parent => is_end,
        _ => false,
    }
}

/// Whether the axis takes the node itself.
pub fn is_itself(axis: Axis) -> bool
    ensures { result ≡ spec.is_itself axis }
{
    matches!(
        axis,
        Axis::Itself | Axis::AncestorOrSelf | Axis::DescendantOrSelf
    )
}
