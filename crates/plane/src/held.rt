// A plane that its samples hold.
ghost use Rattle.plane.specs.Plane.{plane_of};
ghost use Rattle.plane.specs.ToldHeld.{Held};

use crate::Geometry;

#[derive(Clone, Copy)]
pub(crate) struct HeldPlane<'a> {
    pub(crate) samples: &'a [u8],
    pub(crate) geometry: Geometry,
    ghost held: { Held (plane_of samples.now geometry) },
}
