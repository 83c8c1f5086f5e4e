// A block of a usable reference, as wide and as high as a site, from a point on or half a sample on from there.
ghost use Rattle.std.specs.Prelude.{◌*◌, length};
ghost use Rattle.half_sample.specs.ToldRows.{BlockNeeds};

use crate::Halves;
use plane::{Geometry, Point, Site};

#[derive(Clone, Copy)]
pub(crate) struct Shifted<'a> {
    pub(crate) samples: &'a [u8],
    pub(crate) geometry: Geometry,
    pub(crate) at: Point,
    pub(crate) site: Site,
    pub(crate) halves: Halves,
    ghost needs: { BlockNeeds geometry (length samples.now) site halves (site.height * site.width) },
}
