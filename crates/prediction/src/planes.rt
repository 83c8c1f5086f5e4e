// The reference's three planes, and a macroblock's chroma blocks predicted from them.
ghost use Rattle.std.specs.Prelude.{◌≡◌, ◌≤◌, length};
ghost use Rattle.plane.specs.Plane.{plane_of};
ghost use Rattle.plane.specs.Corner.{corner_of, corner_at, square_at};
ghost use Rattle.plane.specs.Reference.{block_reply};
ghost use Rattle.half_sample.specs.Block.{half_block};
ghost use Rattle.prediction.specs.Macroblock.{motions_reply};
ghost use Rattle.prediction.specs.Planes.{chroma_geometry};
ghost use Rattle.prediction.specs.Prediction.{samples_reply};

use crate::{PlaneLengths, PvopMbMotion, ReferenceGeometry};
use plane::{Geometry, MacroblockPlace, Point, Site};
use record::MotionVector;
use refusal::{Refusal, Reply};

// Each chroma plane's.
pub fn chroma_geometry(geometry: ReferenceGeometry) -> Geometry
    ensures { result ≡ chroma_geometry geometry }
{
    let luma = geometry.luma;
    Geometry {
        width: plane::source::halved(luma.width),
        height: plane::source::halved(luma.height),
        stride: geometry.chroma_stride,
    }
}

// The corner of a macroblock in a plane where it takes `side` columns and rows.
pub fn corner_at(side: usize, place: MacroblockPlace) -> Point
    requires { (side ≤ 16) × (place.column ≤ 512) × (place.row ≤ 512) }
    ensures { result ≡ corner_at side place }
{
    Point {
        x: (side * place.column) as i32,
        y: (side * place.row) as i32,
    }
}

// 8: no corner of a macroblock beyond column or row 256 is in range.
pub fn place_reply(motion: PvopMbMotion, place: MacroblockPlace) -> Reply
    ensures { result ≡ motions_reply motion (corner_of place) }
{
    if place.column > 256 || place.row > 256 {
        return Err(Refusal::Place);
    }
    crate::motions_reply(motion, corner_at(16, place))
}

// 12
pub fn samples_reply(n: PlaneLengths) -> Reply
    ensures { result ≡ samples_reply n }
{
    refusal::require(n.y == 256 && n.cb == 64 && n.cr == 64, Refusal::Length)
}

// An 8 x 8 chroma block: by half samples, whatever luma's mode is.
pub fn predict_chroma(
    samples: &[u8],
    geometry: Geometry,
    place: MacroblockPlace,
    vector: MotionVector,
    rounding: u8,
    out: &mut [u8],
)
    requires { block_reply geometry (length samples.now) vector (square_at (corner_at 8 place) 8) (length out.old) ≡ Ok tt }
    ensures { out.new ≡ half_block (plane_of samples.now geometry) (square_at (corner_at 8 place) 8) vector rounding }
{
    let site = Site {
        corner: corner_at(8, place),
        width: 8,
        height: 8,
    };
    let _ = half_sample::interpolate_block_into(samples, geometry, site, vector, rounding, out);
}
