// Prediction of a block from a reference plane by a vector in half samples (7.6.2.1).
#![tactic(auto)]

ghost use Rattle.std.specs.Prelude.{◌≡◌, true, false, ◌%◌, ◌<◌, length};
ghost use Rattle.refusal.specs.Reply.{done};
ghost use Rattle.plane.specs.Plane.{plane_of};
ghost use Rattle.plane.specs.Reference.{block_reply};
ghost use Rattle.half_sample.specs.Split.{split_half};
ghost use Rattle.half_sample.specs.Average.{average2_of, average4_of, pixel_of};
ghost use Rattle.half_sample.specs.Block.{half_block};
ghost use Rattle.half_sample.specs.Ring.{ring_reply, ring_grid};

use plane::{Geometry, Point, Site};
use record::MotionVector;
use refusal::Reply;
use shifted::Shifted;

mod ring;
mod rows;
mod shifted;

// A vector component: whole samples, and whether half a sample is left.
#[derive(Clone, Copy, Debug, PartialEq, Eq)]
pub struct HalfPel {
    pub whole: i32,
    pub half: bool,
}

// The arithmetic shift rounds down: -1 is -1 and a half.
pub fn split_half_pel(mv: i32) -> HalfPel
    ensures { result ≡ split_half mv }
{
    HalfPel {
        whole: mv >> 1,
        half: (mv & 1) != 0,
    }
}

fn average2(a: u8, b: u8, rc: u16) -> u8
    requires { rc < 2 }
    ensures { result ≡ average2_of a b rc }
{
    ((u16::from(a) + u16::from(b) + 1 - rc) / 2) as u8
}

fn average4(a: u8, b: u8, c: u8, d: u8, rc: u16) -> u8
    requires { rc < 2 }
    ensures { result ≡ average4_of a b c d rc }
{
    ((u16::from(a) + u16::from(b) + u16::from(c) + u16::from(d) + 2 - rc) / 4) as u8
}

// From a half a sample to the right, half a sample down: b stands to the right of a, c and d below.
pub fn interpolate_pixel(a: u8, b: u8, c: u8, d: u8, half_x: bool, half_y: bool, rounding: u8) -> u8
    ensures { result ≡ pixel_of a b c d half_x half_y (rounding % 2) }
{
    let rc = u16::from(rounding % 2);
    match (half_x, half_y) {
        (false, false) => a,
        (true, false) => average2(a, b, rc),
        (false, true) => average2(a, c, rc),
        (true, true) => average4(a, b, c, d, rc),
    }
}

// Half a sample to the right, half a sample down, and the rounding control that averages are lowered by. Its size, four bytes, lets it
// go from function to function in a register.
#[derive(Clone, Copy, Debug, PartialEq, Eq)]
struct Halves {
    x: bool,
    y: bool,
    rc: u16,
}

#[tactic(auto, using(plane::proofs::Ready::block_ready), unfolding(crate::specs::Block::half_block, crate::specs::Block::half_sample))]
fn interpolate_ready(
    samples: &[u8],
    geometry: Geometry,
    site: Site,
    vector: MotionVector,
    rounding: u8,
    out: &mut [u8],
)
    requires { block_reply geometry (length samples.now) vector site (length out.old) ≡ Ok tt }
    ensures { out.new ≡ half_block (plane_of samples.now geometry) site vector rounding }
{
    let corner = site.corner;
    let across = split_half_pel(vector.x);
    let along = split_half_pel(vector.y);
    let at = Point {
        x: corner.x + across.whole,
        y: corner.y + along.whole,
    };
    let halves = Halves {
        x: across.half,
        y: along.half,
        rc: u16::from(rounding % 2),
    };
    let block = Shifted {
        samples,
        geometry,
        at,
        site,
        halves,
    };
    rows::interpolate_from(block, out);
}

// The prediction of a block of sides 8 or 16, row by row: 4, 5, 8, 12, 14.
pub fn interpolate_block_into(
    samples: &[u8],
    geometry: Geometry,
    site: Site,
    vector: MotionVector,
    rounding: u8,
    out: &mut [u8],
) -> Reply
    ensures value { result ≡ block_reply geometry (length samples.now) vector site (length out.old) }
    ensures out_after { out.new ≡ done result (half_block (plane_of samples.now geometry) site vector rounding) out.old }
{
    let corner = site.corner;
    plane::block_numbers_reply(
        geometry.width,
        geometry.height,
        geometry.stride,
        samples.len(),
        vector,
        corner.x,
        corner.y,
        site.width,
        site.height,
        out.len(),
    )?;
    interpolate_ready(samples, geometry, site, vector, rounding, out);
    Ok(())
}

// The samples half a sample from those of a patch whose rows are `stride` samples long: to the right, below, and both. Its rows are taken
// as one line, so that some entries lie between a row's end and the next row: 12.
pub fn interpolate_ring_into(
    patch: &[u8],
    stride: usize,
    rounding: u8,
    right: &mut [u8],
    below: &mut [u8],
    between: &mut [u8],
) -> Reply
    ensures value { result ≡ ring_reply (length patch.now) stride (length right.old) (length below.old) (length between.old) }
    ensures right_after { right.new
        ≡ done result (ring_grid patch.now stride true false rounding (length right.old)) right.old }
    ensures below_after { below.new
        ≡ done result (ring_grid patch.now stride false true rounding (length right.old)) below.old }
    ensures between_after { between.new
        ≡ done result (ring_grid patch.now stride true true rounding (length right.old)) between.old }
{
    ring::ring_reply(patch.len(), stride, right.len(), below.len(), between.len())?;
    ring::ring_ready(patch, stride, rounding, right, below, between);
    Ok(())
}
