// Four 8 x 8 blocks, each from a copy of its own, and the macroblock that they make.
ghost use Rattle.std.specs.Prelude.{◌≡◌, true, ◌+◌, ◌<◌, length, get_or};
ghost use Rattle.basis.specs.Lists.{tabulate, rows, raster};
ghost use Rattle.plane.specs.Plane.{plane_of};
ghost use Rattle.plane.specs.Corner.{block_corner};
ghost use Rattle.plane.specs.Reference.{origin_in_range};
ghost use Rattle.prediction.specs.declared.PvopMbMotion.TheVariants.{FourMv};
ghost use Rattle.prediction.specs.Macroblock.{motions_reply};
ghost use Rattle.prediction.specs.ToldFour.{FourReady, eight_block, part_at};

use crate::BVopSampleMode;
use plane::{Geometry, Point, Site};
use record::MotionVector;
use refusal::Reply;

fn block_corner(corner: Point, k: usize) -> Point
    requires { (origin_in_range corner ≡ true) × (k < 4) }
    ensures { result ≡ block_corner corner k }
{
    Point {
        x: corner.x + (8 * (k % 2)) as i32,
        y: corner.y + (8 * (k / 2)) as i32,
    }
}

// 8, for each of four blocks: the others' corners are made once the first one's is known to be in range.
#[tactic(auto, using(crate::proofs::Ready::first_corner))]
pub fn four_reply(
    a: MotionVector,
    b: MotionVector,
    c: MotionVector,
    d: MotionVector,
    corner: Point,
) -> Reply
    ensures { result ≡ motions_reply (FourMv a b c d) corner }
{
    plane::motion_reply(a, corner)?;
    plane::motion_reply(b, block_corner(corner, 1))?;
    plane::motion_reply(c, block_corner(corner, 2))?;
    plane::motion_reply(d, block_corner(corner, 3))
}

// 8 x 8 block k.
fn predict_block(
    samples: &[u8],
    geometry: Geometry,
    mode: BVopSampleMode,
    vectors: [MotionVector; 4],
    corner: Point,
    k: usize,
    rounding: u8,
    out: &mut [u8],
)
    requires { FourReady mode geometry (length samples.now) vectors corner × (k < 4) × (length out.old ≡ 64) }
    ensures { out.new ≡ eight_block mode (plane_of samples.now geometry) vectors corner rounding k }
{
    let v = vectors[k];
    let site = Site {
        corner: block_corner(corner, k),
        width: 8,
        height: 8,
    };
    let _ = crate::interpolate_block(samples, geometry, mode, site, v, rounding, out);
}

// The four blocks, one after the other.
pub fn predict_four(
    samples: &[u8],
    geometry: Geometry,
    mode: BVopSampleMode,
    vectors: [MotionVector; 4],
    corner: Point,
    rounding: u8,
    out: &mut [u8],
)
    requires { FourReady mode geometry (length samples.now) vectors corner × (length out.old ≡ 256) }
    ensures { out.new ≡ rows 4 (eight_block mode (plane_of samples.now geometry) vectors corner rounding) }
{
    for k in 0..4 {
        let from = k * 64;
        predict_block(
            samples,
            geometry,
            mode,
            vectors,
            corner,
            k,
            rounding,
            &mut out[from..from + 64],
        );
    }
}

// Part n, of 8 samples, of the macroblock's rows.
fn weave_part(blocks: &[u8], n: usize, out: &mut [u8])
    requires { (length blocks.now ≡ 256) × (n < 32) × (length out.old ≡ 8) }
    ensures { out.new ≡ tabulate 8 (λ i. get_or blocks.now (part_at n + i) 0) }
{
    let block = n % 2 + 2 * (n / 16);
    let at = 64 * block + 8 * (n / 2 % 8);
    out.copy_from_slice(&blocks[at..at + 8]);
}

// The four blocks as one of 16 x 16.
pub fn weave(blocks: &[u8], out: &mut [u8])
    requires { (length blocks.now ≡ 256) × (length out.old ≡ 256) }
    ensures { out.new ≡ raster 8 32 (λ i n. get_or blocks.now (part_at n + i) 0) }
{
    for n in 0..32 {
        let from = n * 8;
        weave_part(blocks, n, &mut out[from..from + 8]);
    }
}
