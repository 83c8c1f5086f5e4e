// Quarter-sample interpolation of luma blocks (ISO/IEC 14496-2, 7.6.2.2).
#![tactic(auto)]

ghost use Rattle.std.specs.Prelude.{◌≡◌, length};
ghost use Rattle.refusal.specs.Reply.{done};
ghost use Rattle.plane.specs.Plane.{plane_of};
ghost use Rattle.quarter_sample.specs.Block.{quarter_block, bits_reply, quarter_reply};
ghost use Rattle.quarter_sample.specs.ToldPasses.{Interpolable};
ghost use Rattle.quarter_sample.specs.Split.{split_quarter};

use plane::{Geometry, Point, Site};
use record::MotionVector;
use refusal::{Refusal, Reply};

mod filter;
mod passes;

// A vector component: whole samples, and 0 to 3 quarters.
#[derive(Clone, Copy, Debug, PartialEq, Eq)]
pub struct QuarterPel {
    pub whole: i32,
    pub fraction: u8,
}

// The arithmetic shift rounds down, so that the fraction is never negative.
pub fn split_quarter_pel(mv: i32) -> QuarterPel
    ensures { result ≡ split_quarter mv }
{
    QuarterPel {
        whole: mv >> 2,
        fraction: (mv & 3) as u8,
    }
}

// 3
pub fn bits_reply(bits_per_pixel: u32) -> Reply
    ensures { result ≡ bits_reply bits_per_pixel }
{
    refusal::require((1..=8).contains(&bits_per_pixel), Refusal::BitsPerPixel)
}

// A block that nothing turns back, by way of a copy of one column and one row more.
#[tactic(auto, using(plane::proofs::Ready::block_ready))]
fn interpolate(
    samples: &[u8],
    geometry: Geometry,
    site: Site,
    vector: MotionVector,
    rounding: u8,
    bits_per_pixel: u32,
    out: &mut [u8],
)
    requires { Interpolable geometry (length samples.now) site vector bits_per_pixel (length out.old) }
    ensures { out.new ≡ quarter_block (plane_of samples.now geometry) site vector rounding bits_per_pixel }
{
    let mut block = [0u8; 289];
    let corner = site.corner;
    let across = split_quarter_pel(vector.x);
    let down = split_quarter_pel(vector.y);
    let at = Point {
        x: corner.x + across.whole,
        y: corner.y + down.whole,
    };
    let w = site.width + 1;
    let h = site.height + 1;
    let count = w * h;
    let _ = plane::copy_block(samples, geometry, at, w, h, &mut block[..count]);
    passes::interpolate_place(
        &block,
        site.width,
        site.height,
        across.fraction + 4 * down.fraction,
        rounding % 2,
        filter::largest_sample(bits_per_pixel),
        out,
    );
}

// The prediction of a block of sides 8 or 16 by a vector in quarter samples: 3, 4, 5, 8, 12, 14.
#[tactic(auto, unfolding(crate::specs::Block::quarter_reply))]
pub fn interpolate_block_qpel_into(
    samples: &[u8],
    geometry: Geometry,
    site: Site,
    vector: MotionVector,
    rounding: u8,
    bits_per_pixel: u32,
    out: &mut [u8],
) -> Reply
    ensures value { result ≡ quarter_reply bits_per_pixel geometry (length samples.now) vector site (length out.old) }
    ensures out_after { out.new ≡ done result
        (quarter_block (plane_of samples.now geometry) site vector rounding bits_per_pixel) out.old }
{
    bits_reply(bits_per_pixel)?;
    plane::block_reply(geometry, samples.len(), vector, site, out.len())?;
    interpolate(
        samples,
        geometry,
        site,
        vector,
        rounding,
        bits_per_pixel,
        out,
    );
    Ok(())
}
