// Prediction where the mode is a number, 0 for half samples, 1 for quarter samples: 2, then as the mode has it.
#![tactic(auto)]

ghost use Rattle.std.specs.Prelude.{◌≡◌, length};
ghost use Rattle.refusal.specs.Reply.{answer, done};
ghost use Rattle.plane.specs.Plane.{plane_of};
ghost use Rattle.plane.specs.Samples.{lent_samples, written_samples, SameSamples};
ghost use Rattle.prediction.specs.Luma.{mode_of, predicted_block};
ghost use Rattle.prediction.specs.Macroblock.{macroblock_luma};
ghost use Rattle.prediction.specs.Planes.{planes_of, lengths_in};
ghost use Rattle.prediction.specs.Prediction.{macroblock_prediction};
ghost use Rattle.predicting.specs.Chroma.{chroma_in};
ghost use Rattle.predicting.specs.Mode.{mode_number_reply};
ghost use Rattle.predicting.specs.Luma.{luma_block_reply, luma_macroblock_reply};
ghost use Rattle.predicting.specs.Samples.{macroblock_samples_reply};

use plane::{Geometry, MacroblockPlace, Point, Samples, SamplesMut, Site};
use prediction::{BVopSampleMode, PvopMbMotion, ReferenceGeometry};
use record::MotionVector;
use refusal::{Refusal, Reply};

// What a mode's number stands for: 2.
#[tactic(auto, unfolding(crate::specs::Mode::mode_number_reply))]
fn sample_mode(mode: u32, bpp: u32) -> Result<BVopSampleMode, Refusal>
    ensures { result ≡ answer (mode_number_reply mode) (mode_of mode bpp) }
{
    match mode {
        0 => Ok(BVopSampleMode::HalfPel),
        1 => Ok(BVopSampleMode::QuarterPel(bpp)),
        _ => Err(Refusal::Mode),
    }
}

// The luma of a block.
pub fn predict_luma_block(
    samples: &[u8],
    geometry: Geometry,
    mode: u32,
    bpp: u32,
    vector: MotionVector,
    site: Site,
    rounding: u8,
    out: &mut [u8],
) -> Reply
    ensures value { result ≡ luma_block_reply mode bpp geometry (length samples.now) vector site rounding (length out.old) }
    ensures out_after { out.new ≡ done result (predicted_block (mode_of mode bpp) (plane_of samples.now geometry) site rounding vector) out.old }
{
    let units = sample_mode(mode, bpp)?;
    prediction::predict_luma_block(samples, geometry, units, site, vector, rounding, out)
}

// The luma of a macroblock.
pub fn predict_luma_macroblock(
    samples: &[u8],
    geometry: Geometry,
    mode: u32,
    bpp: u32,
    motion: PvopMbMotion,
    corner: Point,
    rounding: u8,
    out: &mut [u8],
) -> Reply
    ensures value { result ≡ luma_macroblock_reply mode bpp geometry (length samples.now) motion corner rounding (length out.old) }
    ensures out_after { out.new ≡ done result (macroblock_luma (mode_of mode bpp) (plane_of samples.now geometry) motion corner rounding) out.old }
{
    let units = sample_mode(mode, bpp)?;
    prediction::predict_luma_macroblock(samples, geometry, units, motion, corner, rounding, out)
}

// The chroma vector: 2, 8. The bits per pixel of quarter samples do not count.
pub fn chroma_vector(mode: u32, motion: PvopMbMotion) -> Result<MotionVector, Refusal>
    ensures { result ≡ chroma_in mode motion }
{
    let units = sample_mode(mode, 8)?;
    prediction::chroma_vector(units, motion)
}

// All 384 samples of a macroblock.
pub fn predict_macroblock(
    reference: Samples<'_>,
    geometry: ReferenceGeometry,
    mode: u32,
    bpp: u32,
    motion: PvopMbMotion,
    place: MacroblockPlace,
    rounding: u8,
    out: &mut SamplesMut<'_>,
) -> Reply
    ensures value { result ≡ macroblock_samples_reply mode bpp geometry (lengths_in (lent_samples reference.entry))
        motion place rounding (lengths_in (written_samples out.old)) }
    ensures out_after { let planes = planes_of (lent_samples reference.entry) geometry in
        written_samples out.new
        ≡ done result (macroblock_prediction (mode_of mode bpp) planes motion place rounding) (written_samples out.old) }
    ensures same_samples { SameSamples out.old out.new }
{
    let units = sample_mode(mode, bpp)?;
    prediction::predict_macroblock(reference, geometry, units, motion, place, rounding, out)
}
