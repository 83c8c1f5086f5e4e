// Prediction of a block and of a macroblock, luma in either mode. The layer above searches and codes by these promises alone.
#![tactic(auto)]

ghost use Rattle.std.specs.Prelude.{◌≡◌, length};
ghost use Rattle.refusal.specs.Reply.{done};
ghost use Rattle.plane.specs.Plane.{plane_of};
ghost use Rattle.plane.specs.Samples.{lent_samples, written_samples, SameSamples};
ghost use Rattle.prediction.specs.Luma.{mode_of, predicted_block, interpolation_reply, rounding_reply, predict_reply};
ghost use Rattle.prediction.specs.Macroblock.{macroblock_luma, mode_reply, motions_reply, macroblock_reply};
ghost use Rattle.prediction.specs.Chroma.{chroma_vector_of};
ghost use Rattle.prediction.specs.Planes.{planes_of, lengths_in, planes_reply};
ghost use Rattle.prediction.specs.Prediction.{motion_of, macroblock_prediction, prediction_reply};

use plane::{Geometry, MacroblockPlace, Point, Samples, SamplesMut, Site};
use record::MotionVector;
use refusal::{Refusal, Reply};

mod blocks;
mod chroma;
mod planes;

// Vectors in half samples, or in quarter samples with the bits per pixel that their averages and filters are cut to.
#[derive(Clone, Copy, Debug, PartialEq, Eq)]
pub enum BVopSampleMode {
    HalfPel,
    QuarterPel(u32),
}

// Mode 0 has vectors in half samples, any other in quarter samples.
pub fn mode_of(mode: u32, bpp: u32) -> BVopSampleMode
    ensures { result ≡ mode_of mode bpp }
{
    if mode == 0 {
        BVopSampleMode::HalfPel
    } else {
        BVopSampleMode::QuarterPel(bpp)
    }
}

// 31
#[tactic(auto, unfolding(crate::specs::Luma::rounding_reply))]
pub fn rounding_reply(rounding: u8) -> Reply
    ensures { result ≡ rounding_reply rounding }
{
    refusal::require(rounding <= 1, Refusal::RoundingType)
}

// A block of sides 8 or 16, by half or by quarter samples: 3 in quarter mode, then 4, 5, 8, 12, 14. The low bit of the rounding type
// counts.
#[tactic(auto, unfolding(crate::specs::Luma::predicted_block, half_sample::specs::Block::half_block, quarter_sample::specs::Block::quarter_block))]
pub fn interpolate_block(
    samples: &[u8],
    geometry: Geometry,
    mode: BVopSampleMode,
    site: Site,
    vector: MotionVector,
    rounding: u8,
    out: &mut [u8],
) -> Reply
    ensures value { result ≡ interpolation_reply mode geometry (length samples.now) vector site (length out.old) }
    ensures out_after { out.new ≡ done result (predicted_block mode (plane_of samples.now geometry) site rounding vector) out.old }
{
    match mode {
        BVopSampleMode::HalfPel => {
            half_sample::interpolate_block_into(samples, geometry, site, vector, rounding, out)
        }
        BVopSampleMode::QuarterPel(bpp) => quarter_sample::interpolate_block_qpel_into(
            samples, geometry, site, vector, rounding, bpp, out,
        ),
    }
}

// Those of interpolation, of which nothing is done. Told by numbers, so that `plane::block_reply` keeps its one caller and is compiled
// into it.
#[tactic(auto, using(crate::proofs::Ready::interpolation_told))]
fn interpolation_reply(
    geometry: Geometry,
    bytes: usize,
    mode: BVopSampleMode,
    site: Site,
    vector: MotionVector,
    area: usize,
) -> Reply
    ensures { result ≡ interpolation_reply mode geometry bytes vector site area }
{
    let corner = site.corner;
    mode_reply(mode)?;
    plane::block_numbers_reply(
        geometry.width,
        geometry.height,
        geometry.stride,
        bytes,
        vector,
        corner.x,
        corner.y,
        site.width,
        site.height,
        area,
    )
}

// The luma of a block of sides 8 or 16: 3 in quarter mode, then 4, 5, 8, 12, 14, 31.
#[tactic(auto, unfolding(crate::specs::Luma::predict_reply))]
pub fn predict_luma_block(
    samples: &[u8],
    geometry: Geometry,
    mode: BVopSampleMode,
    site: Site,
    vector: MotionVector,
    rounding: u8,
    out: &mut [u8],
) -> Reply
    ensures value { result ≡ predict_reply mode geometry (length samples.now) vector site rounding (length out.old) }
    ensures out_after { out.new ≡ done result (predicted_block mode (plane_of samples.now geometry) site rounding vector) out.old }
{
    match rounding_reply(rounding) {
        Err(why) => {
            interpolation_reply(geometry, samples.len(), mode, site, vector, out.len())?;
            Err(why)
        }
        Ok(()) => interpolate_block(samples, geometry, mode, site, vector, rounding, out),
    }
}

// One vector for the macroblock, or one for each of its four 8 x 8 blocks, 0 and 1 above 2 and 3.
#[derive(Clone, Copy, Debug, PartialEq, Eq)]
pub enum PvopMbMotion {
    OneMv(MotionVector),
    FourMv(MotionVector, MotionVector, MotionVector, MotionVector),
}

// 3, in quarter mode
fn mode_reply(mode: BVopSampleMode) -> Reply
    ensures { result ≡ mode_reply mode }
{
    match mode {
        BVopSampleMode::HalfPel => Ok(()),
        BVopSampleMode::QuarterPel(bpp) => quarter_sample::bits_reply(bpp),
    }
}

// 8, for each block
fn motions_reply(motion: PvopMbMotion, corner: Point) -> Reply
    ensures { result ≡ motions_reply motion corner }
{
    match motion {
        PvopMbMotion::OneMv(v) => plane::motion_reply(v, corner),
        PvopMbMotion::FourMv(a, b, c, d) => blocks::four_reply(a, b, c, d, corner),
    }
}

fn predict_ready(
    samples: &[u8],
    geometry: Geometry,
    mode: BVopSampleMode,
    motion: PvopMbMotion,
    corner: Point,
    rounding: u8,
    out: &mut [u8],
)
    requires { macroblock_reply mode geometry (length samples.now) motion corner rounding (length out.old) ≡ Ok tt }
    ensures { out.new ≡ macroblock_luma mode (plane_of samples.now geometry) motion corner rounding }
{
    match motion {
        PvopMbMotion::OneMv(v) => {
            let site = Site {
                corner,
                width: 16,
                height: 16,
            };
            let _ = interpolate_block(samples, geometry, mode, site, v, rounding, out);
        }
        PvopMbMotion::FourMv(a, b, c, d) => {
            let mut four = [0u8; 256];
            blocks::predict_four(
                samples,
                geometry,
                mode,
                [a, b, c, d],
                corner,
                rounding,
                &mut four,
            );
            blocks::weave(&four, out);
        }
    }
}

// The luma of a macroblock, row by row: 3 in quarter mode, then 4, 5, 8, 12, 31.
#[tactic(auto, unfolding(crate::specs::Macroblock::macroblock_reply))]
pub fn predict_luma_macroblock(
    samples: &[u8],
    geometry: Geometry,
    mode: BVopSampleMode,
    motion: PvopMbMotion,
    corner: Point,
    rounding: u8,
    out: &mut [u8],
) -> Reply
    ensures value { result ≡ macroblock_reply mode geometry (length samples.now) motion corner rounding (length out.old) }
    ensures out_after { out.new ≡ done result (macroblock_luma mode (plane_of samples.now geometry) motion corner rounding) out.old }
{
    mode_reply(mode)?;
    plane::reference_reply(geometry, samples.len())?;
    motions_reply(motion, corner)?;
    plane::length_reply(out.len(), 16, 16)?;
    rounding_reply(rounding)?;
    predict_ready(samples, geometry, mode, motion, corner, rounding, out);
    Ok(())
}

// The vector of a macroblock's chroma, in half samples of chroma: 8.
#[tactic(auto, unfolding(crate::specs::Chroma::chroma_vector_of, crate::specs::Chroma::vectors_reply))]
pub fn chroma_vector(mode: BVopSampleMode, motion: PvopMbMotion) -> Result<MotionVector, Refusal>
    ensures { result ≡ chroma_vector_of mode motion }
{
    chroma::vectors_reply(motion)?;
    Ok(chroma::vector_of(mode, motion))
}

// What a record moves a macroblock by: its four vectors where the vector count is 4, else its one.
pub fn motion_of(count: u32, one: MotionVector, four: [MotionVector; 4]) -> PvopMbMotion
    ensures { result ≡ motion_of count one four }
{
    if count == 4 {
        let [a, b, c, d] = four;
        PvopMbMotion::FourMv(a, b, c, d)
    } else {
        PvopMbMotion::OneMv(one)
    }
}

// Luma's sizes and stride, and the one stride of both chroma planes.
#[derive(Clone, Copy, Debug, PartialEq, Eq)]
pub struct ReferenceGeometry {
    pub luma: Geometry,
    pub chroma_stride: usize,
}

// How long three planes are, or a macroblock's three areas.
#[derive(Clone, Copy, Debug, PartialEq, Eq)]
pub struct PlaneLengths {
    pub y: usize,
    pub cb: usize,
    pub cr: usize,
}

// 4 of any of the three planes, then 5 of any
#[tactic(auto, unfolding(crate::specs::Planes::planes_reply))]
pub fn planes_reply(geometry: ReferenceGeometry, n: PlaneLengths) -> Reply
    ensures { result ≡ planes_reply geometry n }
{
    let luma = geometry.luma;
    let chroma = planes::chroma_geometry(geometry);
    plane::reference_size_reply(luma)?;
    plane::reference_size_reply(chroma)?;
    plane::reference_bytes_reply(luma, n.y)?;
    plane::reference_bytes_reply(chroma, n.cb)?;
    plane::reference_bytes_reply(chroma, n.cr)
}

// 3 in quarter mode, then 4, 5, 8, 12, 31
#[tactic(auto, unfolding(crate::specs::Prediction::prediction_reply))]
fn prediction_reply(
    mode: BVopSampleMode,
    geometry: ReferenceGeometry,
    reference: PlaneLengths,
    motion: PvopMbMotion,
    place: MacroblockPlace,
    rounding: u8,
    out: PlaneLengths,
) -> Reply
    ensures { result ≡ prediction_reply mode geometry reference motion place rounding out }
{
    mode_reply(mode)?;
    planes_reply(geometry, reference)?;
    planes::place_reply(motion, place)?;
    planes::samples_reply(out)?;
    rounding_reply(rounding)
}

// How long each of three areas that are read is.
pub fn plane_lengths(planes: Samples<'_>) -> PlaneLengths
    ensures { result ≡ lengths_in (lent_samples planes.entry) }
{
    PlaneLengths {
        y: planes.y.len(),
        cb: planes.cb.len(),
        cr: planes.cr.len(),
    }
}

// And of three that are written.
fn room(samples: &SamplesMut<'_>) -> PlaneLengths
    ensures { result ≡ lengths_in (written_samples samples.now) }
{
    PlaneLengths {
        y: samples.y.len(),
        cb: samples.cb.len(),
        cr: samples.cr.len(),
    }
}

// All 384 samples of a macroblock, each block row by row, luma as its mode has it, then Cb and Cr by the chroma vector: 3 in quarter
// mode, then 4, 5, 8, 12, 31.
pub fn predict_macroblock(
    reference: Samples<'_>,
    geometry: ReferenceGeometry,
    mode: BVopSampleMode,
    motion: PvopMbMotion,
    place: MacroblockPlace,
    rounding: u8,
    out: &mut SamplesMut<'_>,
) -> Reply
    ensures value { result ≡ prediction_reply mode geometry (lengths_in (lent_samples reference.entry))
        motion place rounding (lengths_in (written_samples out.old)) }
    ensures out_after { let planes = planes_of (lent_samples reference.entry) geometry in
        written_samples out.new ≡ done result (macroblock_prediction mode planes motion place rounding) (written_samples out.old) }
    ensures same_samples { SameSamples out.old out.new }
{
    let bytes = plane_lengths(reference);
    let areas = room(out);
    prediction_reply(mode, geometry, bytes, motion, place, rounding, areas)?;
    let luma = geometry.luma;
    let chroma = planes::chroma_geometry(geometry);
    let corner = planes::corner_at(16, place);
    let vector = chroma::vector_of(mode, motion);
    predict_ready(reference.y, luma, mode, motion, corner, rounding, out.y);
    planes::predict_chroma(reference.cb, chroma, place, vector, rounding, out.cb);
    planes::predict_chroma(reference.cr, chroma, place, vector, rounding, out.cr);
    Ok(())
}
