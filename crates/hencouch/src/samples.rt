// The 384 samples of a macroblock, predicted in the mode of a number.
ghost use Rattle.std.specs.Prelude.{◌≡◌};
ghost use Rattle.refusal.specs.Number.{code_of};
ghost use Rattle.refusal.specs.Reply.{done};
ghost use Rattle.plane.specs.Samples.{samples};
ghost use Rattle.prediction.specs.declared.PvopMbMotion.TheVariants.{OneMv};
ghost use Rattle.prediction.specs.Luma.{mode_of};
ghost use Rattle.prediction.specs.Planes.{planes_of, lengths_in};
ghost use Rattle.prediction.specs.Prediction.{macroblock_prediction};
ghost use Rattle.areas.specs.Numbers.{vector_of, four_motion, macroblock_at, reference_geometry};
ghost use Rattle.predicting.specs.Samples.{macroblock_samples_reply};

use plane::{MacroblockPlace, Samples, SamplesMut};
use prediction::PvopMbMotion;

// By one vector: 2, 3, 4, 5, 8, 12, 31.
pub fn hencouch_predict_macroblock(
    ref_y: &[u8],
    ref_cb: &[u8],
    ref_cr: &[u8],
    width: usize,
    height: usize,
    stride: usize,
    chroma_stride: usize,
    mode: u32,
    bits_per_pixel: u32,
    mv_x: i32,
    mv_y: i32,
    column: usize,
    row: usize,
    rounding: u8,
    y: &mut [u8],
    cb: &mut [u8],
    cr: &mut [u8],
) -> u8
    ensures { let reference = samples ref_y.now ref_cb.now ref_cr.now in
        let old = samples y.old cb.old cr.old in
        let new = samples y.new cb.new cr.new in
        let geometry = reference_geometry width height stride chroma_stride in
        let motion = OneMv (vector_of mv_x mv_y) in
        let place = macroblock_at column row in
        let reply = macroblock_samples_reply mode bits_per_pixel geometry (lengths_in reference) motion place rounding (lengths_in old) in
        let made = macroblock_prediction (mode_of mode bits_per_pixel) (planes_of reference geometry) motion place rounding in
        (result ≡ code_of reply) × (new ≡ done reply made old) }
{
    let geometry = areas::numbers::reference_geometry(width, height, stride, chroma_stride);
    let motion = PvopMbMotion::OneMv(areas::numbers::vector_of(mv_x, mv_y));
    let place = MacroblockPlace { column, row };
    let reference = Samples {
        y: ref_y,
        cb: ref_cb,
        cr: ref_cr,
    };
    let mut out = SamplesMut { y, cb, cr };
    let reply = predicting::predict_macroblock(
        reference,
        geometry,
        mode,
        bits_per_pixel,
        motion,
        place,
        rounding,
        &mut out,
    );
    refusal::code(reply)
}

// By four vectors, one for each 8 x 8 luma block: 2, 3, 4, 5, 8, 12, 31.
pub fn hencouch_predict_macroblock_4mv(
    ref_y: &[u8],
    ref_cb: &[u8],
    ref_cr: &[u8],
    width: usize,
    height: usize,
    stride: usize,
    chroma_stride: usize,
    mode: u32,
    bits_per_pixel: u32,
    vectors: &[i32; 8],
    column: usize,
    row: usize,
    rounding: u8,
    y: &mut [u8],
    cb: &mut [u8],
    cr: &mut [u8],
) -> u8
    ensures { let reference = samples ref_y.now ref_cb.now ref_cr.now in
        let old = samples y.old cb.old cr.old in
        let new = samples y.new cb.new cr.new in
        let geometry = reference_geometry width height stride chroma_stride in
        let motion = four_motion vectors.now in
        let place = macroblock_at column row in
        let reply = macroblock_samples_reply mode bits_per_pixel geometry (lengths_in reference) motion place rounding (lengths_in old) in
        let made = macroblock_prediction (mode_of mode bits_per_pixel) (planes_of reference geometry) motion place rounding in
        (result ≡ code_of reply) × (new ≡ done reply made old) }
{
    let geometry = areas::numbers::reference_geometry(width, height, stride, chroma_stride);
    let motion = areas::numbers::four_motion(*vectors);
    let place = MacroblockPlace { column, row };
    let reference = Samples {
        y: ref_y,
        cb: ref_cb,
        cr: ref_cr,
    };
    let mut out = SamplesMut { y, cb, cr };
    let reply = predicting::predict_macroblock(
        reference,
        geometry,
        mode,
        bits_per_pixel,
        motion,
        place,
        rounding,
        &mut out,
    );
    refusal::code(reply)
}
