// Prediction of luma, of a block or a macroblock, in the mode of a number.
ghost use Rattle.std.specs.Prelude.{◌≡◌, length};
ghost use Rattle.refusal.specs.Number.{code_of};
ghost use Rattle.refusal.specs.Reply.{done};
ghost use Rattle.plane.specs.Plane.{plane_of, geometry_of};
ghost use Rattle.prediction.specs.Luma.{mode_of, predicted_block};
ghost use Rattle.prediction.specs.Macroblock.{macroblock_luma};
ghost use Rattle.prediction.specs.declared.PvopMbMotion.TheVariants.{OneMv};
ghost use Rattle.plane.specs.Corner.{block_at};
ghost use Rattle.areas.specs.Numbers.{vector_of, point_of, four_motion};
ghost use Rattle.predicting.specs.Luma.{luma_block_reply, luma_macroblock_reply};

// The luma of a block: 2, 3, 4, 5, 8, 12, 14, 31.
#[unsafe(no_mangle)]
pub extern "C" fn hencouch_predict_luma_block(
    samples: &[u8],
    width: usize,
    height: usize,
    stride: usize,
    mode: u32,
    bits_per_pixel: u32,
    mv_x: i32,
    mv_y: i32,
    origin_x: i32,
    origin_y: i32,
    block_w: usize,
    block_h: usize,
    rounding: u8,
    out: &mut [u8],
) -> u8
    ensures { let geometry = geometry_of width height stride in
        let vector = vector_of mv_x mv_y in
        let site = block_at origin_x origin_y block_w block_h in
        let reply = luma_block_reply mode bits_per_pixel geometry (length samples.now) vector site rounding (length out.old) in
        let block = predicted_block (mode_of mode bits_per_pixel) (plane_of samples.now geometry) site rounding vector in
        (result ≡ code_of reply) × (out.new ≡ done reply block out.old) }
{
    hencouch::predicted::hencouch_predict_luma_block(
        samples,
        width,
        height,
        stride,
        mode,
        bits_per_pixel,
        mv_x,
        mv_y,
        origin_x,
        origin_y,
        block_w,
        block_h,
        rounding,
        out,
    )
}

// The luma of a macroblock by one vector: 2, 3, 4, 5, 8, 12, 31.
#[unsafe(no_mangle)]
pub extern "C" fn hencouch_predict_luma_macroblock(
    samples: &[u8],
    width: usize,
    height: usize,
    stride: usize,
    mode: u32,
    bits_per_pixel: u32,
    mv_x: i32,
    mv_y: i32,
    origin_x: i32,
    origin_y: i32,
    rounding: u8,
    out: &mut [u8],
) -> u8
    ensures { let geometry = geometry_of width height stride in
        let motion = OneMv (vector_of mv_x mv_y) in
        let corner = point_of origin_x origin_y in
        let reply = luma_macroblock_reply mode bits_per_pixel geometry (length samples.now) motion corner rounding (length out.old) in
        let luma = macroblock_luma (mode_of mode bits_per_pixel) (plane_of samples.now geometry) motion corner rounding in
        (result ≡ code_of reply) × (out.new ≡ done reply luma out.old) }
{
    hencouch::predicted::hencouch_predict_luma_macroblock(
        samples,
        width,
        height,
        stride,
        mode,
        bits_per_pixel,
        mv_x,
        mv_y,
        origin_x,
        origin_y,
        rounding,
        out,
    )
}

// The same by four vectors, one for each 8 x 8 block: 2, 3, 4, 5, 8, 12, 31.
#[unsafe(no_mangle)]
pub extern "C" fn hencouch_predict_luma_macroblock_4mv(
    samples: &[u8],
    width: usize,
    height: usize,
    stride: usize,
    mode: u32,
    bits_per_pixel: u32,
    vectors: &[i32; 8],
    origin_x: i32,
    origin_y: i32,
    rounding: u8,
    out: &mut [u8],
) -> u8
    ensures { let geometry = geometry_of width height stride in
        let motion = four_motion vectors.now in
        let corner = point_of origin_x origin_y in
        let reply = luma_macroblock_reply mode bits_per_pixel geometry (length samples.now) motion corner rounding (length out.old) in
        let luma = macroblock_luma (mode_of mode bits_per_pixel) (plane_of samples.now geometry) motion corner rounding in
        (result ≡ code_of reply) × (out.new ≡ done reply luma out.old) }
{
    hencouch::predicted::hencouch_predict_luma_macroblock_4mv(
        samples,
        width,
        height,
        stride,
        mode,
        bits_per_pixel,
        vectors,
        origin_x,
        origin_y,
        rounding,
        out,
    )
}
