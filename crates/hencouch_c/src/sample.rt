// Interpolation: blocks, one sample, and the split of a vector component.
ghost use Rattle.std.specs.Prelude.{◌≡◌, ◌%◌, length};
ghost use Rattle.refusal.specs.Number.{code_of};
ghost use Rattle.refusal.specs.Reply.{done};
ghost use Rattle.plane.specs.Plane.{plane_of, geometry_of};
ghost use Rattle.plane.specs.Reference.{block_reply};
ghost use Rattle.half_sample.specs.Average.{pixel_of};
ghost use Rattle.half_sample.specs.Split.{split_half};
ghost use Rattle.half_sample.specs.Block.{half_block};
ghost use Rattle.quarter_sample.specs.Block.{quarter_block, quarter_reply};
ghost use Rattle.quarter_sample.specs.Split.{split_quarter};
ghost use Rattle.plane.specs.Corner.{block_at};
ghost use Rattle.areas.specs.Numbers.{vector_of, is_set, flag_of};

// Half samples: 4, 5, 8, 12, 14.
#[unsafe(no_mangle)]
pub extern "C" fn hencouch_interpolate_block_into(
    samples: &[u8],
    width: usize,
    height: usize,
    stride: usize,
    mv_x: i32,
    mv_y: i32,
    origin_x: i32,
    origin_y: i32,
    block_w: usize,
    block_h: usize,
    rounding: u8,
    out: &mut [u8],
) -> u8
    ensures { let geometry = geometry_of width height stride in
        let vector = vector_of mv_x mv_y in
        let site = block_at origin_x origin_y block_w block_h in
        let reply = block_reply geometry (length samples.now) vector site (length out.old) in
        let block = half_block (plane_of samples.now geometry) site vector rounding in
        (result ≡ code_of reply) × (out.new ≡ done reply block out.old) }
{
    hencouch::sample::hencouch_interpolate_block_into(
        samples, width, height, stride, mv_x, mv_y, origin_x, origin_y, block_w, block_h, rounding,
        out,
    )
}

// Quarter samples: 3, 4, 5, 8, 12, 14.
#[unsafe(no_mangle)]
pub extern "C" fn hencouch_interpolate_block_qpel_into(
    samples: &[u8],
    width: usize,
    height: usize,
    stride: usize,
    mv_x: i32,
    mv_y: i32,
    origin_x: i32,
    origin_y: i32,
    block_w: usize,
    block_h: usize,
    rounding: u8,
    bits_per_pixel: u32,
    out: &mut [u8],
) -> u8
    ensures { let geometry = geometry_of width height stride in
        let vector = vector_of mv_x mv_y in
        let site = block_at origin_x origin_y block_w block_h in
        let reply = quarter_reply bits_per_pixel geometry (length samples.now) vector site (length out.old) in
        let block = quarter_block (plane_of samples.now geometry) site vector rounding bits_per_pixel in
        (result ≡ code_of reply) × (out.new ≡ done reply block out.old) }
{
    hencouch::sample::hencouch_interpolate_block_qpel_into(
        samples,
        width,
        height,
        stride,
        mv_x,
        mv_y,
        origin_x,
        origin_y,
        block_w,
        block_h,
        rounding,
        bits_per_pixel,
        out,
    )
}

// One sample, a half to the right where half_x is not 0 and a half down where half_y is not 0. Never refused.
#[unsafe(no_mangle)]
pub extern "C" fn hencouch_interpolate_pixel(
    a: u8,
    b: u8,
    c: u8,
    d: u8,
    half_x: u8,
    half_y: u8,
    rounding: u8,
    sample: &mut u8,
) -> u8
    ensures value { result ≡ 0 }
    ensures sample_after { sample.new ≡ pixel_of a b c d (is_set half_x) (is_set half_y) (rounding % 2) }
{
    hencouch::sample::hencouch_interpolate_pixel(a, b, c, d, half_x, half_y, rounding, sample)
}

// Whole samples, rounded down, and 1 where half a sample is left. Never refused.
#[unsafe(no_mangle)]
pub extern "C" fn hencouch_split_half_pel(mv: i32, whole: &mut i32, half: &mut u8) -> u8
    ensures value { result ≡ 0 }
    ensures whole_after { whole.new ≡ (split_half mv).whole }
    ensures half_after { half.new ≡ flag_of (split_half mv).half }
{
    hencouch::sample::hencouch_split_half_pel(mv, whole, half)
}

// Whole samples, rounded down, and the quarters above them. Never refused.
#[unsafe(no_mangle)]
pub extern "C" fn hencouch_split_quarter_pel(mv: i32, whole: &mut i32, fraction: &mut u8) -> u8
    ensures value { result ≡ 0 }
    ensures whole_after { whole.new ≡ (split_quarter mv).whole }
    ensures fraction_after { fraction.new ≡ (split_quarter mv).fraction }
{
    hencouch::sample::hencouch_split_quarter_pel(mv, whole, fraction)
}
