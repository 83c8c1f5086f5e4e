// Samples as they are: of a reference plane, clamped into it, and of the source picture.
ghost use Rattle.std.specs.Prelude.{◌≡◌, length};
ghost use Rattle.refusal.specs.Number.{code_of};
ghost use Rattle.refusal.specs.Reply.{done};
ghost use Rattle.plane.specs.Plane.{plane_of, sample_at, copied_block, geometry_of};
ghost use Rattle.plane.specs.Reference.{reference_reply, copy_reply};
ghost use Rattle.plane.specs.Source.{source_luma_block_reply, source_luma, source_chroma_block_reply, source_chroma};
ghost use Rattle.areas.specs.Numbers.{point_of, size_of, macroblock_at};

use plane::{Geometry, MacroblockPlace, SourceSize};

// The sample at column x and row y, both clamped: 4, 5.
pub fn hencouch_fetch_clamped(
    samples: &[u8],
    width: usize,
    height: usize,
    stride: usize,
    x: i32,
    y: i32,
    sample: &mut u8,
) -> u8
    ensures { let geometry = geometry_of width height stride in
        let reply = reference_reply geometry (length samples.now) in
        let there = sample_at (plane_of samples.now geometry) x y in
        (result ≡ code_of reply) × (sample.new ≡ done reply there sample.old) }
{
    let geometry = Geometry {
        width,
        height,
        stride,
    };
    let told = plane::fetch_clamped(samples, geometry, x, y);
    areas::records::write(told, sample)
}

// The block of clamped samples from column x and row y on: 4, 5, 12.
pub fn hencouch_copy_block(
    samples: &[u8],
    width: usize,
    height: usize,
    stride: usize,
    x: i32,
    y: i32,
    block_w: usize,
    block_h: usize,
    out: &mut [u8],
) -> u8
    ensures { let geometry = geometry_of width height stride in
        let reply = copy_reply geometry (length samples.now) block_w block_h (length out.old) in
        let block = copied_block (plane_of samples.now geometry) (point_of x y) block_w block_h in
        (result ≡ code_of reply) × (out.new ≡ done reply block out.old) }
{
    let geometry = Geometry {
        width,
        height,
        stride,
    };
    let at = areas::numbers::point_of(x, y);
    let reply = plane::copy_block(samples, geometry, at, block_w, block_h, out);
    refusal::code(reply)
}

// A macroblock's 16 x 16 luma samples: 6, 7, 8, 12.
pub fn hencouch_source_luma_block(
    y: &[u8],
    width: usize,
    height: usize,
    column: usize,
    row: usize,
    out: &mut [u8],
) -> u8
    ensures { let size = size_of width height in
        let place = macroblock_at column row in
        let reply = source_luma_block_reply size (length y.now) place (length out.old) in
        (result ≡ code_of reply) × (out.new ≡ done reply (source_luma y.now size place) out.old) }
{
    let size = SourceSize { width, height };
    let place = MacroblockPlace { column, row };
    let reply = plane::source::luma_block(y, size, place, out);
    refusal::code(reply)
}

// A macroblock's 8 x 8 samples of a chroma plane: 6, 7, 8, 12. Width and height are luma's.
pub fn hencouch_source_chroma_block(
    chroma: &[u8],
    width: usize,
    height: usize,
    column: usize,
    row: usize,
    out: &mut [u8],
) -> u8
    ensures { let size = size_of width height in
        let place = macroblock_at column row in
        let reply = source_chroma_block_reply size (length chroma.now) place (length out.old) in
        (result ≡ code_of reply) × (out.new ≡ done reply (source_chroma chroma.now size place) out.old) }
{
    let size = SourceSize { width, height };
    let place = MacroblockPlace { column, row };
    let reply = plane::source::chroma_block(chroma, size, place, out);
    refusal::code(reply)
}
