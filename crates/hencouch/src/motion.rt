// Motion search: one vector for a macroblock, or one for each of its four 8 x 8 blocks.
ghost use Rattle.std.specs.Prelude.{◌≡◌, [], ◌∷◌, length};
ghost use Rattle.refusal.specs.Number.{code_of};
ghost use Rattle.refusal.specs.Reply.{written};
ghost use Rattle.search.specs.Request.{search_request};
ghost use Rattle.search.specs.Estimate.{estimate_motion, estimate_four};
ghost use Rattle.plane.specs.Plane.{geometry_of};
ghost use Rattle.areas.specs.Numbers.{vector_of, size_of, macroblock_at};
ghost use Rattle.areas.specs.Search.{vector_area, vectors_area, one_answer, four_answer};

use plane::{Geometry, MacroblockPlace, SourceSize};
use search::SearchRequest;

// One vector and its sum: 1, 2, 3, 4, 5, 6, 7, 8, 12.
pub fn hencouch_estimate_motion(
    source: &[u8],
    width: usize,
    height: usize,
    column: usize,
    row: usize,
    reference: &[u8],
    ref_width: usize,
    ref_height: usize,
    stride: usize,
    mode: u32,
    bpp: u32,
    fcode: u32,
    vector: &mut [i32],
    sum: &mut [u32],
) -> u8
    ensures { let q = search_request source.now (size_of width height) (macroblock_at column row)
        reference.now (geometry_of ref_width ref_height stride) mode bpp fcode in
        let found = one_answer (estimate_motion q) (length vector.old) (length sum.old) in
        (result ≡ code_of found)
        × (vector.new ≡ written found (λ e. vector_area e.vector) vector.old)
        × (sum.new ≡ written found (λ e. e.sum ∷ []) sum.old) }
{
    let size = SourceSize { width, height };
    let place = MacroblockPlace { column, row };
    let geometry = Geometry {
        width: ref_width,
        height: ref_height,
        stride,
    };
    let request = SearchRequest {
        source,
        size,
        place,
        reference,
        geometry,
        mode,
        bpp,
        fcode,
    };
    let found = search::estimate_motion(request);
    areas::vectors::write_one(found, vector, sum)
}

// Four vectors around a seed and their sums: 1, 2, 3, 4, 5, 6, 7, 8, 9, 12.
pub fn hencouch_estimate_motion_4mv(
    source: &[u8],
    width: usize,
    height: usize,
    column: usize,
    row: usize,
    reference: &[u8],
    ref_width: usize,
    ref_height: usize,
    stride: usize,
    mode: u32,
    bpp: u32,
    fcode: u32,
    seed_x: i32,
    seed_y: i32,
    vectors: &mut [i32],
    sums: &mut [u32],
) -> u8
    ensures { let q = search_request source.now (size_of width height) (macroblock_at column row)
        reference.now (geometry_of ref_width ref_height stride) mode bpp fcode in
        let found = four_answer (estimate_four q (vector_of seed_x seed_y)) (length vectors.old) (length sums.old) in
        (result ≡ code_of found)
        × (vectors.new ≡ written found (λ e. vectors_area e.vectors) vectors.old)
        × (sums.new ≡ written found (λ e. e.sums) sums.old) }
{
    let size = SourceSize { width, height };
    let place = MacroblockPlace { column, row };
    let geometry = Geometry {
        width: ref_width,
        height: ref_height,
        stride,
    };
    let request = SearchRequest {
        source,
        size,
        place,
        reference,
        geometry,
        mode,
        bpp,
        fcode,
    };
    let seed = areas::numbers::vector_of(seed_x, seed_y);
    let found = search::estimate_motion_4mv(request, seed);
    areas::vectors::write_four(found, vectors, sums)
}
