// The entries that search for a macroblock and code it, against a lent prediction or one made here.
ghost use Rattle.std.specs.Prelude.{◌≡◌};
ghost use Rattle.refusal.specs.Number.{code_of};
ghost use Rattle.refusal.specs.Reply.{written};
ghost use Rattle.reader.specs.Handed.{areas};
ghost use Rattle.macroblock.specs.Request.{request};
ghost use Rattle.macroblock.specs.Answer.{answer_of};
ghost use Rattle.macroblock.specs.Predicted.{predicted_request, predicted_answer_of};
ghost use Rattle.plane.specs.Plane.{geometry_of};
ghost use Rattle.areas.specs.Numbers.{size_of, macroblock_at, macroblock_settings, reference_geometry};
ghost use Rattle.areas.specs.Whole.{record_areas, record_areas_of};

use coding::EventAreas;
use macroblock::{PredictedRequest, Request};
use plane::{Geometry, MacroblockPlace, Samples, SourceSize};

// Searches for a macroblock and codes it against a lent prediction: 1, 2, 3, 4, 5, 6, 7, 8, 10, 11, 12, 14. Any first_method but 0 is
// the first method.
pub fn hencouch_code_macroblock(
    fcode: u32,
    mode: u32,
    bpp: u32,
    quantiser: u32,
    first_method: u8,
    vectors: u32,
    scan: u32,
    reference: &[u8],
    ref_width: usize,
    ref_height: usize,
    stride: usize,
    y: &[u8],
    cb: &[u8],
    cr: &[u8],
    width: usize,
    height: usize,
    column: usize,
    row: usize,
    weights: &[u8],
    pred_y: &[u8],
    pred_cb: &[u8],
    pred_cr: &[u8],
    lasts: &mut [u8],
    runs: &mut [u8],
    levels: &mut [i32],
    vector: &mut [i32; 2],
    sum: &mut u32,
    four_vectors: &mut [i32; 8],
    four_sums: &mut [u32; 4],
    patterns: &mut [u8; 2],
    counts: &mut [u8; 6],
) -> u8
    ensures { let settings = macroblock_settings fcode mode bpp quantiser first_method vectors scan in
        let geometry = geometry_of ref_width ref_height stride in
        let q = request settings reference.now geometry
        y.now cb.now cr.now (size_of width height) (macroblock_at column row)
        weights.now pred_y.now pred_cb.now pred_cr.now
        lasts.old runs.old levels.old in
        let old = record_areas vector.old sum.old four_vectors.old four_sums.old
        patterns.old counts.old in
        let new = record_areas vector.new sum.new four_vectors.new four_sums.new
        patterns.new counts.new in
        let told = answer_of q in
        (result ≡ code_of told.coded)
        × (areas lasts.new runs.new levels.new ≡ told.areas)
        × (new ≡ written told.coded record_areas_of old) }
{
    let settings = areas::numbers::settings_of(
        fcode,
        mode,
        bpp,
        quantiser,
        first_method,
        vectors,
        scan,
    );
    let geometry = Geometry {
        width: ref_width,
        height: ref_height,
        stride,
    };
    let size = SourceSize { width, height };
    let place = MacroblockPlace { column, row };
    let source = Samples { y, cb, cr };
    let prediction = Samples {
        y: pred_y,
        cb: pred_cb,
        cr: pred_cr,
    };
    let request = Request {
        settings,
        reference,
        geometry,
        source,
        size,
        weights,
        prediction,
    };
    let mut out = EventAreas {
        lasts,
        runs,
        levels,
    };
    let coded = macroblock::code_macroblock(request, place, &mut out);
    areas::records::write_record(
        coded,
        vector,
        sum,
        four_vectors,
        four_sums,
        patterns,
        counts,
    )
}

// Searches for a macroblock, predicts it by the vectors found and codes it: 1, 2, 3, 4, 5, 6, 7, 8, 10, 11, 12, 14, 31. Any first_method
// but 0 is the first method.
pub fn hencouch_code_predicted_macroblock(
    fcode: u32,
    mode: u32,
    bpp: u32,
    quantiser: u32,
    first_method: u8,
    vectors: u32,
    scan: u32,
    rounding: u8,
    ref_y: &[u8],
    ref_cb: &[u8],
    ref_cr: &[u8],
    ref_width: usize,
    ref_height: usize,
    stride: usize,
    chroma_stride: usize,
    y: &[u8],
    cb: &[u8],
    cr: &[u8],
    width: usize,
    height: usize,
    column: usize,
    row: usize,
    weights: &[u8],
    lasts: &mut [u8],
    runs: &mut [u8],
    levels: &mut [i32],
    vector: &mut [i32; 2],
    sum: &mut u32,
    four_vectors: &mut [i32; 8],
    four_sums: &mut [u32; 4],
    patterns: &mut [u8; 2],
    counts: &mut [u8; 6],
) -> u8
    ensures { let settings = macroblock_settings fcode mode bpp quantiser first_method vectors scan in
        let geometry = reference_geometry ref_width ref_height stride chroma_stride in
        let n = predicted_request settings rounding ref_y.now ref_cb.now ref_cr.now geometry
        y.now cb.now cr.now (size_of width height) (macroblock_at column row)
        weights.now lasts.old runs.old levels.old in
        let old = record_areas vector.old sum.old four_vectors.old four_sums.old
        patterns.old counts.old in
        let new = record_areas vector.new sum.new four_vectors.new four_sums.new
        patterns.new counts.new in
        let told = predicted_answer_of n in
        (result ≡ code_of told.coded)
        × (areas lasts.new runs.new levels.new ≡ told.areas)
        × (new ≡ written told.coded record_areas_of old) }
{
    let settings = areas::numbers::settings_of(
        fcode,
        mode,
        bpp,
        quantiser,
        first_method,
        vectors,
        scan,
    );
    let geometry = areas::numbers::reference_geometry(ref_width, ref_height, stride, chroma_stride);
    let size = SourceSize { width, height };
    let place = MacroblockPlace { column, row };
    let reference = Samples {
        y: ref_y,
        cb: ref_cb,
        cr: ref_cr,
    };
    let source = Samples { y, cb, cr };
    let request = PredictedRequest {
        settings,
        rounding,
        reference,
        geometry,
        source,
        size,
        weights,
    };
    let mut out = EventAreas {
        lasts,
        runs,
        levels,
    };
    let coded = macroblock::code_predicted_macroblock(request, place, &mut out);
    areas::records::write_record(
        coded,
        vector,
        sum,
        four_vectors,
        four_sums,
        patterns,
        counts,
    )
}
