// The picture run: a picture's macroblocks one after the other. A run is five numbers: width, height, macroblocks given, their events,
// their one-vector sums.
ghost use Rattle.std.specs.Prelude.{◌≡◌};
ghost use Rattle.refusal.specs.Number.{code_of};
ghost use Rattle.refusal.specs.Reply.{done, written};
ghost use Rattle.reader.specs.Handed.{areas};
ghost use Rattle.macroblock.specs.Request.{request};
ghost use Rattle.macroblock.specs.Predicted.{predicted_request};
ghost use Rattle.picture.specs.Run.{open_of, next_place, step_of, predicted_step_of, close_of};
ghost use Rattle.plane.specs.Plane.{geometry_of};
ghost use Rattle.areas.specs.Numbers.{size_of, macroblock_settings, reference_geometry};
ghost use Rattle.areas.specs.Run.{run_of, run_numbers, place_numbers, totals_numbers};
ghost use Rattle.areas.specs.Whole.{record_areas, record_areas_of};

use coding::EventAreas;
use macroblock::{PredictedRequest, Request};
use plane::{Geometry, Samples, SourceSize};

// A run of which nothing is coded yet: 6.
pub fn hencouch_open(width: usize, height: usize, run: &mut [u64; 5]) -> u8
    ensures { let opened = open_of (size_of width height) in
        (result ≡ code_of opened) × (run.new ≡ written opened run_numbers run.old) }
{
    let size = SourceSize { width, height };
    areas::runs::write_run(picture::open(size), run)
}

// Where the next macroblock stands, column and row, for any five numbers. Never refused.
pub fn hencouch_next_place(run: &[u64; 5], place: &mut [u64; 2]) -> u8
    ensures value { result ≡ 0 }
    ensures place_after { place.new ≡ place_numbers (next_place (run_of run.now)) }
{
    let before = areas::runs::run_of(*run);
    let next = picture::next_place(before);
    *place = areas::runs::place_numbers(next);
    0
}

// Searches for the run's next macroblock and codes it against a lent prediction: 21, 22, then 1, 2, 3, 4, 5, 6, 7, 10, 11, 12, 14.
// Any first_method but 0 is the first method.
pub fn hencouch_step(
    run: &mut [u64; 5],
    fcode: u32,
    mode: u32,
    bpp: u32,
    quantiser: u32,
    first_method: u8,
    vectors: u32,
    scan: u32,
    reference: &[u8],
    ref_width: usize,
    ref_height: usize,
    stride: usize,
    y: &[u8],
    cb: &[u8],
    cr: &[u8],
    width: usize,
    height: usize,
    weights: &[u8],
    pred_y: &[u8],
    pred_cb: &[u8],
    pred_cr: &[u8],
    lasts: &mut [u8],
    runs: &mut [u8],
    levels: &mut [i32],
    vector: &mut [i32; 2],
    sum: &mut u32,
    four_vectors: &mut [i32; 8],
    four_sums: &mut [u32; 4],
    patterns: &mut [u8; 2],
    counts: &mut [u8; 6],
) -> u8
    ensures { let settings = macroblock_settings fcode mode bpp quantiser first_method vectors scan in
        let geometry = geometry_of ref_width ref_height stride in
        let before = run_of run.old in
        let q = request settings reference.now geometry
        y.now cb.now cr.now (size_of width height) (next_place before)
        weights.now pred_y.now pred_cb.now pred_cr.now
        lasts.old runs.old levels.old in
        let told = step_of before q in
        let coded = told.answer.coded in
        let old = record_areas vector.old sum.old four_vectors.old four_sums.old
        patterns.old counts.old in
        let new = record_areas vector.new sum.new four_vectors.new four_sums.new
        patterns.new counts.new in
        (result ≡ code_of coded)
        × (run.new ≡ done coded (run_numbers told.run) run.old)
        × (areas lasts.new runs.new levels.new ≡ told.answer.areas)
        × (new ≡ written coded record_areas_of old) }
{
    let settings = areas::numbers::settings_of(
        fcode,
        mode,
        bpp,
        quantiser,
        first_method,
        vectors,
        scan,
    );
    let geometry = Geometry {
        width: ref_width,
        height: ref_height,
        stride,
    };
    let size = SourceSize { width, height };
    let source = Samples { y, cb, cr };
    let prediction = Samples {
        y: pred_y,
        cb: pred_cb,
        cr: pred_cr,
    };
    let request = Request {
        settings,
        reference,
        geometry,
        source,
        size,
        weights,
        prediction,
    };
    let mut out = EventAreas {
        lasts,
        runs,
        levels,
    };
    let mut next = areas::runs::run_of(*run);
    let told = picture::step(&mut next, request, &mut out);
    if told.is_ok() {
        *run = areas::runs::run_numbers(next);
    }
    areas::records::write_record(told, vector, sum, four_vectors, four_sums, patterns, counts)
}

// Searches for the run's next macroblock, predicts it by the vectors found and codes it: 21, 22, then 1, 2, 3, 4, 5, 6, 7, 10, 11, 12,
// 14, 31. Any first_method but 0 is the first method.
pub fn hencouch_step_predicted(
    run: &mut [u64; 5],
    fcode: u32,
    mode: u32,
    bpp: u32,
    quantiser: u32,
    first_method: u8,
    vectors: u32,
    scan: u32,
    rounding: u8,
    ref_y: &[u8],
    ref_cb: &[u8],
    ref_cr: &[u8],
    ref_width: usize,
    ref_height: usize,
    stride: usize,
    chroma_stride: usize,
    y: &[u8],
    cb: &[u8],
    cr: &[u8],
    width: usize,
    height: usize,
    weights: &[u8],
    lasts: &mut [u8],
    runs: &mut [u8],
    levels: &mut [i32],
    vector: &mut [i32; 2],
    sum: &mut u32,
    four_vectors: &mut [i32; 8],
    four_sums: &mut [u32; 4],
    patterns: &mut [u8; 2],
    counts: &mut [u8; 6],
) -> u8
    ensures { let settings = macroblock_settings fcode mode bpp quantiser first_method vectors scan in
        let geometry = reference_geometry ref_width ref_height stride chroma_stride in
        let before = run_of run.old in
        let n = predicted_request settings rounding ref_y.now ref_cb.now ref_cr.now geometry
        y.now cb.now cr.now (size_of width height) (next_place before)
        weights.now lasts.old runs.old levels.old in
        let told = predicted_step_of before n in
        let coded = told.answer.coded in
        let old = record_areas vector.old sum.old four_vectors.old four_sums.old
        patterns.old counts.old in
        let new = record_areas vector.new sum.new four_vectors.new four_sums.new
        patterns.new counts.new in
        (result ≡ code_of coded)
        × (run.new ≡ done coded (run_numbers told.run) run.old)
        × (areas lasts.new runs.new levels.new ≡ told.answer.areas)
        × (new ≡ written coded record_areas_of old) }
{
    let settings = areas::numbers::settings_of(
        fcode,
        mode,
        bpp,
        quantiser,
        first_method,
        vectors,
        scan,
    );
    let geometry = areas::numbers::reference_geometry(ref_width, ref_height, stride, chroma_stride);
    let size = SourceSize { width, height };
    let reference = Samples {
        y: ref_y,
        cb: ref_cb,
        cr: ref_cr,
    };
    let source = Samples { y, cb, cr };
    let request = PredictedRequest {
        settings,
        rounding,
        reference,
        geometry,
        source,
        size,
        weights,
    };
    let mut out = EventAreas {
        lasts,
        runs,
        levels,
    };
    let mut next = areas::runs::run_of(*run);
    let told = picture::step_predicted(&mut next, request, &mut out);
    if told.is_ok() {
        *run = areas::runs::run_numbers(next);
    }
    areas::records::write_record(told, vector, sum, four_vectors, four_sums, patterns, counts)
}

// The totals of a run that is at its end, macroblocks, events and sums: 23.
pub fn hencouch_close(run: &[u64; 5], totals: &mut [u64; 3]) -> u8
    ensures { let closed = close_of (run_of run.now) in
        (result ≡ code_of closed) × (totals.new ≡ written closed totals_numbers totals.old) }
{
    let before = areas::runs::run_of(*run);
    let closed = picture::close(before);
    areas::runs::write_totals(closed, totals)
}
