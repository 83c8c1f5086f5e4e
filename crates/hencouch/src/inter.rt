// The parts of an inter macroblock: activity, residual, levels and events, patterns.
ghost use Rattle.std.specs.Prelude.{◌≡◌, length};
ghost use Rattle.refusal.specs.Number.{code_of};
ghost use Rattle.refusal.specs.Reply.{done, value_or};
ghost use Rattle.reader.specs.Handed.{areas};
ghost use Rattle.plane.specs.Samples.{samples};
ghost use Rattle.coding.specs.Residual.{source_of, residual_of};
ghost use Rattle.coding.specs.Coding.{quantising_of, count_of, counts_of, block_areas, areas_of, luma_pattern_of, chroma_pattern_of};
ghost use Rattle.coding.specs.Reply.{residual_reply, coding_reply};
ghost use Rattle.macroblock.specs.Activities.{intra_activity};
ghost use Rattle.areas.specs.Numbers.{size_of, macroblock_at, is_set};
ghost use Rattle.areas.specs.Whole.{patterns_area};

use coding::{EventAreas, Quantising};
use plane::{MacroblockPlace, Samples, SourceSize};

// How far a macroblock's luma lies from its mean: 6, 7, 8.
pub fn hencouch_intra_activity(
    source: &[u8],
    width: usize,
    height: usize,
    column: usize,
    row: usize,
    activity: &mut u32,
) -> u8
    ensures { let told = intra_activity source.now (size_of width height) (macroblock_at column row) in
        (result ≡ code_of told) × (activity.new ≡ value_or told activity.old) }
{
    let size = SourceSize { width, height };
    let place = MacroblockPlace { column, row };
    let told = macroblock::intra_activity(source, size, place);
    areas::records::write(told, activity)
}

// Source less prediction, in six blocks of 64: 6, 7, 8, 12.
pub fn hencouch_macroblock_residual(
    y: &[u8],
    cb: &[u8],
    cr: &[u8],
    width: usize,
    height: usize,
    column: usize,
    row: usize,
    pred_y: &[u8],
    pred_cb: &[u8],
    pred_cr: &[u8],
    out: &mut [i32],
) -> u8
    ensures { let size = size_of width height in
        let place = macroblock_at column row in
        let reply = residual_reply size (length y.now) (length cb.now) (length cr.now) place
        (length pred_y.now) (length pred_cb.now) (length pred_cr.now) (length out.old) in
        let source = source_of y.now cb.now cr.now size place in
        let prediction = samples pred_y.now pred_cb.now pred_cr.now in
        (result ≡ code_of reply) × (out.new ≡ done reply (residual_of source prediction) out.old) }
{
    let size = SourceSize { width, height };
    let place = MacroblockPlace { column, row };
    let source = Samples { y, cb, cr };
    let prediction = Samples {
        y: pred_y,
        cb: pred_cb,
        cr: pred_cr,
    };
    let reply = coding::macroblock_residual(source, size, place, prediction, out);
    refusal::code(reply)
}

// The events of a block's residual: 10, 11, 12, 13, 14. Any first_method but 0 is the first method.
pub fn hencouch_quantise_inter_block(
    residual: &[i32],
    quantiser: u32,
    first_method: u8,
    weights: &[u8],
    scan: u32,
    lasts: &mut [u8],
    runs: &mut [u8],
    levels: &mut [i32],
    count: &mut u8,
) -> u8
    ensures { let by = quantising_of quantiser (is_set first_method) weights.now scan in
        let block = residual.now in
        let reply = coding_reply 64 block by (length lasts.old) (length runs.old) (length levels.old) in
        let old = areas lasts.old runs.old levels.old in
        let new = areas lasts.new runs.new levels.new in
        (result ≡ code_of reply)
        × (new ≡ done reply (block_areas by block) old)
        × (count.new ≡ done reply (count_of by block) count.old) }
{
    let by = Quantising {
        quantiser,
        first_method: areas::numbers::is_set(first_method),
        weights,
        scan,
    };
    let mut out = EventAreas {
        lasts,
        runs,
        levels,
    };
    let told = coding::quantise_inter_block(residual, by, &mut out);
    areas::records::write(told, count)
}

// The events of all six blocks, each in its own area: 10, 11, 12, 13, 14.
pub fn hencouch_quantise_inter_residual(
    residual: &[i32],
    quantiser: u32,
    first_method: u8,
    weights: &[u8],
    scan: u32,
    lasts: &mut [u8],
    runs: &mut [u8],
    levels: &mut [i32],
    counts: &mut [u8; 6],
) -> u8
    ensures { let by = quantising_of quantiser (is_set first_method) weights.now scan in
        let all = residual.now in
        let reply = coding_reply 384 all by (length lasts.old) (length runs.old) (length levels.old) in
        let old = areas lasts.old runs.old levels.old in
        let new = areas lasts.new runs.new levels.new in
        (result ≡ code_of reply)
        × (new ≡ done reply (areas_of by all) old)
        × (counts.new ≡ done reply (counts_of by all) counts.old) }
{
    let by = Quantising {
        quantiser,
        first_method: areas::numbers::is_set(first_method),
        weights,
        scan,
    };
    let mut out = EventAreas {
        lasts,
        runs,
        levels,
    };
    let told = coding::quantise_inter_residual(residual, by, &mut out);
    areas::records::write(told, counts)
}

// Which of six blocks have an event: the luma pattern, then the chroma pattern. Never refused.
pub fn hencouch_inter_cbp(counts: &[u8; 6], patterns: &mut [u8; 2]) -> u8
    ensures value { result ≡ 0 }
    ensures patterns_after { patterns.new ≡ patterns_area (luma_pattern_of counts.now) (chroma_pattern_of counts.now) }
{
    let told = coding::inter_cbp(*counts);
    *patterns = areas::records::patterns_area(told.luma, told.chroma);
    0
}
