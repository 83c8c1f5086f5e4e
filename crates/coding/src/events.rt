// Levels and events of a residual that is not refused, and patterns.
ghost use Rattle.std.specs.Prelude.{◌≡◌};
ghost use Rattle.reader.specs.Handed.{areas};
ghost use Rattle.coding.specs.Coding.{lent_quantising, lent_areas, SameAreas, count_of, counts_of, block_areas, areas_of};
ghost use Rattle.coding.specs.Told.{pattern_of, AreasAccepted};

use crate::{EventAreas, Quantising};

// A bit for each block, the last block's worth 1: whether it has an event.
pub fn pattern(counts: &[u8]) -> u8
    ensures { result ≡ pattern_of counts.now }
{
    counts
        .iter()
        .fold(0, |bits, count| bits << 1 | u8::from(*count != 0))
}

// The events of a block's residual, and how many there are. None of the four steps is refused. The areas are three slices and no
// struct: of a part of a slice that is lent in a struct, only its length is known afterwards.
#[tactic(auto, using(crate::proofs::BlockCoding::transform_done, crate::proofs::BlockCoding::quantise_done, crate::proofs::BlockCoding::scan_done, crate::proofs::BlockCoding::events_done), unfolding(crate::specs::Coding::quantised))]
pub fn quantise_inter_block(
    residual: &[i32],
    by: Quantising<'_>,
    lasts: &mut [u8],
    runs: &mut [u8],
    levels: &mut [i32],
) -> u8
    requires { AreasAccepted 64 residual.now (lent_quantising by) (areas lasts.old runs.old levels.old) }
    ensures value { result ≡ count_of (lent_quantising by.entry) residual.now }
    ensures out_after { areas lasts.new runs.new levels.new ≡ block_areas (lent_quantising by.entry) residual.now }
{
    let mut coefficients = [0i32; 64];
    fdct::forward_dct_8x8(residual, &mut coefficients).unwrap();
    let mut by_rows = [0i32; 64];
    quantise::quantise_block(
        &coefficients,
        by.quantiser,
        by.first_method,
        by.weights,
        &mut by_rows,
    )
    .unwrap();
    let mut in_scan = [0i32; 64];
    scan::forward_scan(&by_rows, by.scan, &mut in_scan).unwrap();
    scan::levels_to_events(&in_scan, lasts, runs, levels).unwrap()
}

// The events of all six blocks, each in its own area, and how many each has.
pub fn quantise_inter_residual(
    residual: &[i32],
    by: Quantising<'_>,
    out: &mut EventAreas<'_>,
) -> [u8; 6]
    requires { AreasAccepted 384 residual.now (lent_quantising by) (lent_areas out.old) }
    ensures value { result ≡ counts_of (lent_quantising by.entry) residual.now }
    ensures out_after { lent_areas out.new ≡ areas_of (lent_quantising by.entry) residual.now }
    ensures same_areas { SameAreas out.old out.new }
{
    let lasts = &mut *out.lasts;
    let runs = &mut *out.runs;
    let levels = &mut *out.levels;
    let mut counts = [0u8; 6];
    for b in 0..6usize {
        let from = b * 64;
        let to = from + 64;
        counts[b] = quantise_inter_block(
            &residual[from..to],
            by,
            &mut lasts[from..to],
            &mut runs[from..to],
            &mut levels[from..to],
        );
    }
    counts
}
