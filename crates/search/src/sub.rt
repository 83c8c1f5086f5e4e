// The refinement around a full-sample winner: its vector, clamped, then the half ring, in quarter mode the quarter ring.
ghost use Rattle.std.specs.Prelude.{◌≡◌, true, ◌/◌, ◌<◌, ◌≤◌, pos, ◌*ℤ◌};
ghost use mathlib.Core.List.{foldl};
ghost use Rattle.basis.specs.Parts.{above, below};
ghost use Rattle.prediction.specs.Luma.{units_per_pel};
ghost use Rattle.refusal.specs.Test.{between};
ghost use Rattle.full_search.specs.Costs.{consider, at_cost};
ghost use Rattle.full_search.specs.Block.{lent_block};
ghost use Rattle.full_search.specs.Told.{Within};
ghost use Rattle.search.specs.Range.{vector_in};
ghost use Rattle.search.specs.Sums.{vector_sum};
ghost use Rattle.search.specs.Sub.{stepped, neighbour, ring, start, refined};
ghost use Rattle.search.specs.ToldGrids.{beside};
ghost use Rattle.search.specs.ToldRing.{Centre, CallableAround, KeptBy};
ghost use Rattle.search.specs.Told.{Set, SoughtReady, Predictable, Stepping, Neighbouring, Ringed};

use crate::{SearchSettings, grids, range};
use full_search::{Scored, Sought};
use plane::Site;
use prediction::BVopSampleMode;
use record::MotionVector;

// The sum of a vector in range.
#[tactic(auto, using(crate::proofs::PredictedSums::predicted_done, crate::proofs::PredictedSums::predicted_sum))]
fn vector_sum(sought: Sought<'_>, settings: SearchSettings, vector: MotionVector) -> u32
    requires { Predictable sought settings vector }
    ensures { result ≡ vector_sum settings (lent_block sought.entry) vector }
{
    let target = sought.target;
    let side = target.side;
    let mut area = [0u8; 256];
    let predicted = &mut area[..side * side];
    let site = Site {
        corner: target.corner,
        width: side,
        height: side,
    };
    // A vector in range is not refused.
    prediction::interpolate_block(
        sought.reference,
        target.geometry,
        settings.mode,
        site,
        vector,
        settings.rounding,
        predicted,
    )
    .unwrap();
    full_search::block_sum(sought.source, predicted, side)
}

fn stepped(z: i32, step: usize, k: usize) -> i32
    requires { Stepping z step k }
    ensures { result ≡ stepped z step k }
{
    z + (step * k) as i32 - step as i32
}

// Place n of the 3 x 3 around c, not clamped.
pub fn beside(c: MotionVector, step: usize, n: usize) -> MotionVector
    requires { Within 4096 c × (step ≤ 2) × (n < 9) }
    ensures { result ≡ beside step c n }
{
    MotionVector {
        x: stepped(c.x, step, n % 3),
        y: stepped(c.y, step, n / 3),
    }
}

// Place n of the 3 x 3 around c.
pub fn neighbour(c: MotionVector, fcode: u32, step: usize, n: usize) -> MotionVector
    requires { Neighbouring c fcode step n }
    ensures { result ≡ neighbour fcode step c n }
{
    range::clamped(beside(c, step, n), fcode)
}

// The eight around the best so far; `cost` gives the sum of place n, whose vector it is told too. The centre is passed over.
pub fn ring<F: Fn(usize, MotionVector) -> u32>(
    best: Scored,
    fcode: u32,
    step: usize,
    cost: F,
) -> Scored
    requires around { Centre fcode step best.vector }
    requires callable { CallableAround (λ n v. F.pre cost n v) fcode step best.vector }
    ensures { KeptBy (λ n v r. F.post cost n v r) fcode step best.vector best result }
{
    let mut b = best;
    for n in 0..9 {
        if n != 4 {
            let centre = best.vector;
            let v = neighbour(centre, fcode, step, n);
            b = full_search::consider(b, v, cost(n, v));
        }
    }
    b
}

// The eight neighbours of the best so far.
#[tactic(auto, using(crate::proofs::InRange::in_within, crate::proofs::Refined::ring_predictable))]
fn ring_search(sought: Sought<'_>, settings: SearchSettings, step: usize, best: Scored) -> Scored
    requires { Ringed sought settings step best.vector }
    ensures { let sum = vector_sum settings (lent_block sought.entry) in
        result ≡ foldl (consider sum) best (ring settings.fcode step best.vector) }
{
    ring(
        best,
        settings.fcode,
        step,
        |_, v| vector_sum(sought, settings, v),
    )
}

// The best of a vector and the ring around it.
#[tactic(auto, using(crate::proofs::InRange::in_interpolation))]
fn ring_best(
    sought: Sought<'_>,
    settings: SearchSettings,
    step: usize,
    vector: MotionVector,
) -> Scored
    requires { Ringed sought settings step vector }
    ensures { let sum = vector_sum settings (lent_block sought.entry) in
        result ≡ foldl (consider sum) (at_cost sum vector) (ring settings.fcode step vector) }
{
    let cost = vector_sum(sought, settings, vector);
    let first = Scored { vector, cost };
    ring_search(sought, settings, step, first)
}

// The best of a start and the eight half a sample around it; in half mode by way of grids wherever the start allows it.
#[tactic(auto, using(crate::proofs::InRange::in_within, crate::proofs::GridSums::half_sums))]
fn half_best(sought: Sought<'_>, settings: SearchSettings, vector: MotionVector) -> Scored
    requires { SoughtReady sought × Set settings × (vector_in settings.fcode vector ≡ true) }
    ensures { let sum = vector_sum settings (lent_block sought.entry) in
        result ≡ foldl (consider sum) (at_cost sum vector) (ring settings.fcode (units_per_pel settings.mode / 2) vector) }
{
    let fcode = settings.fcode;
    match settings.mode {
        BVopSampleMode::HalfPel if grids::is_free(vector, fcode) => {
            grids::half_best(sought, settings.rounding, fcode, vector)
        }
        mode => ring_best(sought, settings, range::units_per_pel(mode) / 2, vector),
    }
}

fn scaled(z: i32, units: usize) -> i32
    requires { (above z ≤ 4096) × (below z ≤ 4096) × (units ≤ 4) }
    ensures { result ≡ z *ℤ pos units }
{
    z * units as i32
}

// A displacement in vector units, clamped.
fn start(d: MotionVector, settings: SearchSettings) -> MotionVector
    requires { Within 4096 d × (between 1 7 settings.fcode ≡ true) }
    ensures { result ≡ start settings d }
{
    let units = range::units_per_pel(settings.mode);
    let vector = MotionVector {
        x: scaled(d.x, units),
        y: scaled(d.y, units),
    };
    range::clamped(vector, settings.fcode)
}

// The first of least on the sub-sample list that begins at a full-sample winner, with its sum. What the winner cost, which may be
// discounted, is not looked at.
#[tactic(auto, using(crate::proofs::Refined::start_in, crate::proofs::Refined::ring_best_in, crate::proofs::Refined::refine_half))]
pub fn refine_subpel(sought: Sought<'_>, settings: SearchSettings, winner: Scored) -> Scored
    requires { SoughtReady sought × Set settings × Within 4096 winner.vector }
    ensures { let sum = vector_sum settings (lent_block sought.entry) in
        result ≡ refined sum settings winner.vector }
{
    let vector = start(winner.vector, settings);
    let half = half_best(sought, settings, vector);
    match settings.mode {
        BVopSampleMode::HalfPel => half,
        BVopSampleMode::QuarterPel(_) => ring_search(sought, settings, 1, half),
    }
}
