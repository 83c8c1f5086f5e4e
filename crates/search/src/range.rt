// The range of vectors by fcode, vectors clamped into it, and how far the full-sample search goes.
ghost use Rattle.std.specs.Prelude.{◌≡◌, true, ◌≤◌};
ghost use Rattle.refusal.specs.Test.{between};
ghost use Rattle.prediction.specs.Luma.{units_per_pel};
ghost use Rattle.search.specs.Range.{range, low, high, vector_in, clamped, window};

use crate::SearchSettings;
use prediction::BVopSampleMode;
use record::MotionVector;

#[tactic(auto, using(crate::proofs::InRange::range_least, crate::proofs::InRange::range_most), unfolding(crate::specs::Range::range))]
pub fn range(fcode: u32) -> usize
    requires { between 1 7 fcode ≡ true }
    ensures { (result ≡ range fcode) × (32 ≤ result) × (result ≤ 2048) }
{
    32 << (fcode - 1)
}

pub fn units_per_pel(mode: BVopSampleMode) -> usize
    ensures { result ≡ units_per_pel mode }
{
    match mode {
        BVopSampleMode::HalfPel => 2,
        BVopSampleMode::QuarterPel(_) => 4,
    }
}

#[tactic(auto, unfolding(crate::specs::Range::window))]
pub fn full_pel_window(settings: SearchSettings) -> usize
    requires { between 1 7 settings.fcode ≡ true }
    ensures { result ≡ window settings }
{
    if settings.fcode == 1 {
        return 8;
    }
    (range(settings.fcode) / units_per_pel(settings.mode) - 1).max(8)
}

// The least and the greatest part of a vector in a range.
#[derive(Clone, Copy)]
struct Bounds {
    low: i32,
    high: i32,
}

#[tactic(auto, using(crate::proofs::Ends::low_read, crate::proofs::Ends::high_read))]
fn ends(fcode: u32) -> Bounds
    requires { between 1 7 fcode ≡ true }
    ensures low { result.low ≡ low fcode }
    ensures high { result.high ≡ high fcode }
{
    let n = range(fcode) as i32;
    Bounds {
        low: -n,
        high: n - 1,
    }
}

// A vector, clamped into the range of fcode.
pub fn clamped(v: MotionVector, fcode: u32) -> MotionVector
    requires { between 1 7 fcode ≡ true }
    ensures { result ≡ clamped fcode v }
{
    let Bounds { low, high } = ends(fcode);
    MotionVector {
        x: basis::clamp(v.x, low, high),
        y: basis::clamp(v.y, low, high),
    }
}

// Whether both parts of a vector are in the range of fcode.
pub fn vector_in(v: MotionVector, fcode: u32) -> bool
    requires { between 1 7 fcode ≡ true }
    ensures { result ≡ vector_in fcode v }
{
    let Bounds { low, high } = ends(fcode);
    (low..=high).contains(&v.x) && (low..=high).contains(&v.y)
}
