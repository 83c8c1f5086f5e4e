// The start and the ring half a sample around it, in half mode, where the start is a whole place and no neighbour is clamped. All nine
// blocks are windows: of one patch of the reference, and of the three grids of samples between its samples (7.6.2.1).
ghost use Rattle.std.specs.Prelude.{◌≡◌, true, ◌<◌, ◌≤◌, pos, ◌+ℤ◌, ◌-ℤ◌, length};
ghost use mathlib.Core.List.{foldl};
ghost use Rattle.refusal.specs.Test.{between};
ghost use Rattle.half_sample.specs.Split.{split_half};
ghost use Rattle.half_sample.specs.Ring.{ring_corner};
ghost use Rattle.full_search.specs.Block.{lent_block};
ghost use Rattle.full_search.specs.Costs.{consider, at_cost};
ghost use Rattle.full_search.specs.Told.{Within, Inside};
ghost use Rattle.search.specs.Sub.{ring};
ghost use Rattle.search.specs.Told.{SoughtReady};
ghost use Rattle.search.specs.ToldGrids.{half_sum, free, window_of, patch_size, patch_of, Addable, FreeStart, Areas};
ghost use Rattle.search.specs.ToldHalfGrids.{lent_sum, RingKept};

use crate::half_grids::HalfGrids;
use crate::{range, sub};
use full_search::{Scored, Sought};
use plane::Point;
use record::MotionVector;

// Whether c stands at a whole place and none of the 3 x 3 around it is clamped.
pub fn is_free(c: MotionVector, fcode: u32) -> bool
    requires { Within 2048 c × (between 1 7 fcode ≡ true) }
    ensures { result ≡ free fcode c }
{
    if half_sample::split_half_pel(c.x).half || half_sample::split_half_pel(c.y).half {
        return false;
    }
    let first = sub::beside(c, 1, 0);
    let last = sub::beside(c, 1, 8);
    range::vector_in(first, fcode) && range::vector_in(last, fcode)
}

// Where the window of place n begins.
fn window_of(stride: usize, n: usize) -> usize
    requires { (stride ≤ 18) × (n < 9) }
    ensures { result ≡ window_of stride n }
{
    (n / 3).min(1) * stride + (n % 3).min(1)
}

// The sum on the window of place n.
#[tactic(auto, using(crate::proofs::GridSums::standing))]
fn grid_sum(grids: HalfGrids<'_>, n: usize) -> u32
    requires { n < 9 }
    ensures { result ≡ lent_sum grids.entry n }
{
    let stride = grids.side + 2;
    let grid = if n / 3 == 1 {
        grids.right
    } else if n % 3 == 1 {
        grids.under
    } else {
        grids.diagonal
    };
    full_search::window_sum(grids.source, grid, window_of(stride, n), stride, grids.side)
}

// The eight around the best so far.
fn grid_ring(grids: HalfGrids<'_>, fcode: u32, best: Scored) -> Scored
    requires { Within 2048 best.vector × (between 1 7 fcode ≡ true) }
    ensures { RingKept grids.entry fcode best.vector best result }
{
    sub::ring(best, fcode, 1, |n, _| grid_sum(grids, n))
}

fn before(corner: i32, v: i32) -> i32
    requires { Addable corner v }
    ensures { result ≡ corner +ℤ ((split_half v).whole -ℤ pos 1) }
{
    let split = half_sample::split_half_pel(v);
    corner + (split.whole - 1)
}

// Where the patch around v begins.
fn patch_corner(corner: Point, v: MotionVector) -> Point
    requires { Inside corner × Within 2048 v }
    ensures { result ≡ ring_corner corner v }
{
    Point {
        x: before(corner.x, v.x),
        y: before(corner.y, v.y),
    }
}

// The block that v moves to, with a sample more on each side.
#[tactic(auto, using(plane::proofs::Ready::copy_done))]
fn copy_patch(sought: Sought<'_>, v: MotionVector, patch: &mut [u8])
    requires { SoughtReady sought × Within 2048 v × (length patch.old ≡ patch_size sought.target.side) }
    ensures { patch.new ≡ patch_of sought.entry v }
{
    let target = sought.target;
    let stride = target.side + 2;
    let at = patch_corner(target.corner, v);
    // An area of its size is not refused.
    plane::copy_block(sought.reference, target.geometry, at, stride, stride, patch).unwrap();
}

// By way of a patch of so many samples and of grids of so many.
#[tactic(auto, using(crate::proofs::InRange::in_within))]
fn best_of<const PATCH: usize, const GRID: usize>(
    sought: Sought<'_>,
    rounding: u8,
    fcode: u32,
    v: MotionVector,
) -> Scored
    requires { FreeStart sought fcode v × Areas sought.target.side PATCH GRID }
    ensures { let sum = half_sum rounding (lent_block sought.entry) in
        result ≡ foldl (consider sum) (at_cost sum v) (ring fcode 1 v) }
{
    let mut patch = [0u8; PATCH];
    let mut right = [0u8; GRID];
    let mut under = [0u8; GRID];
    let mut diagonal = [0u8; GRID];
    let side = sought.target.side;
    let stride = side + 2;
    copy_patch(sought, v, &mut patch);
    // Grids of their size are not refused.
    half_sample::interpolate_ring_into(
        &patch,
        stride,
        rounding,
        &mut right,
        &mut under,
        &mut diagonal,
    )
    .unwrap();
    let cost = full_search::window_sum(sought.source, &patch, side + 3, stride, side);
    let first = Scored { vector: v, cost };
    let grids = HalfGrids {
        source: sought.source,
        side,
        right: &right,
        under: &under,
        diagonal: &diagonal,
    };
    grid_ring(grids, fcode, first)
}

// The best of a start and the eight around it.
pub fn half_best(sought: Sought<'_>, rounding: u8, fcode: u32, v: MotionVector) -> Scored
    requires { FreeStart sought fcode v }
    ensures { let sum = half_sum rounding (lent_block sought.entry) in
        result ≡ foldl (consider sum) (at_cost sum v) (ring fcode 1 v) }
{
    if sought.target.side == 16 {
        return best_of::<324, 305>(sought, rounding, fcode, v);
    }
    best_of::<100, 89>(sought, rounding, fcode, v)
}
