// Searches over rows of displacements, on a patch that was copied from the reference: each keeps the first of least cost.
ghost use Rattle.std.specs.Prelude.{◌≡◌, T, [], ◌∷◌, ℕ, ◌*◌, ◌≤◌};
ghost use Rattle.full_search.specs.Places.{right, down, distance, listed, row_of};
ghost use Rattle.full_search.specs.Told.{Within};
ghost use Rattle.full_search.specs.ToldPatch.{lines_from, PlaceReady, RowReady, ListedWhole, row_columns, KeptOn};

use crate::{Lines, Row, Scored, sums};
use record::MotionVector;

pub fn right(d: MotionVector, by: usize) -> MotionVector
    requires { Within 4096 d × (by ≤ 4096) }
    ensures { result ≡ right d by }
{
    MotionVector {
        x: d.x + by as i32,
        ..d
    }
}

pub fn down(d: MotionVector, by: usize) -> MotionVector
    requires { Within 4096 d × (by ≤ 4096) }
    ensures { result ≡ down d by }
{
    MotionVector {
        y: d.y + by as i32,
        ..d
    }
}

fn distance(d: MotionVector) -> usize
    ensures { result ≡ distance d }
{
    basis::magnitude(d.x).max(basis::magnitude(d.y)) as usize
}

// One place of a row, whose block stands at `at` in the patch.
#[tactic(auto, using(crate::proofs::OnPatches::passed_over, crate::proofs::Listed::too_near, crate::proofs::Listed::too_far))]
fn place_search(
    source: &[u8],
    side: usize,
    patch: &[u8],
    at: Lines,
    d: MotionVector,
    row: Row,
    discount: u32,
    best: Scored,
) -> Scored
    requires { PlaceReady side source.now patch.now at }
    ensures { KeptOn side source.now patch.now at side d discount (listed row.inner row.outer d) best result }
{
    let far = distance(d);
    if far < row.inner {
        return best;
    }
    if row.outer < far {
        return best;
    }
    let sum = sums::block(source, side, patch, at.first, at.stride, side);
    if far == 0 {
        return crate::consider(best, d, sum.saturating_sub(discount));
    }
    crate::consider(best, d, sum)
}

// The places of a row, the first of which stands at `at` in the patch.
#[tactic(auto, using(crate::proofs::OnPatches::row_steps))]
pub fn row_search(
    source: &[u8],
    side: usize,
    patch: &[u8],
    at: Lines,
    row: Row,
    discount: u32,
    best: Scored,
) -> Scored
    requires { RowReady side source.now patch.now at row }
    ensures { KeptOn side source.now patch.now at (row_columns side row) row.from discount (row_of row) best result }
{
    let mut b = best;
    for k in 0..row.count {
        let by = row.step * k;
        let d = right(row.from, by);
        let here = Lines {
            first: at.first + by,
            stride: at.stride,
        };
        b = place_search(source, side, patch, here, d, row, discount, b);
    }
    b
}

// One place of a 16 x 16 block, which is listed and is not zero.
fn other_place(
    source: &[u8],
    patch: &[u8],
    first: usize,
    stride: usize,
    d: MotionVector,
    best: Scored,
) -> Scored
    requires { PlaceReady 16 source.now patch.now (lines_from first stride) × (distance d ≡ 0 → ⊥) }
    ensures { (discount : ℕ) → KeptOn 16 source.now patch.now (lines_from first stride) 16 d discount (d ∷ []) best result }
{
    let sum = sums::block(source, 16, patch, first, stride, 16);
    crate::consider(best, d, sum)
}

// Whether all places of a row are listed and none of them is zero: its ends are in the window, and it passes the inner square.
#[tactic(auto, using(crate::proofs::Whole::listed_whole))]
fn is_whole(row: Row) -> bool
    requires { Within 4096 row.from × (row.step * row.count ≤ 4096) }
    ensures { T result → ListedWhole row }
{
    if row.count == 0 {
        return false;
    }
    let last = right(row.from, row.step * (row.count - 1));
    let tall = basis::magnitude(row.from.y) as usize;
    row.inner.max(1) <= tall && distance(row.from).max(distance(last)) <= row.outer
}

// The places of a row that is listed whole: no place asks whether it is.
fn whole_row(source: &[u8], patch: &[u8], at: Lines, row: Row, best: Scored) -> Scored
    requires { RowReady 16 source.now patch.now at row × ListedWhole row }
    ensures { (discount : ℕ) → KeptOn 16 source.now patch.now at (row_columns 16 row) row.from discount (row_of row) best result }
{
    let mut b = best;
    for k in 0..row.count {
        let by = row.step * k;
        let d = right(row.from, by);
        b = other_place(source, patch, at.first + by, at.stride, d, b);
    }
    b
}

// The places of a row, of a 16 x 16 block.
pub fn sixteen_row(
    source: &[u8],
    patch: &[u8],
    at: Lines,
    row: Row,
    discount: u32,
    best: Scored,
) -> Scored
    requires { RowReady 16 source.now patch.now at row }
    ensures { KeptOn 16 source.now patch.now at (row_columns 16 row) row.from discount (row_of row) best result }
{
    if is_whole(row) {
        return whole_row(source, patch, at, row, best);
    }
    row_search(source, 16, patch, at, row, discount, best)
}
