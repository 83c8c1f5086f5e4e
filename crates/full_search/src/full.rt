// The full-sample search: zero, the square of ±8, the lattice beyond it and the dense pass around the lattice's winner; and that of an
// 8 x 8 block around a seed. Every row is searched on a patch of the reference that is copied once.
ghost use Rattle.std.specs.Prelude.{◌≡◌, ◌+◌, ◌*◌, ◌<◌, ◌≤◌, pos, length};
ghost use Rattle.std.specs.Int.Signed.{quot_z};
ghost use Rattle.record.specs.Zero.{zero_vector};
ghost use Rattle.prediction.specs.Luma.{units_per_pel};
ghost use Rattle.full_search.specs.Costs.{at_cost};
ghost use Rattle.full_search.specs.Places.{row_of, square_of, square_row, back, places, lattice_from};
ghost use Rattle.full_search.specs.Full.{near_rows, dense_row_at, dense_row, seed_from};
ghost use Rattle.full_search.specs.Won.{sixteen_best, eight_best};
ghost use Rattle.full_search.specs.Told.{Within, Inside, moved_to};
ghost use Rattle.full_search.specs.ToldKept.{kept_of, found, kept_rows, judged_block, sixteen_cost, eight_cost, target_lattice};
ghost use Rattle.full_search.specs.ToldKept.{row_below, rows_below, StripReady, SquareReady, WideReady, BandReady, LatticeReady};
ghost use Rattle.full_search.specs.ToldPatch.{copied_from, MiddleStart, NearKept};

use crate::judged::Judged;
use crate::{Lines, Row, Scored, Square, rows, sums};
use plane::Point;
use prediction::BVopSampleMode;
use record::MotionVector;

// What zero's sum is lowered by in the search for one vector.
const ZERO_DISCOUNT: u32 = 128;

fn moved_to(corner: Point, d: MotionVector) -> Point
    requires { Inside corner × Within 4096 d }
    ensures { result ≡ moved_to corner d }
{
    Point {
        x: corner.x + d.x,
        y: corner.y + d.y,
    }
}

// The reference's samples from a displacement of the block on. A target that a search takes is refused nowhere.
fn copy_from(judged: Judged<'_>, d: MotionVector, w: usize, h: usize, out: &mut [u8])
    requires { Within 4096 d × (length out.old ≡ w * h) }
    ensures { out.new ≡ copied_from judged.entry d w h }
{
    let sought = judged.sought;
    let target = sought.target;
    let at = moved_to(target.corner, d);
    let _ = plane::copy_block(sought.reference, target.geometry, at, w, h, out);
}

// Zero, at its sum.
#[tactic(auto, using(crate::proofs::Patches::strip_shown, crate::proofs::Shown::shown_sum))]
fn zero_start(judged: Judged<'_>) -> Scored
    ensures { result ≡ at_cost (eight_cost judged.entry) zero_vector }
{
    let mut copy = [0u8; 256];
    let side = judged.sought.target.side;
    let zero = record::zero_vector();
    let block = &mut copy[..side * side];
    copy_from(judged, zero, side, side, block);
    Scored {
        vector: zero,
        cost: sums::block(judged.sought.source, side, block, 0, side, side),
    }
}

// The places of a row, on a strip of the reference.
#[tactic(auto, using(crate::proofs::OnPatches::strip_kept))]
fn strip_search(judged: Judged<'_>, strip: &mut [u8], row: Row, best: Scored) -> Scored
    requires { StripReady judged strip.old row best }
    ensures { result ≡ kept_of (sixteen_cost judged.entry) best (row_of row) }
{
    let sought = judged.sought;
    let side = sought.target.side;
    let width = side + row.step * row.count;
    copy_from(judged, row.from, width, side, strip);
    let lines = Lines {
        first: 0,
        stride: width,
    };
    rows::row_search(sought.source, side, strip, lines, row, ZERO_DISCOUNT, best)
}

// Row j of a square.
fn square_row(square: Square, j: usize) -> Row
    requires { Within 4000 square.from × (j ≤ 17) }
    ensures { result ≡ square_row square j }
{
    Row {
        from: rows::down(square.from, j),
        step: 1,
        count: square.count,
        inner: 0,
        outer: square.outer,
    }
}

// The rows of a square, on a patch of the reference.
#[tactic(auto, using(crate::proofs::OnPatches::square_steps, crate::proofs::EqualSums::no_discount))]
fn square_search(judged: Judged<'_>, patch: &mut [u8], square: Square, best: Scored) -> Scored
    requires { SquareReady judged patch.old square best }
    ensures { result ≡ kept_of (eight_cost judged.entry) best (square_of square) }
{
    let side = judged.sought.target.side;
    let width = side + square.count - 1;
    copy_from(judged, square.from, width, width, patch);
    let mut b = best;
    for j in 0..square.count {
        let row = square_row(square, j);
        let lines = Lines {
            first: j * width,
            stride: width,
        };
        b = rows::row_search(judged.sought.source, side, patch, lines, row, 0, b);
    }
    b
}

// Zero, whose block is the middle of the patch, at its sum less the discount.
#[tactic(auto, using(crate::proofs::OnPatches::middle_sum))]
fn middle_start(source: &[u8], patch: &[u8]) -> Scored
    requires { (length source.now ≡ 256) × (length patch.now ≡ 1024) }
    ensures { MiddleStart source.now patch.now result }
{
    let sum = sums::block(source, 16, patch, 264, 32, 16);
    Scored {
        vector: record::zero_vector(),
        cost: sum.saturating_sub(ZERO_DISCOUNT),
    }
}

// Zero, then the rows of the square of ±8, on their patch.
#[tactic(auto, using(crate::proofs::OnPatches::square_steps, crate::proofs::OnPatches::near_all))]
fn near_rows(source: &[u8], patch: &[u8]) -> Scored
    requires { (length source.now ≡ 256) × (length patch.now ≡ 1024) }
    ensures { NearKept source.now patch.now result }
{
    let square = Square {
        from: MotionVector { x: -8, y: -8 },
        count: 17,
        outer: 8,
    };
    let mut b = middle_start(source, patch);
    for j in 0..17 {
        let row = square_row(square, j);
        let lines = Lines {
            first: j * 32,
            stride: 32,
        };
        b = rows::sixteen_row(source, patch, lines, row, ZERO_DISCOUNT, b);
    }
    b
}

// Zero, then the square of ±8.
fn near_search(judged: Judged<'_>) -> Scored
    requires { judged.sought.target.side ≡ 16 }
    ensures { result ≡ found (sixteen_cost judged.entry) near_rows }
{
    let mut patch = [0u8; 1024];
    let from = MotionVector { x: -8, y: -8 };
    copy_from(judged, from, 32, 32, &mut patch);
    near_rows(judged.sought.source, &patch)
}

// How far the clipped window goes back.
fn back(w: usize, m: usize) -> usize
    requires { m ≤ 4088 }
    ensures { result ≡ back w m }
{
    w.min(m + 15)
}

// How many places of the lattice it has.
fn places(w: usize, m: usize, size: usize) -> usize
    requires { (w ≤ 1023) × (m ≤ 4088) × (size ≤ 4096) }
    ensures { result ≡ places w m size }
{
    let b = back(w, m);
    let left = (b + size).saturating_sub(m);
    (left.min(b + w + 1) + 3) / 4
}

fn lattice_from(w: usize, corner: Point) -> MotionVector
    requires { (w ≤ 1023) × Inside corner }
    ensures { result ≡ lattice_from w corner }
{
    MotionVector {
        x: -(back(w, corner.x as usize) as i32),
        y: -(back(w, corner.y as usize) as i32),
    }
}

fn row_below(row: Row, by: usize) -> Row
    requires { Within 4096 row.from × (by ≤ 4096) }
    ensures { result ≡ row_below row by }
{
    Row {
        from: rows::down(row.from, by),
        ..row
    }
}

// At most four rows of the lattice, on a band of the reference: they are four samples apart, so that 28 rows of samples are copied
// for them and not 16 for each.
fn band_search(judged: Judged<'_>, band: &mut [u8], first: Row, n: usize, best: Scored) -> Scored
    requires { BandReady judged band.old first n best }
    ensures { result ≡ kept_of (sixteen_cost judged.entry) best (rows_below first n) }
{
    let width = 16 + first.step * first.count;
    copy_from(judged, first.from, width, 28, band);
    let mut b = best;
    for i in 0..n {
        let row = row_below(first, 4 * i);
        let lines = Lines {
            first: 4 * i * width,
            stride: width,
        };
        b = rows::sixteen_row(judged.sought.source, band, lines, row, ZERO_DISCOUNT, b);
    }
    b
}

// The lattice's rows, band by band.
fn lattice_bands(
    judged: Judged<'_>,
    first: Row,
    lines: usize,
    band: &mut [u8],
    best: Scored,
) -> Scored
    requires { LatticeReady judged first lines 2048 best × ((16 + first.step * first.count) * 28 ≤ length band.old) }
    ensures { result ≡ kept_of (sixteen_cost judged.entry) best (rows_below first lines) }
{
    let size = (16 + first.step * first.count) * 28;
    let mut b = best;
    for j in (0..lines).step_by(4) {
        let n = (lines - j).min(4);
        let row = row_below(first, 4 * j);
        b = band_search(judged, &mut band[..size], row, n, b);
    }
    b
}

// On a band of this size: a small one is cleared sooner than one that every lattice fits.
fn sized_lattice<const SIZE: usize>(
    judged: Judged<'_>,
    first: Row,
    lines: usize,
    best: Scored,
) -> Scored
    requires { LatticeReady judged first lines 2048 best × ((16 + first.step * first.count) * 28 ≤ SIZE) × (SIZE ≤ 57792) }
    ensures { result ≡ kept_of (sixteen_cost judged.entry) best (rows_below first lines) }
{
    let mut band = [0u8; SIZE];
    lattice_bands(judged, first, lines, &mut band, best)
}

// The lattice.
fn lattice_search(judged: Judged<'_>, w: usize, best: Scored) -> Scored
    requires { WideReady judged w best }
    ensures { let s = judged.entry in result ≡ kept_of (sixteen_cost s) best (target_lattice w s.sought.target) }
{
    let target = judged.sought.target;
    let corner = target.corner;
    let count = places(w, corner.x as usize, target.geometry.width);
    let lines = places(w, corner.y as usize, target.geometry.height);
    let first = Row {
        from: lattice_from(w, corner),
        step: 4,
        count,
        inner: 9,
        outer: w,
    };
    if count <= 64 {
        return sized_lattice::<7616>(judged, first, lines, best);
    }
    sized_lattice::<57792>(judged, first, lines, best)
}

// Row j of the dense pass: seven columns around c, rows around the lattice's winner.
fn dense_row(w: usize, winner: MotionVector, c: MotionVector, j: usize) -> Row
    requires { Within 1023 winner × Within 1023 c × (j < 7) }
    ensures { result ≡ dense_row_at w winner.y c j }
{
    let from = MotionVector {
        x: c.x - 3,
        y: winner.y - 3,
    };
    Row {
        from: rows::down(from, j),
        step: 1,
        count: 7,
        inner: 0,
        outer: w,
    }
}

// The dense pass: its rows are fixed by the winner at its start, its columns are taken anew in each row.
#[tactic(auto, using(crate::proofs::Kept::kept_rows_more), unfolding(crate::specs::ToldKept::kept_rows))]
fn dense_search(judged: Judged<'_>, w: usize, best: Scored) -> Scored
    requires { WideReady judged w best × Within 1023 best.vector }
    ensures { result ≡ kept_rows (sixteen_cost judged.entry) (dense_row w best.vector.y) best 7 }
{
    let mut strip = [0u8; 368];
    let winner = best.vector;
    let mut b = best;
    for j in 0..7 {
        let row = dense_row(w, winner, b.vector, j);
        b = strip_search(judged, &mut strip, row, b);
    }
    b
}

// The winner of the full-sample list of one vector, with its cost.
pub fn full_search(judged: Judged<'_>, fcode: u32, w: usize) -> Scored
    requires { (judged.sought.target.side ≡ 16) × (w ≤ 1023) }
    ensures { result ≡ sixteen_best (judged_block judged.entry) fcode w }
{
    let near = near_search(judged);
    if fcode <= 1 {
        return near;
    }
    let coarse = lattice_search(judged, w, near);
    if coarse.cost < near.cost {
        return dense_search(judged, w, coarse);
    }
    near
}

// A component of the seed in whole samples, toward zero.
fn divided(z: i32, mode: BVopSampleMode) -> i32
    ensures { result ≡ quot_z z (pos (units_per_pel mode)) }
{
    match mode {
        BVopSampleMode::HalfPel => z / 2,
        BVopSampleMode::QuarterPel(_) => z / 4,
    }
}

fn seed_from(seed: MotionVector, mode: BVopSampleMode) -> MotionVector
    requires { Within 2048 seed }
    ensures { result ≡ seed_from mode seed }
{
    MotionVector {
        x: divided(seed.x, mode) - 2,
        y: divided(seed.y, mode) - 2,
    }
}

// The winner of the full-sample list of one of four vectors, with its sum.
#[tactic(auto, using(crate::proofs::FullSearch::four_is), unfolding(crate::specs::Won::eight_best))]
pub fn four_search(judged: Judged<'_>, w: usize, mode: BVopSampleMode, seed: MotionVector) -> Scored
    requires { (judged.sought.target.side ≡ 8) × Within 2048 seed }
    ensures { result ≡ eight_best (judged_block judged.entry) mode w seed }
{
    let mut patch = [0u8; 144];
    let zero = zero_start(judged);
    let square = Square {
        from: seed_from(seed, mode),
        count: 5,
        outer: w,
    };
    square_search(judged, &mut patch, square, zero)
}
