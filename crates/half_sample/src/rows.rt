// A block half a sample on, row by row. Rows that lie inside the reference are read where they stand; a block that crosses its left
// or right edge is copied first, and the copy is then a plane of its own. A row's loop takes its rounding control as a number of its
// own, and its two rows as parts, so that it reads nothing else: its turns are then done many at a time.
ghost use Rattle.std.specs.Prelude.{◌≡◌, true, ◌*◌, ◌<◌, ◌≤◌, pos, length};
ghost use Rattle.basis.specs.Lists.{tabulate, raster};
ghost use Rattle.plane.specs.Plane.{geometry_of, plane_of};
ghost use Rattle.half_sample.specs.ToldRows.{samples_for, average_at, sample_by, some_half, right_of, below_of, between_four};
ghost use Rattle.half_sample.specs.ToldRows.{RowNeeds, PlaneRowNeeds, PlaneRowsNeeds};
ghost use Rattle.half_sample.specs.ToldShifted.{area_of, shifted_block};

use crate::Halves;
use crate::shifted::Shifted;
use plane::{Geometry, Point};

// Half a sample to the right.
#[tactic(auto, using(basis::proofs::Lists::filled_none, basis::proofs::Lists::filled_set))]
pub fn row_b(top: &[u8], rc: u16, out: &mut [u8])
    requires { (length out.old < length top.now) × (rc < 2) }
    ensures { out.new ≡ tabulate (length out.old) (right_of top.now rc) }
{
    for i in 0..out.len() {
        out[i] = crate::average2(top[i], top[i + 1], rc);
    }
}

// Half a sample down.
#[tactic(auto, using(basis::proofs::Lists::filled_none, basis::proofs::Lists::filled_set))]
pub fn row_c(top: &[u8], low: &[u8], rc: u16, out: &mut [u8])
    requires { (length out.old ≤ length top.now) × (length out.old ≤ length low.now) × (rc < 2) }
    ensures { out.new ≡ tabulate (length out.old) (below_of top.now low.now rc) }
{
    for i in 0..out.len() {
        out[i] = crate::average2(top[i], low[i], rc);
    }
}

// Half a sample to the right and down.
#[tactic(auto, using(basis::proofs::Lists::filled_none, basis::proofs::Lists::filled_set))]
pub fn row_d(top: &[u8], low: &[u8], rc: u16, out: &mut [u8])
    requires { (length out.old < length top.now) × (length out.old < length low.now) × (rc < 2) }
    ensures { out.new ≡ tabulate (length out.old) (between_four top.now low.now rc) }
{
    for i in 0..out.len() {
        out[i] = crate::average4(top[i], top[i + 1], low[i], low[i + 1], rc);
    }
}

// The rest by 2 changes nothing, and tells the compiler that the rounding control is 0 or 1.
fn average_row(top: &[u8], low: &[u8], halves: Halves, out: &mut [u8])
    requires { RowNeeds top.now low.now halves (length out.old) }
    ensures { out.new ≡ tabulate (length out.old) (average_at top.now low.now halves) }
{
    let rc = halves.rc % 2;
    match (halves.x, halves.y) {
        (true, true) => row_d(top, low, rc, out),
        (true, false) => row_b(top, rc, out),
        (false, _) => row_c(top, low, rc, out),
    }
}

// How many samples a row of n takes.
fn samples_for(n: usize, half: bool) -> usize
    requires { n ≤ 4096 }
    ensures { result ≡ samples_for n half }
{
    if half { n + 1 } else { n }
}

// Row j of the block that starts at a column and at the row of a point, where its columns lie inside the plane.
fn plane_row(
    samples: &[u8],
    geometry: Geometry,
    column: usize,
    at: Point,
    j: usize,
    halves: Halves,
    out: &mut [u8],
)
    requires { PlaneRowNeeds (plane_of samples.now geometry) column j halves (length out.old) }
    ensures { out.new ≡ tabulate (length out.old)
        (λ i. sample_by (plane_of samples.now geometry) (pos column) at.y halves i j) }
{
    let columns = samples_for(out.len(), halves.x);
    let top = plane::clamp_coordinate(at.y, j, geometry.height) * geometry.stride + column;
    let low = plane::clamp_coordinate(at.y, j + 1, geometry.height) * geometry.stride + column;
    let top_end = top + columns;
    let low_end = low + columns;
    average_row(&samples[top..top_end], &samples[low..low_end], halves, out);
}

// The rows of a block of w columns and h rows, from a column and row y on. What they need is told by numbers, which go from
// function to function in registers; a struct of more than eight bytes goes through memory.
fn plane_rows(
    samples: &[u8],
    width: usize,
    height: usize,
    stride: usize,
    column: usize,
    y: i32,
    w: usize,
    h: usize,
    halves: Halves,
    out: &mut [u8],
)
    requires { PlaneRowsNeeds (plane_of samples.now (geometry_of width height stride)) column w h halves (length out.old) }
    ensures { out.new ≡ raster w h
        (sample_by (plane_of samples.now (geometry_of width height stride)) (pos column) y halves) }
{
    let geometry = Geometry {
        width,
        height,
        stride,
    };
    let at = Point { x: 0, y };
    for j in 0..h {
        let from = j * w;
        let to = from + w;
        plane_row(samples, geometry, column, at, j, halves, &mut out[from..to]);
    }
}

// By way of a copy in the buffer.
fn copied_rows(block: Shifted<'_>, buffer: &mut [u8], out: &mut [u8])
    requires { (length out.old ≡ area_of block) × (some_half block.halves ≡ true)
        × (length buffer.old ≡ samples_for block.site.width block.halves.x * samples_for block.site.height block.halves.y) }
    ensures { out.new ≡ shifted_block block.entry }
{
    let Shifted {
        samples,
        geometry,
        at,
        site,
        halves,
    } = block;
    let columns = samples_for(site.width, halves.x);
    let lines = samples_for(site.height, halves.y);
    let _ = plane::copy_block(samples, geometry, at, columns, lines, buffer);
    plane_rows(
        buffer,
        columns,
        lines,
        columns,
        0,
        0,
        site.width,
        site.height,
        halves,
        out,
    );
}

fn crossing(block: Shifted<'_>, out: &mut [u8])
    requires { (length out.old ≡ area_of block) × (some_half block.halves ≡ true) }
    ensures { out.new ≡ shifted_block block.entry }
{
    let mut buffer = [0u8; 289];
    let site = block.site;
    let count = samples_for(site.width, block.halves.x) * samples_for(site.height, block.halves.y);
    copied_rows(block, &mut buffer[..count], out);
}

// Half a sample on in one direction or in both.
#[tactic(auto, using(plane::proofs::Ready::usable))]
fn averaged(block: Shifted<'_>, out: &mut [u8])
    requires { (length out.old ≡ area_of block) × (some_half block.halves ≡ true) }
    ensures { out.new ≡ shifted_block block.entry }
{
    let Shifted {
        samples,
        geometry,
        at,
        site,
        halves,
    } = block;
    let columns = samples_for(site.width, halves.x);
    if plane::columns_inside(at.x, columns, geometry.width) {
        plane_rows(
            samples,
            geometry.width,
            geometry.height,
            geometry.stride,
            at.x as usize,
            at.y,
            site.width,
            site.height,
            halves,
            out,
        );
    } else {
        crossing(block, out);
    }
}

// The block, whole samples or half a sample on. What is called from one place only is compiled into its caller, so that sites and
// sizes stay in registers: `averaged` and `crossing` are called once.
#[tactic(auto, using(plane::proofs::Ready::copy_done))]
pub fn interpolate_from(block: Shifted<'_>, out: &mut [u8])
    requires { length out.old ≡ area_of block }
    ensures { out.new ≡ shifted_block block.entry }
{
    let Shifted {
        samples,
        geometry,
        at,
        site,
        halves,
    } = block;
    if halves.x || halves.y {
        averaged(block, out);
    } else {
        let _ = plane::copy_block(samples, geometry, at, site.width, site.height, out);
    }
}
