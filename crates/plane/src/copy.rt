// Copies out of a plane that the samples hold. Rows that lie inside it are copied as they stand, a narrow block past an edge is read
// by a list of its columns, and a wide one row by row in parts.
ghost use Rattle.std.specs.Prelude.{◌≡◌, ◌+◌, ◌*◌, ◌<◌, ◌≤◌, pos, length};
ghost use Rattle.basis.specs.Lists.{tabulate};
ghost use Rattle.plane.specs.Plane.{geometry_of, plane_of, sample_at, copied, copied_block};
ghost use Rattle.plane.specs.ToldHeld.{Held, clamped_in, column_at, gathered, ColumnsIn};
ghost use Rattle.plane.specs.ToldLent.{lent_plane};
ghost use Rattle.plane.specs.ToldRows.{CallableRows, FilledBy};

use crate::held::HeldPlane;
use crate::{Geometry, Point, straight};

#[tactic(auto, unfolding(crate::specs::Plane::sample_at))]
pub fn sample(samples: &[u8], geometry: Geometry, x: i32, y: i32) -> u8
    requires { Held (plane_of samples.now geometry) }
    ensures { result ≡ sample_at (plane_of samples.now geometry) x y }
{
    let column = crate::clamp_coordinate(x, 0, geometry.width);
    let row = crate::clamp_coordinate(y, 0, geometry.height);
    samples[row * geometry.stride + column]
}

// One sample throughout. By the library's `fill`, which writes the last place apart, a block of 16 x 16 past an edge took a third longer.
#[tactic(auto, using(basis::proofs::Lists::filled_none, basis::proofs::Lists::filled_set))]
fn fill(sample: u8, out: &mut [u8])
    ensures { out.new ≡ tabulate (length out.old) (λ _. sample) }
{
    for i in 0..out.len() {
        out[i] = sample;
    }
}

// Samples of a row from one of its own columns on, its last for each that would come after it.
fn copy_from(row: &[u8], at: usize, out: &mut [u8])
    requires { at < length row.now }
    ensures { out.new ≡ tabulate (length out.old) (clamped_in row.now (pos at)) }
{
    let inside = row.len() - at;
    if out.len() <= inside {
        let end = at + out.len();
        straight::copy_straight(&row[at..end], out);
        return;
    }
    straight::copy_straight(&row[at..], &mut out[..inside]);
    fill(row[row.len() - 1], &mut out[inside..]);
}

// Samples of a row from column x on, its first for each that would come before it. Each part is filled or copied whole, so that a
// row which crosses an edge costs no test for each sample.
fn copy_row(row: &[u8], x: i32, out: &mut [u8])
    requires { 0 < length row.now }
    ensures { out.new ≡ tabulate (length out.old) (clamped_in row.now x) }
{
    let left = (x.min(0).unsigned_abs() as usize).min(out.len());
    let at = (x.max(0) as usize).min(row.len() - 1);
    fill(row[0], &mut out[..left]);
    copy_from(row, at, &mut out[left..]);
}

// Row j of a copied block.
fn copy_plane_row(plane: HeldPlane<'_>, at: Point, j: usize, out: &mut [u8])
    ensures { out.new ≡ tabulate (length out.old) (λ i. copied (lent_plane plane.entry) at.x at.y i j) }
{
    let HeldPlane { samples, geometry } = plane;
    let start = crate::clamp_coordinate(at.y, j, geometry.height) * geometry.stride;
    let end = start + geometry.width;
    copy_row(&samples[start..end], at.x, out);
}

// Row j of a block whose columns lie inside the plane, from a column on: as it stands.
fn straight_row(plane: HeldPlane<'_>, column: usize, at: Point, j: usize, out: &mut [u8])
    requires { column + length out.old ≤ plane.geometry.width }
    ensures { out.new ≡ tabulate (length out.old) (λ i. copied (lent_plane plane.entry) (pos column) at.y i j) }
{
    let HeldPlane { samples, geometry } = plane;
    let start = crate::clamp_coordinate(at.y, j, geometry.height) * geometry.stride + column;
    let end = start + out.len();
    straight::copy_straight(&samples[start..end], out);
}

// The columns of a block that starts at x.
fn set_columns(x: i32, width: usize, columns: &mut [usize])
    ensures { columns.new ≡ tabulate (length columns.old) (column_at width x) }
{
    for i in 0..columns.len() {
        columns[i] = crate::clamp_coordinate(x, i, width);
    }
}

// The samples of a row that stand at these columns.
fn gather(row: &[u8], columns: &[usize], out: &mut [u8])
    requires { (length columns.now ≡ length out.old) × ColumnsIn columns.now (length row.now) }
    ensures { out.new ≡ tabulate (length out.old) (gathered row.now columns.now) }
{
    for i in 0..out.len() {
        out[i] = row[columns[i]];
    }
}

// Row j of a block, by its columns.
fn gathered_row(plane: HeldPlane<'_>, columns: &[usize], at: Point, j: usize, out: &mut [u8])
    requires { (length columns.now ≡ length out.old)
        × (columns.now ≡ tabulate (length columns.now) (column_at plane.geometry.width at.x)) }
    ensures { out.new ≡ tabulate (length out.old) (λ i. copied (lent_plane plane.entry) at.x at.y i j) }
{
    let HeldPlane { samples, geometry } = plane;
    let start = crate::clamp_coordinate(at.y, j, geometry.height) * geometry.stride;
    let end = start + geometry.width;
    gather(&samples[start..end], columns, out);
}

// The rows of a block, each filled by a call that is told its number. What the calls read is moved into them: by references to it a
// block that lies inside took two thirds longer.
fn block_rows<F: Fn(usize, &mut [u8])>(w: usize, h: usize, out: &mut [u8], fill: F)
    requires area { length out.old ≡ h * w }
    requires callable { CallableRows (λ j part. F.pre fill j part) w h }
    ensures { FilledBy (λ j part left. F.post fill j part tt left) w h out.new }
{
    for j in 0..h {
        let from = j * w;
        let to = from + w;
        fill(j, &mut out[from..to]);
    }
}

// A narrow block past an edge: its columns are told once, and each row is read by them, with no parts of other lengths.
fn narrow_rows(plane: HeldPlane<'_>, at: Point, w: usize, h: usize, out: &mut [u8])
    requires { (w ≤ 9) × (length out.old ≡ h * w) }
    ensures { out.new ≡ copied_block (lent_plane plane.entry) at w h }
{
    let mut columns = [0usize; 9];
    set_columns(at.x, plane.geometry.width, &mut columns[..w]);
    let told = &columns[..w];
    block_rows(w, h, out, move |j, part| {
        gathered_row(plane, told, at, j, part)
    });
}

// The sizes are told by numbers, which go from function to function in registers.
pub fn copy_rows(
    samples: &[u8],
    width: usize,
    height: usize,
    stride: usize,
    at: Point,
    w: usize,
    h: usize,
    out: &mut [u8],
)
    requires { Held (plane_of samples.now (geometry_of width height stride)) × (length out.old ≡ h * w) }
    ensures { out.new ≡ copied_block (plane_of samples.now (geometry_of width height stride)) at w h }
{
    let geometry = Geometry {
        width,
        height,
        stride,
    };
    let plane = HeldPlane { samples, geometry };
    if crate::columns_inside(at.x, w, width) {
        let column = at.x as usize;
        block_rows(w, h, out, move |j, part| {
            straight_row(plane, column, at, j, part)
        });
        return;
    }
    if w <= 9 {
        narrow_rows(plane, at, w, h, out);
        return;
    }
    block_rows(w, h, out, move |j, part| {
        copy_plane_row(plane, at, j, part)
    });
}
