// Planes of samples. A reference is read with both coordinates clamped into it (7.6.4), sample by sample or as a copied block;
// `source` has the blocks of the picture that is coded.
#![tactic(auto)]

ghost use Rattle.std.specs.Prelude.{◌≡◌, pos, ◌+ℤ◌, length};
ghost use Rattle.refusal.specs.Reply.{done};
ghost use Rattle.plane.specs.Plane.{geometry_of, plane_of, clamp_to, copied_block, columns_inside};
ghost use Rattle.plane.specs.Reference.{sized, origin_in_range, vector_in_range, is_side, reference_size_reply, reference_bytes_reply, reference_reply, motion_reply, length_reply, side_reply, block_reply, copy_reply, same_reply, fetched};
ghost use Rattle.plane.specs.Corner.{block_at};

use record::MotionVector;
use refusal::{Refusal, Reply};

mod copy;
mod held;
pub mod source;
mod straight;

// A plane has `height` rows of `stride` samples, of which the first `width` of each are the picture's.
#[derive(Clone, Copy, Debug, PartialEq, Eq)]
pub struct Geometry {
    pub width: usize,
    pub height: usize,
    pub stride: usize,
}

// Whole samples from a plane's first.
#[derive(Clone, Copy, Debug, PartialEq, Eq)]
pub struct Point {
    pub x: i32,
    pub y: i32,
}

// Where a block stands in a plane: its corner, how wide and how high it is.
#[derive(Clone, Copy, Debug, PartialEq, Eq)]
pub struct Site {
    pub corner: Point,
    pub width: usize,
    pub height: usize,
}

// The picture that is coded, in luma samples.
#[derive(Clone, Copy, Debug, PartialEq, Eq)]
pub struct SourceSize {
    pub width: usize,
    pub height: usize,
}

// Samples of luma, Cb and Cr that are read: a picture's planes, or a macroblock's 16 x 16 of luma and 8 x 8 of Cb and of Cr.
#[derive(Clone, Copy)]
pub struct Samples<'a> {
    pub y: &'a [u8],
    pub cb: &'a [u8],
    pub cr: &'a [u8],
}

// The same, to be written.
#[derive(Drop)]
pub struct SamplesMut<'a> {
    pub y: &'a mut [u8],
    pub cb: &'a mut [u8],
    pub cr: &'a mut [u8],
}

// In macroblocks.
#[derive(Clone, Copy, Debug, PartialEq, Eq)]
pub struct MacroblockPlace {
    pub column: usize,
    pub row: usize,
}

// The place in 0..size that is nearest to x + i, and 0 where there is none. A branch for each side of the plane: rows that lie inside it
// are then found sooner than by a sum that saturates.
pub fn clamp_coordinate(x: i32, i: usize, size: usize) -> usize
    ensures { result ≡ clamp_to size (x +ℤ pos i) }
{
    if x < 0 {
        let down = (-1 - x) as usize;
        if i <= down {
            return 0;
        }
        return (i - down - 1).min(size.saturating_sub(1));
    }
    if size <= i {
        return size.saturating_sub(1);
    }
    let up = x as usize;
    if size - i <= up {
        return size - 1;
    }
    up + i
}

// Whether w columns from x on all lie in a plane of this width, for any numbers.
pub fn columns_inside(x: i32, w: usize, width: usize) -> bool
    ensures { result ≡ columns_inside x w width }
{
    x >= 0 && w <= width && x as usize <= width - w
}

fn is_sized(geometry: Geometry) -> bool
    ensures { result ≡ sized geometry }
{
    let w = geometry.width;
    let h = geometry.height;
    let t = geometry.stride;
    (1..=4096).contains(&w) && (1..=4096).contains(&h) && (w..=8192).contains(&t)
}

// 4
#[tactic(auto, unfolding(crate::specs::Reference::reference_size_reply))]
pub fn reference_size_reply(geometry: Geometry) -> Reply
    ensures { result ≡ reference_size_reply geometry }
{
    refusal::require(is_sized(geometry), Refusal::ReferenceSize)
}

// 5, of any sizes: a sum that does not fit is cut to the greatest number, and no count of bytes is above that.
#[tactic(auto, unfolding(crate::specs::Reference::reference_bytes_reply))]
pub fn reference_bytes_reply(geometry: Geometry, bytes: usize) -> Reply
    ensures { result ≡ reference_bytes_reply geometry bytes }
{
    let above = geometry
        .height
        .saturating_sub(1)
        .saturating_mul(geometry.stride);
    let last = above.saturating_add(geometry.width.saturating_sub(1));
    refusal::require(last < bytes, Refusal::ReferenceBytes)
}

// 4, 5. Every block is judged by this: it multiplies sizes that it knows to be small, with no other test of them.
#[tactic(auto, unfolding(crate::specs::Reference::reference_reply, crate::specs::Reference::reference_size_reply, crate::specs::Reference::reference_bytes_reply))]
pub fn reference_reply(geometry: Geometry, bytes: usize) -> Reply
    ensures { result ≡ reference_reply geometry bytes }
{
    let w = geometry.width;
    let h = geometry.height;
    let t = geometry.stride;
    refusal::require(is_sized(geometry), Refusal::ReferenceSize)?;
    refusal::require((h - 1) * t + (w - 1) < bytes, Refusal::ReferenceBytes)
}

fn origin_in_range(origin: Point) -> bool
    ensures { result ≡ origin_in_range origin }
{
    (-4096..=4096).contains(&origin.x) && (-4096..=4096).contains(&origin.y)
}

// Both parts in -2,048..2,047.
pub fn vector_in_range(vector: MotionVector) -> bool
    ensures { result ≡ vector_in_range vector }
{
    (-2048..=2047).contains(&vector.x) && (-2048..=2047).contains(&vector.y)
}

// 8, for interpolation
#[tactic(auto, unfolding(crate::specs::Reference::motion_reply))]
pub fn motion_reply(vector: MotionVector, origin: Point) -> Reply
    ensures { result ≡ motion_reply vector origin }
{
    refusal::require(
        origin_in_range(origin) && vector_in_range(vector),
        Refusal::Place,
    )
}

// 12: an area that is not w times h long
#[tactic(auto, unfolding(crate::specs::Reference::length_reply))]
pub fn length_reply(area: usize, w: usize, h: usize) -> Reply
    ensures { result ≡ length_reply area w h }
{
    refusal::require(w.checked_mul(h) == Some(area), Refusal::Length)
}

fn is_side(n: usize) -> bool
    ensures { result ≡ is_side n }
{
    n == 8 || n == 16
}

// 14
#[tactic(auto, unfolding(crate::specs::Reference::side_reply))]
pub fn side_reply(block_w: usize, block_h: usize) -> Reply
    ensures { result ≡ side_reply block_w block_h }
{
    refusal::require(is_side(block_w) && is_side(block_h), Refusal::Choice)
}

// What turns an interpolation back: 4, 5, 8, 12, 14. A plane and a block are told by numbers: a struct of more than eight bytes is
// handed on through memory, and what is read there in other pieces than it was written waits until it is there.
#[tactic(auto, unfolding(crate::specs::Reference::block_reply))]
pub fn block_numbers_reply(
    width: usize,
    height: usize,
    stride: usize,
    bytes: usize,
    vector: MotionVector,
    x: i32,
    y: i32,
    block_w: usize,
    block_h: usize,
    area: usize,
) -> Reply
    ensures { result ≡ block_reply (geometry_of width height stride) bytes vector (block_at x y block_w block_h) area }
{
    reference_reply(
        Geometry {
            width,
            height,
            stride,
        },
        bytes,
    )?;
    motion_reply(vector, Point { x, y })?;
    length_reply(area, block_w, block_h)?;
    side_reply(block_w, block_h)
}

// The same of a plane and a block as structs.
pub fn block_reply(
    geometry: Geometry,
    bytes: usize,
    vector: MotionVector,
    site: Site,
    area: usize,
) -> Reply
    ensures { result ≡ block_reply geometry bytes vector site area }
{
    let corner = site.corner;
    block_numbers_reply(
        geometry.width,
        geometry.height,
        geometry.stride,
        bytes,
        vector,
        corner.x,
        corner.y,
        site.width,
        site.height,
        area,
    )
}

// The sample at column x and row y, both clamped: 4, 5.
pub fn fetch_clamped(samples: &[u8], geometry: Geometry, x: i32, y: i32) -> Result<u8, Refusal>
    ensures { result ≡ fetched samples.now geometry x y }
{
    reference_reply(geometry, samples.len())?;
    Ok(copy::sample(samples, geometry, x, y))
}

// The samples as they are: 12 where the area is not as long.
pub fn copy_samples(from: &[u8], out: &mut [u8]) -> Reply
    ensures value { result ≡ same_reply (length from.now) (length out.old) }
    ensures out_after { out.new ≡ done result from.now out.old }
{
    refusal::require(from.len() == out.len(), Refusal::Length)?;
    straight::copy_straight(from, out);
    Ok(())
}

// The block of w columns and h rows from a point on, row by row: 4, 5, 12. One without columns takes no work, however many rows;
// the test stands here because rows are copied faster without it.
#[tactic(auto, unfolding(crate::specs::Reference::copy_reply))]
pub fn copy_block(
    samples: &[u8],
    geometry: Geometry,
    at: Point,
    w: usize,
    h: usize,
    out: &mut [u8],
) -> Reply
    ensures value { result ≡ copy_reply geometry (length samples.now) w h (length out.old) }
    ensures out_after { out.new ≡ done result (copied_block (plane_of samples.now geometry) at w h) out.old }
{
    reference_reply(geometry, samples.len())?;
    length_reply(out.len(), w, h)?;
    if w != 0 {
        copy::copy_rows(
            samples,
            geometry.width,
            geometry.height,
            geometry.stride,
            at,
            w,
            h,
            out,
        );
    }
    Ok(())
}
