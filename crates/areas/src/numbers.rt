// Structs from the numbers that C hands over.
ghost use Rattle.std.specs.Prelude.{◌≡◌};
ghost use Rattle.plane.specs.Corner.{block_at};
ghost use Rattle.areas.specs.Numbers.{vector_of, point_of, is_set, flag_of, four_motion, reference_geometry, macroblock_settings};

use macroblock::Settings;
use plane::{Geometry, Point, Site};
use prediction::{PvopMbMotion, ReferenceGeometry};
use record::MotionVector;

// Horizontal, then vertical.
pub fn vector_of(x: i32, y: i32) -> MotionVector
    ensures { result ≡ vector_of x y }
{
    MotionVector { x, y }
}

// Column, then row.
pub fn point_of(x: i32, y: i32) -> Point
    ensures { result ≡ point_of x y }
{
    Point { x, y }
}

// A block's corner, column first, then its width and height.
pub fn site_of(x: i32, y: i32, width: usize, height: usize) -> Site
    ensures { result ≡ block_at x y width height }
{
    let corner = Point { x, y };
    Site {
        corner,
        width,
        height,
    }
}

// Any number but 0 is yes.
pub fn is_set(n: u8) -> bool
    ensures { result ≡ is_set n }
{
    n != 0
}

// Yes is written as 1.
pub fn flag_of(yes: bool) -> u8
    ensures { result ≡ flag_of yes }
{
    if yes { 1 } else { 0 }
}

// Each vector's horizontal, then vertical.
pub fn four_motion(n: [i32; 8]) -> PvopMbMotion
    ensures { result ≡ four_motion n }
{
    let a = vector_of(n[0], n[1]);
    let b = vector_of(n[2], n[3]);
    let c = vector_of(n[4], n[5]);
    let d = vector_of(n[6], n[7]);
    PvopMbMotion::FourMv(a, b, c, d)
}

// Luma's sizes and stride, and the stride of both chroma planes.
pub fn reference_geometry(
    width: usize,
    height: usize,
    stride: usize,
    chroma_stride: usize,
) -> ReferenceGeometry
    ensures { result ≡ reference_geometry width height stride chroma_stride }
{
    let luma = Geometry {
        width,
        height,
        stride,
    };
    ReferenceGeometry {
        luma,
        chroma_stride,
    }
}

pub fn settings_of(
    fcode: u32,
    mode: u32,
    bpp: u32,
    quantiser: u32,
    first_method: u8,
    vectors: u32,
    scan: u32,
) -> Settings
    ensures { result ≡ macroblock_settings fcode mode bpp quantiser first_method vectors scan }
{
    Settings {
        fcode,
        mode,
        bpp,
        quantiser,
        first_method: is_set(first_method),
        vectors,
        scan,
    }
}
