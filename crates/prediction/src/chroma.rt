// The chroma vector of a macroblock: luma's vectors, in half or quarter samples, give one in half samples of chroma.
ghost use Rattle.std.specs.Prelude.{◌≡◌, true, ◌≤◌, nat_abs};
ghost use Rattle.plane.specs.Reference.{vector_in_range};
ghost use Rattle.prediction.specs.declared.BVopSampleMode.TheVariants.{HalfPel};
ghost use Rattle.prediction.specs.declared.PvopMbMotion.TheVariants.{OneMv, FourMv};
ghost use Rattle.prediction.specs.Chroma.{in_halves, chroma_of_one, halves_of, chroma_of_sum, chroma_vector, motion_in_range, vectors_reply};

use crate::{BVopSampleMode, PvopMbMotion};
use record::MotionVector;
use refusal::{Refusal, Reply};

// A vector in half samples: in quarter mode its parts are halved toward zero.
fn in_halves(v: MotionVector, mode: BVopSampleMode) -> MotionVector
    requires { vector_in_range v ≡ true }
    ensures value { (result.x ≡ in_halves mode v.x) × (result.y ≡ in_halves mode v.y) }
    ensures within { vector_in_range result ≡ true }
{
    match mode {
        BVopSampleMode::HalfPel => v,
        BVopSampleMode::QuarterPel(_) => MotionVector {
            x: v.x / 2,
            y: v.y / 2,
        },
    }
}

// One vector's component, in quarters of a chroma sample.
fn of_one(mv: i32) -> i32
    requires { nat_abs mv ≤ 2048 }
    ensures { result ≡ chroma_of_one mv }
{
    let split = quarter_sample::split_quarter_pel(mv);
    2 * split.whole + i32::from(split.fraction != 0)
}

// Sixteenths that whole samples leave over, as halves.
fn halves_of(rest: u32) -> u32
    ensures { result ≡ halves_of rest }
{
    match rest {
        0..=2 => 0,
        3..=13 => 1,
        _ => 2,
    }
}

// Four vectors' sum, in sixteenths of a chroma sample: the sign returns last.
fn of_sum(sum: i32) -> i32
    requires { nat_abs sum ≤ 8192 }
    ensures { result ≡ chroma_of_sum sum }
{
    let size = basis::magnitude(sum);
    let halves = (2 * (size / 16) + halves_of(size % 16)) as i32;
    if sum < 0 { -halves } else { halves }
}

// Of one vector in half samples.
fn one_vector(v: MotionVector) -> MotionVector
    requires { motion_in_range (OneMv v) ≡ true }
    ensures { result ≡ chroma_vector HalfPel (OneMv v) }
{
    MotionVector {
        x: of_one(v.x),
        y: of_one(v.y),
    }
}

// Of four vectors in half samples.
fn four_vector(a: MotionVector, b: MotionVector, c: MotionVector, d: MotionVector) -> MotionVector
    requires { motion_in_range (FourMv a b c d) ≡ true }
    ensures { result ≡ chroma_vector HalfPel (FourMv a b c d) }
{
    MotionVector {
        x: of_sum(a.x + b.x + c.x + d.x),
        y: of_sum(a.y + b.y + c.y + d.y),
    }
}

// Of vectors in range.
pub fn vector_of(mode: BVopSampleMode, motion: PvopMbMotion) -> MotionVector
    requires { motion_in_range motion ≡ true }
    ensures { result ≡ chroma_vector mode motion }
{
    match motion {
        PvopMbMotion::OneMv(v) => one_vector(in_halves(v, mode)),
        PvopMbMotion::FourMv(a, b, c, d) => four_vector(
            in_halves(a, mode),
            in_halves(b, mode),
            in_halves(c, mode),
            in_halves(d, mode),
        ),
    }
}

// Whether every vector has both parts in -2,048..2,047.
fn motion_in_range(motion: PvopMbMotion) -> bool
    ensures { result ≡ motion_in_range motion }
{
    match motion {
        PvopMbMotion::OneMv(v) => plane::vector_in_range(v),
        PvopMbMotion::FourMv(a, b, c, d) => plane::vector_in_range(a)
            && plane::vector_in_range(b)
            && plane::vector_in_range(c)
            && plane::vector_in_range(d),
    }
}

// 8
#[tactic(auto, unfolding(crate::specs::Chroma::vectors_reply))]
pub fn vectors_reply(motion: PvopMbMotion) -> Reply
    ensures { result ≡ vectors_reply motion }
{
    refusal::require(motion_in_range(motion), Refusal::Place)
}
