// The areas that a macroblock's record is written into, and those of its parts: a count of events, six of them, an activity.
ghost use Rattle.std.specs.Prelude.{◌≡◌};
ghost use Rattle.refusal.specs.Number.{code_of};
ghost use Rattle.refusal.specs.Reply.{written, value_or};
ghost use Rattle.areas.specs.Search.{vector_area, vectors_area};
ghost use Rattle.areas.specs.Whole.{record_areas, patterns_area, record_areas_of};

use record::{MotionVector, Record};
use refusal::Refusal;

// Horizontal, then vertical.
pub fn vector_area(v: MotionVector) -> [i32; 2]
    ensures { result ≡ vector_area v }
{
    [v.x, v.y]
}

// Each vector's horizontal, then vertical.
pub fn vectors_area(vs: [MotionVector; 4]) -> [i32; 8]
    ensures { result ≡ vectors_area vs }
{
    let a = vs[0];
    let b = vs[1];
    let c = vs[2];
    let d = vs[3];
    [a.x, a.y, b.x, b.y, c.x, c.y, d.x, d.y]
}

// Luma, then chroma.
pub fn patterns_area(luma: u8, chroma: u8) -> [u8; 2]
    ensures { result ≡ patterns_area luma chroma }
{
    [luma, chroma]
}

// An answer into its place, where there is one, and the reply's number.
pub fn write<T: Copy>(told: Result<T, Refusal>, place: &mut T) -> u8
    ensures value { result ≡ code_of told }
    ensures place { place.new ≡ value_or told place.old }
{
    match told {
        Ok(value) => {
            *place = value;
            0
        }
        Err(why) => u8::from(why),
    }
}

// A record into its areas, where there is one, and the reply's number.
pub fn write_record(
    told: Result<Record, Refusal>,
    vector: &mut [i32; 2],
    sum: &mut u32,
    four_vectors: &mut [i32; 8],
    four_sums: &mut [u32; 4],
    patterns: &mut [u8; 2],
    counts: &mut [u8; 6],
) -> u8
    ensures { let old = record_areas vector.old sum.old four_vectors.old four_sums.old
        patterns.old counts.old in
        let new = record_areas vector.new sum.new four_vectors.new four_sums.new
        patterns.new counts.new in
        (result ≡ code_of told) × (new ≡ written told record_areas_of old) }
{
    match told {
        Ok(given) => {
            let four = given.vectors;
            let sums = given.sums;
            let six = given.counts;
            *vector = vector_area(given.vector);
            *sum = given.sum;
            *four_vectors = vectors_area(four);
            *four_sums = sums;
            *patterns = patterns_area(given.luma_pattern, given.chroma_pattern);
            *counts = six;
            0
        }
        Err(refused) => u8::from(refused),
    }
}
