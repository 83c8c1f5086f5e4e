// The areas of a search: a vector's two numbers and its sum, or those of four.
ghost use Rattle.std.specs.Prelude.{◌≡◌, [], ◌∷◌, length};
ghost use Rattle.refusal.specs.Number.{code_of};
ghost use Rattle.refusal.specs.Reply.{written};
ghost use Rattle.areas.specs.Search.{vector_area, vectors_area, one_answer, four_answer};

use crate::records;
use record::MotionVector;
use refusal::{Refusal, Reply};
use search::{Estimated, EstimatedFour};

// The chroma vector, where there is one, and the reply's number.
pub fn write_chroma(told: Result<MotionVector, Refusal>, vector: &mut [i32; 2]) -> u8
    ensures value { result ≡ code_of told }
    ensures vector { vector.new ≡ written told vector_area vector.old }
{
    records::write(told.map(records::vector_area), vector)
}

fn fill_one(told: Result<Estimated, Refusal>, vector: &mut [i32], sum: &mut [u32]) -> Reply
    ensures value { code_of result ≡ code_of (one_answer told (length vector.old) (length sum.old)) }
    ensures vector { let found = one_answer told (length vector.old) (length sum.old) in
        vector.new ≡ written found (λ e. vector_area e.vector) vector.old }
    ensures sum { let found = one_answer told (length vector.old) (length sum.old) in
        sum.new ≡ written found (λ e. e.sum ∷ []) sum.old }
{
    let found = told?;
    refusal::require(vector.len() == 2 && sum.len() == 1, Refusal::Length)?;
    vector.copy_from_slice(&records::vector_area(found.vector));
    sum[0] = found.sum;
    Ok(())
}

// What the search answered, into two areas; 12 where they are not 2 and 1 long.
pub fn write_one(told: Result<Estimated, Refusal>, vector: &mut [i32], sum: &mut [u32]) -> u8
    ensures { let found = one_answer told (length vector.old) (length sum.old) in
        (result ≡ code_of found)
        × (vector.new ≡ written found (λ e. vector_area e.vector) vector.old)
        × (sum.new ≡ written found (λ e. e.sum ∷ []) sum.old) }
{
    refusal::code(fill_one(told, vector, sum))
}

fn fill_four(told: Result<EstimatedFour, Refusal>, vectors: &mut [i32], sums: &mut [u32]) -> Reply
    ensures value { code_of result ≡ code_of (four_answer told (length vectors.old) (length sums.old)) }
    ensures vectors { let found = four_answer told (length vectors.old) (length sums.old) in
        vectors.new ≡ written found (λ e. vectors_area e.vectors) vectors.old }
    ensures sums { let found = four_answer told (length vectors.old) (length sums.old) in
        sums.new ≡ written found (λ e. e.sums) sums.old }
{
    let found = told?;
    refusal::require(vectors.len() == 8 && sums.len() == 4, Refusal::Length)?;
    let four = found.vectors;
    let costs = found.sums;
    vectors.copy_from_slice(&records::vectors_area(four));
    sums.copy_from_slice(&costs);
    Ok(())
}

// What the search answered for four, into two areas; 12 where they are not 8 and 4 long.
pub fn write_four(told: Result<EstimatedFour, Refusal>, vectors: &mut [i32], sums: &mut [u32]) -> u8
    ensures { let found = four_answer told (length vectors.old) (length sums.old) in
        (result ≡ code_of found)
        × (vectors.new ≡ written found (λ e. vectors_area e.vectors) vectors.old)
        × (sums.new ≡ written found (λ e. e.sums) sums.old) }
{
    refusal::code(fill_four(told, vectors, sums))
}
