// Levels of a block for inter coding, by either method, and the inverse of the second (rules L1 to L5).
#![tactic(auto)]

ghost use Rattle.std.specs.Prelude.{◌≡◌, ℕ, ◌<◌, pos, get_or, false, length};
ghost use Rattle.refusal.specs.Bounds.{is_quantiser};
ghost use Rattle.refusal.specs.Reply.{done};
ghost use Rattle.quantise.specs.Block.{no_zero, block_levels, second_inverse, block_inverse, weight_reply, quantise_reply, inverse_reply};
ghost use Rattle.quantise.specs.Near.{NearAll};
ghost use Rattle.quantise.specs.Told.{BlockNeeds, InverseNeeds};

use refusal::{Refusal, Reply};

mod level;

fn is_quantiser(quantiser: u32) -> bool
    ensures { result ≡ is_quantiser quantiser }
{
    (1..=31).contains(&quantiser)
}

// To the end, whatever is found: a loop without an exit is done on many weights at once.
fn no_zero(weights: &[u8]) -> bool
    ensures { result ≡ no_zero weights.now }
{
    let mut good = true;
    for w in weights {
        good &= *w != 0;
    }
    good
}

// What turns quantiser and weights back: 10, 11.
#[tactic(auto, unfolding(crate::specs::Block::weight_reply))]
pub fn weight_reply(quantiser: u32, first_method: bool, weights: &[u8]) -> Reply
    ensures { result ≡ weight_reply quantiser first_method weights.now }
{
    refusal::require(is_quantiser(quantiser), Refusal::Quantiser)?;
    refusal::require(!first_method || no_zero(weights), Refusal::Weight)
}

// What turns a block back: 10, 11, 12, 13.
#[tactic(auto, unfolding(crate::specs::Block::quantise_reply))]
fn quantise_reply(
    coefficients: &[i32],
    quantiser: u32,
    first_method: bool,
    weights: &[u8],
    area: usize,
) -> Reply
    ensures { result ≡ quantise_reply coefficients.now quantiser first_method weights.now area }
{
    weight_reply(quantiser, first_method, weights)?;
    refusal::require(
        coefficients.len() == 64 && weights.len() == 64 && area == 64,
        Refusal::Length,
    )?;
    refusal::require(
        refusal::all_in_range(-2048, 2047, coefficients),
        Refusal::Range,
    )
}

// What `at` gives at each of 64 places.
fn fill<F: Fn(usize) -> i32>(out: &mut [i32], at: F)
    requires long { length out.old ≡ 64 }
    requires callable { (i : ℕ) → i < 64 → F.pre at i }
    ensures len { length out.new ≡ 64 }
    ensures each { (i : ℕ) → i < 64 → F.post at i (get_or out.new i (pos 0)) }
{
    for i in 0..64usize {
        out[i] = at(i);
    }
}

fn quantise_ready(
    coefficients: &[i32],
    quantiser: u32,
    first_method: bool,
    weights: &[u8],
    out: &mut [i32],
)
    requires { BlockNeeds coefficients.now quantiser first_method weights.now (length out.old) }
    ensures { out.new ≡ block_levels first_method quantiser weights.now coefficients.now }
{
    if first_method {
        fill(
            out,
            |i| level::quantise_method1_inter(coefficients[i], weights[i], quantiser),
        );
    } else {
        let by = level::reciprocal(quantiser);
        fill(
            out,
            |i| level::quantise_method2_inter(coefficients[i], quantiser, by),
        );
    }
}

// The levels of 64 coefficients, row by row: 10, 11, 12, 13. Under the second method the weights are not used.
#[tactic(auto, using(crate::proofs::Accepted::block_needs, crate::proofs::Near::near_by_method))]
pub fn quantise_block(
    coefficients: &[i32],
    quantiser: u32,
    first_method: bool,
    weights: &[u8],
    out: &mut [i32],
) -> Reply
    ensures value { result ≡ quantise_reply coefficients.now quantiser first_method weights.now (length out.old) }
    ensures out_after { out.new ≡ done result (block_levels first_method quantiser weights.now coefficients.now) out.old }
    ensures near_all { result ≡ Ok tt → first_method ≡ false → NearAll quantiser coefficients.now out.new }
{
    quantise_reply(coefficients, quantiser, first_method, weights, out.len())?;
    quantise_ready(coefficients, quantiser, first_method, weights, out);
    Ok(())
}

// What turns an inverse back: 10, 12, 13.
#[tactic(auto, unfolding(crate::specs::Block::inverse_reply))]
fn inverse_reply(levels: &[i32], quantiser: u32, area: usize) -> Reply
    ensures { result ≡ inverse_reply levels.now quantiser area }
{
    refusal::require(is_quantiser(quantiser), Refusal::Quantiser)?;
    refusal::require(levels.len() == 64 && area == 64, Refusal::Length)?;
    refusal::require(refusal::all_in_range(-2047, 2047, levels), Refusal::Range)
}

fn inverse_ready(levels: &[i32], quantiser: u32, out: &mut [i32])
    requires { InverseNeeds levels.now quantiser (length out.old) }
    ensures { out.new ≡ block_inverse (second_inverse quantiser) levels.now }
{
    fill(
        out,
        |i| level::inverse_quant_method2_coef(levels[i], quantiser),
    );
}

// What 64 levels of the second method stand for: 10, 12, 13.
#[tactic(auto, using(crate::proofs::Accepted::inverse_needs))]
pub fn inverse_block(levels: &[i32], quantiser: u32, out: &mut [i32]) -> Reply
    ensures value { result ≡ inverse_reply levels.now quantiser (length out.old) }
    ensures out_after { out.new ≡ done result (block_inverse (second_inverse quantiser) levels.now) out.old }
{
    inverse_reply(levels, quantiser, out.len())?;
    inverse_ready(levels, quantiser, out);
    Ok(())
}
