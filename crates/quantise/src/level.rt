// One coefficient or level: both forward methods for inter blocks, and the inverse of the second (rules L1 to L4). Signed where it is
// divided or cut; a quotient drops its fraction toward 0.
ghost use Rattle.std.specs.Prelude.{◌≡◌, ◌/◌, ◌≤◌, ◌<◌, ◌^◌, nat_abs};
ghost use Rattle.basis.specs.Signed.{signed};
ghost use Rattle.quantise.specs.Level.{level_by_quantiser, level_by_weight, inverse_size, inverse_by_quantiser};
ghost use Rattle.quantise.specs.Told.{reciprocal_of, Quantisable, Weighable};

// A size with the sign of `of`.
fn signed(of: i32, size: u32) -> i32
    requires { size < 2 ^ 31 }
    ensures { result ≡ signed of size }
{
    let above = size as i32;
    if of < 0 { -above } else { above }
}

// A size with the sign of `of`, divided toward 0.
#[tactic(auto, using(crate::proofs::Signs::signed_quot))]
fn quotient(of: i32, size: u32, d: u32) -> i32
    requires { (size < 2 ^ 31) × (0 < d) × (d < 2 ^ 31) }
    ensures { result ≡ signed of (size / d) }
{
    signed(of, size) / d as i32
}

// What a division by d is as a product, in parts of 2^15, rounded up.
pub fn reciprocal(d: u32) -> u32
    requires { (1 ≤ d) × (d ≤ 31) }
    ensures { result ≡ reciprocal_of d }
{
    (32767 + d) / d
}

// Divided by the reciprocal of the quantiser, `by`, so that the levels of a block need no division.
#[tactic(auto, using(crate::proofs::Reciprocal::second_level))]
pub fn quantise_method2_inter(f: i32, quantiser_scale: u32, by: u32) -> i32
    requires { Quantisable f quantiser_scale by }
    ensures { result ≡ level_by_quantiser quantiser_scale f }
{
    let rest = basis::magnitude(f).saturating_sub(quantiser_scale / 2);
    signed(f, rest / 2 * by / 32768)
}

#[tactic(auto, using(crate::proofs::Signs::clamped), unfolding(crate::specs::Level::level_by_weight))]
pub fn quantise_method1_inter(f: i32, w: u8, quantiser_scale: u32) -> i32
    requires { Weighable f w quantiser_scale }
    ensures { result ≡ level_by_weight w quantiser_scale f }
{
    let d = u32::from(w) * quantiser_scale;
    let rest = (16 * basis::magnitude(f)).saturating_sub(d);
    quotient(f, rest, 2 * d).clamp(-2047, 2047)
}

// The size of what a level of size l stands for, before saturation.
fn inverse_size(l: u32, quantiser_scale: u32) -> u32
    requires { (l ≤ 2047) × (1 ≤ quantiser_scale) × (quantiser_scale ≤ 31) }
    ensures { result ≡ inverse_size quantiser_scale l }
{
    if quantiser_scale % 2 == 0 {
        quantiser_scale * (2 * l + 1) - 1
    } else {
        quantiser_scale * (2 * l + 1)
    }
}

#[tactic(auto, using(crate::proofs::Signs::clamped), unfolding(crate::specs::Level::inverse_by_quantiser))]
pub fn inverse_quant_method2_coef(level: i32, quantiser_scale: u32) -> i32
    requires { (nat_abs level ≤ 2047) × (1 ≤ quantiser_scale) × (quantiser_scale ≤ 31) }
    ensures { result ≡ inverse_by_quantiser quantiser_scale level }
{
    let l = basis::magnitude(level);
    if l == 0 {
        return 0;
    }
    signed(level, inverse_size(l, quantiser_scale)).clamp(-2048, 2047)
}
