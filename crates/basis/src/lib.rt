// What every crate may need and none owns: a number cut to a range, and its size. The rest of this crate is the definitions in
// specs/ and the laws in proofs/ that the crates above cite.
#![tactic(auto)]

ghost use Rattle.std.specs.Prelude.{◌≡◌, nat_abs};
ghost use Rattle.basis.specs.Cut.{cut_to};

// The number of low..high that is nearest to x. Where low is above high: low for x below low, else high.
pub fn clamp(x: i32, low: i32, high: i32) -> i32
    ensures { result ≡ cut_to low high x }
{
    if x < low {
        low
    } else if high < x {
        high
    } else {
        x
    }
}

// How far x is from 0.
pub fn magnitude(x: i32) -> u32
    ensures { result ≡ nat_abs x }
{
    x.unsigned_abs()
}
