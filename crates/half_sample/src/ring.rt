// The samples half a sample from those of a patch (7.6.2.1). The patch is taken as one line, so that each loop goes over all of its rows.
ghost use Rattle.std.specs.Prelude.{◌≡◌, true, false, length};
ghost use Rattle.half_sample.specs.Ring.{ring_reply, ring_grid};

use crate::rows;
use refusal::{Refusal, Reply};

// 12
#[tactic(auto, unfolding(crate::specs::Ring::ring_reply))]
pub fn ring_reply(bytes: usize, stride: usize, right: usize, below: usize, between: usize) -> Reply
    ensures { result ≡ ring_reply bytes stride right below between }
{
    refusal::require(
        right < bytes.saturating_sub(stride) && below == right && between == right,
        Refusal::Length,
    )
}

// The three areas.
#[tactic(auto, using(crate::proofs::Grids::ring_is), unfolding(crate::specs::Ring::ring_grid))]
pub fn ring_ready(
    patch: &[u8],
    stride: usize,
    rounding: u8,
    right: &mut [u8],
    below: &mut [u8],
    between: &mut [u8],
)
    requires { ring_reply (length patch.now) stride (length right.old) (length below.old) (length between.old) ≡ Ok tt }
    ensures right_after { right.new ≡ ring_grid patch.now stride true false rounding (length right.old) }
    ensures below_after { below.new ≡ ring_grid patch.now stride false true rounding (length right.old) }
    ensures between_after { between.new ≡ ring_grid patch.now stride true true rounding (length right.old) }
{
    let rc = u16::from(rounding % 2);
    let low = &patch[stride..];
    rows::row_b(patch, rc, right);
    rows::row_c(patch, low, rc, below);
    rows::row_d(patch, low, rc, between);
}
