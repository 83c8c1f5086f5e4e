// The 8 x 8 forward transform of residuals, on doubles (rules T1 to T6): rows, then columns.
#![tactic(auto)]

ghost use Rattle.std.specs.Prelude.{◌≡◌, length};
ghost use Rattle.basis.specs.Lists.{tabulate};
ghost use Rattle.refusal.specs.Reply.{done};
ghost use Rattle.fdct.specs.Block.{coefficients};
ghost use Rattle.fdct.specs.Told.{entries, sample_at};
ghost use Rattle.fdct.specs.Reply.{dct_reply};
ghost use Rattle.fdct.specs.Rounding.{coefficient_of};

use refusal::{Refusal, Reply};

mod cosine;
mod line;
mod rounding;

// What turns a transform back: 12, 13.
#[tactic(auto, unfolding(crate::specs::Reply::dct_reply))]
fn dct_reply(residual: &[i32], area: usize) -> Reply
    ensures { result ≡ dct_reply residual.now area }
{
    refusal::require(residual.len() == 64 && area == 64, Refusal::Length)?;
    refusal::require(refusal::all_in_range(-255, 255, residual), Refusal::Range)
}

// The residuals as doubles.
fn to_doubles(residual: &[i32], block: &mut [f64])
    requires { (length residual.now ≡ 64) × (length block.old ≡ 64) }
    ensures { block.new ≡ tabulate 64 (sample_at residual.now) }
{
    for k in 0..64usize {
        block[k] = f64::from(residual[k]);
    }
}

// The coefficients of the doubles, place by place.
fn write_out(block: &[f64; 64], out: &mut [i32])
    requires { length out.old ≡ 64 }
    ensures { out.new ≡ tabulate 64 (λ k. coefficient_of (entries block.now k)) }
{
    for k in 0..64usize {
        out[k] = rounding::coefficient_of(block[k]);
    }
}

// Rows, then columns. A row is summed by the swapped table, so that the block is never swapped.
fn transform(residual: &[i32], out: &mut [i32])
    requires { (length residual.now ≡ 64) × (length out.old ≡ 64) }
    ensures { out.new ≡ coefficients residual.now }
{
    let mut block = [0.0f64; 64];
    to_doubles(residual, &mut block);
    // A constant array is copied wherever it is read, so each is read once.
    let swapped = cosine::SWAPPED;
    let mut across = [0.0f64; 64];
    line::fdct_1d_rows(&swapped, &block, &mut across);
    let table = cosine::TABLE;
    let mut down = [0.0f64; 64];
    line::fdct_1d_columns(&table, &across, &mut down);
    write_out(&down, out);
}

// The coefficients of a block of 8 x 8 residuals, at 8 bits: 12, 13.
#[tactic(auto, unfolding(crate::specs::Reply::dct_reply))]
pub fn forward_dct_8x8(residual: &[i32], out: &mut [i32]) -> Reply
    ensures value { result ≡ dct_reply residual.now (length out.old) }
    ensures out_after { out.new ≡ done result (coefficients residual.now) out.old }
{
    dct_reply(residual, out.len())?;
    transform(residual, out);
    Ok(())
}
