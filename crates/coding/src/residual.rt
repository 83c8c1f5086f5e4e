// Source less prediction, block by block.
ghost use Rattle.std.specs.Prelude.{◌≡◌, length};
ghost use Rattle.basis.specs.Lists.{tabulate};
ghost use Rattle.plane.specs.Samples.{lent_samples};
ghost use Rattle.coding.specs.Residual.{samples_of, block_residual, residual_of, source_in, ResidualRange};
ghost use Rattle.coding.specs.Told.{Whole, difference_at, PartNeeds, SamplesAccepted};

use plane::{MacroblockPlace, Samples, SourceSize};

// 8 x 8 samples, from one place on in rows STRIDE apart, less those predicted there.
fn part_residual<const STRIDE: usize>(
    source: &[u8],
    prediction: &[u8],
    from: usize,
    out: &mut [i32],
)
    requires { PartNeeds STRIDE from (length source.now) (length prediction.now) (length out.old) }
    ensures out_after { out.new ≡ tabulate 64 (difference_at STRIDE from source.now prediction.now) }
    ensures residual_range { ResidualRange 64 out.new }
{
    for k in 0..64usize {
        let at = from + k / 8 * STRIDE + k % 8;
        out[k] = i32::from(source[at]) - i32::from(prediction[at]);
    }
}

// Block b of six.
fn block_residual(b: usize, source: Samples<'_>, prediction: Samples<'_>, out: &mut [i32])
    requires { Whole (lent_samples source) × Whole (lent_samples prediction) × (length out.old ≡ 64) }
    ensures out_after { let from = samples_of (lent_samples source.entry) b in
        out.new ≡ block_residual from (samples_of (lent_samples prediction.entry) b) }
    ensures residual_range { ResidualRange 64 out.new }
{
    if b < 4 {
        part_residual::<16>(source.y, prediction.y, 128 * (b / 2) + 8 * (b % 2), out);
        return;
    }
    if b == 4 {
        part_residual::<8>(source.cb, prediction.cb, 0, out);
        return;
    }
    part_residual::<8>(source.cr, prediction.cr, 0, out);
}

// All six.
fn six_residuals(source: Samples<'_>, prediction: Samples<'_>, out: &mut [i32])
    requires { Whole (lent_samples source) × Whole (lent_samples prediction) × (length out.old ≡ 384) }
    ensures out_after { out.new ≡ residual_of (lent_samples source.entry) (lent_samples prediction.entry) }
    ensures residual_range { ResidualRange 384 out.new }
{
    for b in 0..6usize {
        let from = b * 64;
        let to = from + 64;
        block_residual(b, source, prediction, &mut out[from..to]);
    }
}

// The residual of a macroblock that is not refused.
pub fn macroblock_residual(
    source: Samples<'_>,
    size: SourceSize,
    place: MacroblockPlace,
    prediction: Samples<'_>,
    out: &mut [i32],
)
    requires { SamplesAccepted (lent_samples source) size place (lent_samples prediction) (length out.old) }
    ensures out_after { let from = source_in (lent_samples source.entry) size place in
        out.new ≡ residual_of from (lent_samples prediction.entry) }
    ensures residual_range { ResidualRange 384 out.new }
{
    let mut luma = [0u8; 256];
    plane::source::luma_block(source.y, size, place, &mut luma).unwrap();
    let mut blue = [0u8; 64];
    plane::source::chroma_block(source.cb, size, place, &mut blue).unwrap();
    let mut red = [0u8; 64];
    plane::source::chroma_block(source.cr, size, place, &mut red).unwrap();
    let block = Samples {
        y: &luma,
        cb: &blue,
        cr: &red,
    };
    six_residuals(block, prediction, out);
}
