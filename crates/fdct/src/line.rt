// The 8-point transform of a block's rows and of its columns, eight sums side by side. Each sum runs in the order of rule T2.
ghost use Rattle.std.specs.Prelude.{◌≡◌, ℕ, Float, ◌+◌, ◌*◌, ◌<◌, length};
ghost use Rattle.std.specs.Float.Ieee.{add, mul};
ghost use Rattle.std.specs.Float.{binary64};
ghost use Rattle.basis.specs.Lists.{tabulate, raster};
ghost use Rattle.fdct.specs.Cosine.{cosines};
ghost use Rattle.fdct.specs.Line.{weight};
ghost use Rattle.fdct.specs.Told.{entries, row_of, column_of, dot, swapped_cosines, across_at, passed_at};

// 1 / √2 for index 0, else 1.
fn c(k: usize) -> f64
    ensures { result ≡ weight k }
{
    if k == 0 {
        crate::cosine::C4
    } else {
        crate::cosine::C0
    }
}

// One term more in each of the eight sums: row x of the block times its cosine.
fn add_row(sums: &[f64; 8], block: &[f64; 64], x: usize, cosine: f64) -> [f64; 8]
    requires { x < 8 }
    ensures { result ≡ tabulate 8 (λ j. add binary64 (entries sums.now j) (mul binary64 (entries block.now (x * 8 + j)) cosine)) }
{
    let mut out = [0.0f64; 8];
    for j in 0..8usize {
        out[j] = sums[j] + block[x * 8 + j] * cosine;
    }
    out
}

// Row u of the table times each column of the block, one sum for each.
fn weighted_sums(table: &[f64; 64], block: &[f64; 64], u: usize) -> [f64; 8]
    requires { u < 8 }
    ensures { result ≡ tabulate 8 (λ j. dot (column_of (entries block.now) j) (row_of (entries table.now) u) 8) }
{
    let mut sums = [0.0f64; 8];
    for x in 0..8usize {
        sums = add_row(&sums, block, x, table[u * 8 + x]);
    }
    sums
}

// Each sum times the scale of its place.
fn scale_row<F: Fn(usize) -> f64>(sums: &[f64; 8], scale: F, out: &mut [f64])
    requires long { length out.old ≡ 8 }
    requires callable { (j : ℕ) → j < 8 → F.pre scale j }
    ensures len { length out.new ≡ 8 }
    ensures each { (j : ℕ) → j < 8 → (s : Float) × F.post scale j s × (entries out.new j ≡ mul binary64 s (entries sums.now j)) }
{
    for j in 0..8usize {
        out[j] = scale(j) * sums[j];
    }
}

// Row u of `out` holds entry u of each column's transform.
pub fn fdct_1d_columns(table: &[f64; 64], block: &[f64; 64], out: &mut [f64])
    requires { (table.now ≡ cosines) × (length out.old ≡ 64) }
    ensures { out.new ≡ raster 8 8 (passed_at (entries block.now)) }
{
    for u in 0..8usize {
        let from = u * 8;
        let to = from + 8;
        let sums = weighted_sums(table, block, u);
        let scale = 0.5 * c(u);
        scale_row(&sums, |_| scale, &mut out[from..to]);
    }
}

// Row y of `out` holds the transform of row y. The table is the swapped one.
pub fn fdct_1d_rows(table: &[f64; 64], block: &[f64; 64], out: &mut [f64])
    requires { (table.now ≡ swapped_cosines) × (length out.old ≡ 64) }
    ensures { out.new ≡ raster 8 8 (across_at (entries block.now)) }
{
    for y in 0..8usize {
        let from = y * 8;
        let to = from + 8;
        let sums = weighted_sums(block, table, y);
        scale_row(&sums, |j| 0.5 * c(j), &mut out[from..to]);
    }
}
