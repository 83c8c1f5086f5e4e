// Sums of absolute differences. A row is one `psadbw`: the difference is signed and 32 bits wide, and two rows are added a turn,
// since the compiler takes a loop of single rows apart by columns. Source and window have a stride each, so that a block is summed where
// it stands in a wider one; both strides travel as numbers, since a struct would be copied for each place that is searched.
ghost use Rattle.std.specs.Prelude.{◌≡◌, true, ◌+◌, ◌*◌, ◌≤◌, length, get_or};
ghost use Rattle.basis.specs.Sums.{sum_to, abs_diff};
ghost use Rattle.plane.specs.Reference.{is_side};
ghost use Rattle.full_search.specs.ToldPatch.{line_at, lines_from, LinesFit, RowsFit, row_sum, lines_sum};

fn difference(a: u8, b: u8) -> u32
    ensures { (result ≡ abs_diff a b) × (result ≤ 255) }
{
    (i32::from(a) - i32::from(b)).unsigned_abs()
}

// A row of each of two blocks of this side.
fn row<const SIDE: usize>(a: &[u8], b: &[u8]) -> u32
    requires { (SIDE ≤ 16) × (length a.now ≡ SIDE) × (length b.now ≡ SIDE) }
    ensures { (result ≡ sum_to SIDE (λ i. abs_diff (get_or a.now i 0) (get_or b.now i 0))) × (result ≤ 4080) }
{
    let mut sum: u32 = 0;
    for i in 0..SIDE {
        sum += difference(a[i], b[i]);
    }
    sum
}

// Row j of a block.
fn row_at<const SIDE: usize>(
    source: &[u8],
    apart: usize,
    window: &[u8],
    at: usize,
    stride: usize,
    j: usize,
) -> u32
    requires { (SIDE ≤ 16) × (j * apart + SIDE ≤ length source.now) × (line_at (lines_from at stride) j + SIDE ≤ length window.now) }
    ensures { (result ≡ row_sum SIDE source.now apart window.now (lines_from at stride) j) × (result ≤ 4080) }
{
    let s = j * apart;
    let w = at + j * stride;
    row::<SIDE>(&source[s..s + SIDE], &window[w..w + SIDE])
}

fn block_rows<const SIDE: usize>(
    source: &[u8],
    apart: usize,
    window: &[u8],
    at: usize,
    stride: usize,
) -> u32
    requires { (is_side SIDE ≡ true) × RowsFit SIDE apart source.now × LinesFit SIDE (lines_from at stride) window.now }
    ensures { result ≡ lines_sum SIDE source.now apart window.now (lines_from at stride) }
{
    let mut sum: u32 = 0;
    for k in 0..SIDE / 2 {
        let first = row_at::<SIDE>(source, apart, window, at, stride, 2 * k);
        sum += first + row_at::<SIDE>(source, apart, window, at, stride, 2 * k + 1);
    }
    sum
}

// The sum of a block of side 8 or 16, whose source rows are `apart` samples apart, against the one at place `at` of a window whose rows
// are `stride` apart.
pub fn block(
    source: &[u8],
    apart: usize,
    window: &[u8],
    at: usize,
    stride: usize,
    side: usize,
) -> u32
    requires { (is_side side ≡ true) × RowsFit side apart source.now × LinesFit side (lines_from at stride) window.now }
    ensures { result ≡ lines_sum side source.now apart window.now (lines_from at stride) }
{
    if side == 16 {
        return block_rows::<16>(source, apart, window, at, stride);
    }
    block_rows::<8>(source, apart, window, at, stride)
}
