// The two passes over a copied block of w + 1 columns and h + 1 rows (7.6.2.2), whose rows follow each other directly. Each pass fills
// a buffer and filters it in one long row, so that a loop is set up once a pass and not once a row.
ghost use Rattle.std.specs.Prelude.{◌≡◌, ◌+◌, ◌*◌, ◌<◌, ◌≤◌, length, get_or};
ghost use Rattle.basis.specs.Lists.{tabulate};
ghost use Rattle.quarter_sample.specs.ToldPasses.{reflected, rows_at, columns_at, both_at, place_at};
ghost use Rattle.quarter_sample.specs.ToldPasses.{extended_rows, taken_rows, mirrored_rows, spaced_at, Filtered};
ghost use Rattle.quarter_sample.specs.ToldPasses.{ExtendNeeds, MirrorNeeds, SpacedNeeds, RowsNeeds, PassNeeds, PlaceNeeds};

use crate::filter;

fn part(s: &[u8], at: usize, n: usize) -> &[u8]
    requires { at + n ≤ length s.now }
    ensures long { length result.now ≡ n }
    ensures samples { result.now ≡ tabulate n (λ i. get_or s.now (at + i) 0) }
{
    let end = at + n;
    &s[at..end]
}

#[tactic(auto, using(plane::proofs::Ready::same_done))]
fn copy_straight(from: &[u8], out: &mut [u8])
    requires { length from.now ≡ length out.old }
    ensures { out.new ≡ from.now }
{
    let _ = plane::copy_samples(from, out);
}

// What a row's indices from first - 3 on read.
#[tactic(auto, using(basis::proofs::Lists::filled_none, basis::proofs::Lists::filled_set))]
fn reflect(row: &[u8], first: usize, out: &mut [u8])
    requires { (3 ≤ length row.now) × (length row.now ≤ 17) × (first + length out.old ≤ length row.now + 6) }
    ensures { out.new ≡ tabulate (length out.old) (λ k. reflected row.now (first + k)) }
{
    for k in 0..out.len() {
        let at = filter::mirror_index(first + k, row.len());
        out[k] = row[at];
    }
}

// A row with three samples of its reflection on either side. Between them it is copied as it stands.
fn extend_row(row: &[u8], line: &mut [u8])
    requires { (3 ≤ length row.now) × (length row.now ≤ 17) × (length line.old ≡ length row.now + 6) }
    ensures { line.new ≡ tabulate (length line.old) (reflected row.now) }
{
    let end = 3 + row.len();
    reflect(row, 0, &mut line[..3]);
    copy_straight(row, &mut line[3..end]);
    reflect(row, end, &mut line[end..]);
}

// Each of the first rows of a block with rows of n samples, with three samples of its reflection on either side.
fn extend_rows(block: &[u8], n: usize, rows: usize, ext: &mut [u8])
    requires { ExtendNeeds (length block.now) n rows (length ext.old) }
    ensures { ext.new ≡ extended_rows n rows block.now }
{
    let long = n + 6;
    for j in 0..rows {
        let from = j * long;
        let to = from + long;
        extend_row(part(block, j * n, n), &mut ext[from..to]);
    }
}

// The first w samples of each of the first rows of `stride` samples.
fn take_rows(src: &[u8], stride: usize, w: usize, rows: usize, out: &mut [u8])
    requires { (w ≤ stride) × (rows * stride ≤ length src.now) × (length out.old ≡ rows * w) }
    ensures { out.new ≡ taken_rows stride w rows src.now }
{
    for j in 0..rows {
        let from = j * w;
        let to = from + w;
        copy_straight(part(src, j * stride, w), &mut out[from..to]);
    }
}

// The first w samples of the rows that the indices from -3 to size + 2 of `size` rows of `stride` samples read.
fn mirror_rows(src: &[u8], stride: usize, w: usize, size: usize, out: &mut [u8])
    requires { MirrorNeeds (length src.now) stride w size (length out.old) }
    ensures { out.new ≡ mirrored_rows stride w size src.now }
{
    let rows = size + 6;
    for u in 0..rows {
        let at = filter::mirror_index(u, size) * stride;
        let from = u * w;
        let to = from + w;
        copy_straight(part(src, at, w), &mut out[from..to]);
    }
}

// Each sample of a long row at the fraction, its taps d apart. What the filter rounds by and cuts to comes as numbers and not in a
// struct: read out of one, fewer samples are filtered at once.
fn filter_spaced(src: &[u8; 408], d: usize, fraction: u8, rc: u8, max: u8, out: &mut [u8])
    requires { SpacedNeeds d fraction rc (length out.old) }
    ensures { out.new ≡ tabulate (length out.old) (spaced_at rc max fraction src.now d) }
{
    let n = out.len();
    filter::filter_taps(
        part(src, 0, n),
        part(src, d, n),
        part(src, 2 * d, n),
        part(src, 3 * d, n),
        part(src, 4 * d, n),
        part(src, 5 * d, n),
        part(src, 6 * d, n),
        part(src, 7 * d, n),
        fraction,
        rc,
        max,
        out,
    );
}

// The first rows of a block at the horizontal fraction, each the first w of w + 7 samples. What stands between them is filtered too,
// and nobody reads it. Sides are 16 or 8, which are written out here and below, where a buffer is filled: a row is then copied by one
// or two moves and not by a call.
fn filter_rows(
    block: &[u8; 289],
    w: usize,
    rows: usize,
    fraction: u8,
    rc: u8,
    max: u8,
    wide: &mut [u8],
)
    requires { RowsNeeds w rows fraction rc (length wide.old) }
    ensures { Filtered w rows rc max fraction block.now wide.new }
{
    let mut ext = [0u8; 408];
    let count = rows * (w + 7);
    match w {
        16 => extend_rows(block, 17, rows, &mut ext[..count]),
        8 => extend_rows(block, 9, rows, &mut ext[..count]),
        _ => extend_rows(block, w + 1, rows, &mut ext[..count]),
    }
    filter_spaced(&ext, 1, fraction, rc, max, wide);
}

// The first w samples of each of the first h rows, which have so many others.
fn copy_rows<const N: usize, const OTHERS: usize>(src: &[u8; N], w: usize, h: usize, out: &mut [u8])
    requires { (w ≤ 16) × (OTHERS ≤ 7) × (h * (w + OTHERS) ≤ N) × (length out.old ≡ h * w) }
    ensures { out.new ≡ taken_rows (w + OTHERS) w h src.now }
{
    match w {
        16 => take_rows(src, 16 + OTHERS, 16, h, out),
        8 => take_rows(src, 8 + OTHERS, 8, h, out),
        _ => take_rows(src, w + OTHERS, w, h, out),
    }
}

// The first h rows of a block, at the horizontal fraction. The long row is rounded up to sixteens, so that none is left over.
fn row_pass(block: &[u8; 289], w: usize, h: usize, fraction: u8, rc: u8, max: u8, out: &mut [u8])
    requires { PassNeeds w h fraction rc (length out.old) }
    ensures { out.new ≡ rows_at w h rc max fraction block.now }
{
    let mut wide = [0u8; 400];
    let count = (h * (w + 7) + 15) / 16 * 16;
    filter_rows(block, w, h, fraction, rc, max, &mut wide[..count]);
    copy_rows::<400, 7>(&wide, w, h, out);
}

// The columns at the vertical fraction, out of one row more of w samples and so many others.
fn column_pass<const N: usize, const OTHERS: usize>(
    src: &[u8; N],
    w: usize,
    h: usize,
    fraction: u8,
    rc: u8,
    max: u8,
    out: &mut [u8],
)
    requires { PassNeeds w h fraction rc (length out.old) × (OTHERS ≤ 7) × ((h + 1) * (w + OTHERS) ≤ N) }
    ensures { out.new ≡ columns_at w h rc max fraction src.now (w + OTHERS) }
{
    let mut middle = [0u8; 408];
    let count = (h + 7) * w;
    match w {
        16 => mirror_rows(src, 16 + OTHERS, 16, h + 1, &mut middle[..count]),
        8 => mirror_rows(src, 8 + OTHERS, 8, h + 1, &mut middle[..count]),
        _ => mirror_rows(src, w + OTHERS, w, h + 1, &mut middle[..count]),
    }
    filter_spaced(&middle, w, fraction, rc, max, out);
}

// Both passes: the rows, and their columns.
fn both_passes(
    block: &[u8; 289],
    w: usize,
    h: usize,
    fx: u8,
    fy: u8,
    rc: u8,
    max: u8,
    out: &mut [u8],
)
    requires { PassNeeds w h fx rc (length out.old) × (0 < fy) × (fy < 4) }
    ensures { out.new ≡ both_at w h rc max fx fy block.now }
{
    let mut wide = [0u8; 400];
    let count = ((h + 1) * (w + 7) + 15) / 16 * 16;
    filter_rows(block, w, h + 1, fx, rc, max, &mut wide[..count]);
    column_pass::<400, 7>(&wide, w, h, fy, rc, max, out);
}

// A copied block's samples at one of the sixteen places, which is fx + 4 fy: an arm for each rule. The whole samples are uncut.
pub fn interpolate_place(
    block: &[u8; 289],
    w: usize,
    h: usize,
    fractions: u8,
    rc: u8,
    max: u8,
    out: &mut [u8],
)
    requires { PlaceNeeds w h rc (length out.old) × (fractions < 16) }
    ensures { out.new ≡ place_at w h rc max fractions block.now }
{
    match fractions {
        0 => copy_rows::<289, 1>(block, w, h, out),
        1 => row_pass(block, w, h, 1, rc, max, out),
        2 => row_pass(block, w, h, 2, rc, max, out),
        3 => row_pass(block, w, h, 3, rc, max, out),
        4 => column_pass::<289, 1>(block, w, h, 1, rc, max, out),
        5 => both_passes(block, w, h, 1, 1, rc, max, out),
        6 => both_passes(block, w, h, 2, 1, rc, max, out),
        7 => both_passes(block, w, h, 3, 1, rc, max, out),
        8 => column_pass::<289, 1>(block, w, h, 2, rc, max, out),
        9 => both_passes(block, w, h, 1, 2, rc, max, out),
        10 => both_passes(block, w, h, 2, 2, rc, max, out),
        11 => both_passes(block, w, h, 3, 2, rc, max, out),
        12 => column_pass::<289, 1>(block, w, h, 3, rc, max, out),
        13 => both_passes(block, w, h, 1, 3, rc, max, out),
        14 => both_passes(block, w, h, 2, 3, rc, max, out),
        _ => both_passes(block, w, h, 3, 3, rc, max, out),
    }
}
