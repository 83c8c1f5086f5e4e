// The scan grids, scan and inverse scan of a block's levels, and its events (rules E1 to E8).
#![tactic(auto)]

ghost use Rattle.std.specs.Prelude.{◌≡◌, length, IfOk};
ghost use Rattle.refusal.specs.Reply.{done};
ghost use Rattle.scan.specs.Event.{lasts_area, runs_area, levels_area};
ghost use Rattle.scan.specs.Grid.{grid_of, inter_scan, scanned, unscanned};
ghost use Rattle.scan.specs.Read.{ReadsBack};
ghost use Rattle.scan.specs.Told.{put_row, RowNeeds};
ghost use Rattle.scan.specs.Reply.{scan_reply, events_reply, events_answer};

use refusal::{Refusal, Reply};

mod write;

// Figure 7-4 of the standard: the scan place of each coefficient, by row and column.
const ALT_HORIZONTAL: [[u8; 8]; 8] = [
    [0, 1, 2, 3, 10, 11, 12, 13],
    [4, 5, 8, 9, 17, 16, 15, 14],
    [6, 7, 19, 18, 26, 27, 28, 29],
    [20, 21, 24, 25, 30, 31, 32, 33],
    [22, 23, 34, 35, 42, 43, 44, 45],
    [36, 37, 40, 41, 46, 47, 48, 49],
    [38, 39, 50, 51, 56, 57, 58, 59],
    [52, 53, 54, 55, 60, 61, 62, 63],
];

const ALT_VERTICAL: [[u8; 8]; 8] = [
    [0, 4, 6, 20, 22, 36, 38, 52],
    [1, 5, 7, 21, 23, 37, 39, 53],
    [2, 8, 19, 24, 34, 40, 50, 54],
    [3, 9, 18, 25, 35, 41, 51, 55],
    [10, 17, 26, 30, 42, 46, 56, 60],
    [11, 16, 27, 31, 43, 47, 57, 61],
    [12, 15, 28, 32, 44, 48, 58, 62],
    [13, 14, 29, 33, 45, 49, 59, 63],
];

const ZIGZAG: [[u8; 8]; 8] = [
    [0, 1, 5, 6, 14, 15, 27, 28],
    [2, 4, 7, 13, 16, 26, 29, 42],
    [3, 8, 12, 17, 25, 30, 41, 43],
    [9, 11, 18, 24, 31, 40, 44, 53],
    [10, 19, 23, 32, 39, 45, 52, 54],
    [20, 22, 33, 38, 46, 51, 55, 60],
    [21, 34, 37, 47, 50, 56, 59, 61],
    [35, 36, 48, 49, 57, 58, 62, 63],
];

// The scan number for an inter block.
pub fn inter_scan(interlaced: bool, alternate: bool) -> u32
    ensures { result ≡ inter_scan interlaced alternate }
{
    if interlaced && alternate { 1 } else { 2 }
}

#[tactic(auto, unfolding(crate::specs::Grid::grid_of, crate::specs::Grid::alt_horizontal, crate::specs::Grid::alt_vertical, crate::specs::Grid::zigzag))]
fn scan_grid(scan: u32) -> [[u8; 8]; 8]
    ensures { result ≡ grid_of scan }
{
    match scan {
        0 => ALT_HORIZONTAL,
        1 => ALT_VERTICAL,
        _ => ZIGZAG,
    }
}

// What turns a scan back: 12, 13, 14.
#[tactic(auto, unfolding(crate::specs::Reply::scan_reply))]
fn scan_reply(levels: &[i32], scan: u32, area: usize) -> Reply
    ensures { result ≡ scan_reply levels.now scan area }
{
    refusal::require(levels.len() == 64 && area == 64, Refusal::Length)?;
    refusal::require(refusal::all_in_range(-2047, 2047, levels), Refusal::Range)?;
    refusal::require(scan <= 2, Refusal::Choice)
}

// The levels of a row at the places that a grid's row names: row by row, so that eight are stored in a run.
fn scan_row(row: [u8; 8], levels: &[i32], out: &mut [i32])
    requires { RowNeeds row (length levels.now) (length out.old) }
    ensures { out.new ≡ put_row row levels.now 8 out.old }
{
    for x in 0..8usize {
        let k = row[x] as usize;
        out[k] = levels[x];
    }
}

fn scan_ready(levels: &[i32], scan: u32, out: &mut [i32])
    requires { scan_reply levels.now scan (length out.old) ≡ Ok tt }
    ensures { out.new ≡ scanned (grid_of scan) levels.now }
{
    // A constant array is copied wherever it is read, so it is read once.
    let grid = scan_grid(scan);
    for y in 0..8usize {
        let from = y * 8;
        let to = from + 8;
        let row = grid[y];
        scan_row(row, &levels[from..to], out);
    }
}

// The levels of a block, from rows into scan order: 12, 13, 14.
#[tactic(auto, using(crate::proofs::Accepted::scanned_back))]
pub fn forward_scan(levels: &[i32], scan: u32, out: &mut [i32]) -> Reply
    ensures value { result ≡ scan_reply levels.now scan (length out.old) }
    ensures out_after { out.new ≡ done result (scanned (grid_of scan) levels.now) out.old }
    ensures reads_back { result ≡ Ok tt → unscanned (grid_of scan) out.new ≡ levels.now }
{
    scan_reply(levels, scan, out.len())?;
    scan_ready(levels, scan, out);
    Ok(())
}

fn inverse_ready(levels: &[i32], scan: u32, out: &mut [i32])
    requires { scan_reply levels.now scan (length out.old) ≡ Ok tt }
    ensures { out.new ≡ unscanned (grid_of scan) levels.now }
{
    let grid = scan_grid(scan);
    for p in 0..64usize {
        let k = grid[p / 8][p % 8] as usize;
        out[p] = levels[k];
    }
}

// The levels of a block, from scan order back into rows: 12, 13, 14.
#[tactic(auto, using(crate::proofs::Accepted::unscanned_back))]
pub fn inverse_scan(levels: &[i32], scan: u32, out: &mut [i32]) -> Reply
    ensures value { result ≡ scan_reply levels.now scan (length out.old) }
    ensures out_after { out.new ≡ done result (unscanned (grid_of scan) levels.now) out.old }
    ensures reads_back { result ≡ Ok tt → scanned (grid_of scan) out.new ≡ levels.now }
{
    scan_reply(levels, scan, out.len())?;
    inverse_ready(levels, scan, out);
    Ok(())
}

// What turns events back: 12, 13.
#[tactic(auto, unfolding(crate::specs::Reply::events_reply))]
fn events_reply(levels: &[i32], lasts: usize, runs: usize, out_levels: usize) -> Reply
    ensures { result ≡ events_reply levels.now lasts runs out_levels }
{
    refusal::require(
        levels.len() == 64 && lasts == 64 && runs == 64 && out_levels == 64,
        Refusal::Length,
    )?;
    refusal::require(refusal::all_in_range(-2047, 2047, levels), Refusal::Range)
}

// The events of a block's levels in scan order: for each its mark, 1 for the last and 0 for any other, its run and its level, from
// the front; the rest of each area is 0. 12, 13.
#[tactic(auto, using(crate::proofs::Accepted::events_lengths, crate::proofs::Accepted::events_back))]
pub fn levels_to_events(
    levels: &[i32],
    lasts: &mut [u8],
    runs: &mut [u8],
    out_levels: &mut [i32],
) -> Result<u8, Refusal>
    ensures value { result ≡ events_answer
        (events_reply levels.now (length lasts.old) (length runs.old) (length out_levels.old))
        levels.now }
    ensures lasts_after { lasts.new ≡ done result (lasts_area levels.now) lasts.old }
    ensures runs_after { runs.new ≡ done result (runs_area levels.now) runs.old }
    ensures out_levels_after { out_levels.new ≡ done result (levels_area levels.now) out_levels.old }
    ensures reads_back { IfOk result (ReadsBack levels.now lasts.new runs.new out_levels.new) }
{
    events_reply(levels, lasts.len(), runs.len(), out_levels.len())?;
    Ok(write::fill_events(levels, lasts, runs, out_levels))
}
