// What broodline does: it reads a clip's header and planes, then a row of predictions at a time, and prints a line for each macroblock.
// Every answer comes from `clip` and `picture`, which are proved; no contract can say what is read or written.
#![tactic(auto)]

ghost use Rattle.std.specs.Prelude.{◌≤◌};

use clip::Head;
use picture::Run;
use plane::SourceSize;
use refusal::{Refusal, Reply};
use std::ops::ControlFlow;
use taken::Taken;

mod row;
mod taken;

// A clip's planes, each in the first places of its area.
#[derive(Drop)]
struct Planes {
    y: [u8; 25344],
    cb: [u8; 6336],
    cr: [u8; 6336],
    reference: [u8; 25344],
}

fn source_size(head: Head) -> SourceSize {
    SourceSize {
        width: head.width,
        height: head.height,
    }
}

// 12, where the input does not fill the area.
fn fill(input: i32, area: &mut [u8]) -> Reply {
    let n = area.len();
    refusal::require(io::read_full(input, area) == n, Refusal::Length)
}

// Every macroblock of the picture; whether all that was to be printed is written.
fn play_rows(input: i32, taken: Taken, opened: Run, planes: &Planes) -> bool {
    let mut run = opened;
    for _row in 0..plane::source::macroblocks(taken.head.height) {
        if let ControlFlow::Break(written) = row::play_row(input, taken, &mut run, planes) {
            return written;
        }
    }
    true
}

// A picture whose header is taken: its planes, then its macroblocks.
fn play_picture(input: i32, taken: Taken) -> Result<bool, Refusal> {
    let head = taken.head;
    let run = picture::open(source_size(head))?;
    let lengths = clip::plane_lengths(head);
    let mut planes = Planes {
        y: [0; 25344],
        cb: [0; 6336],
        cr: [0; 6336],
        reference: [0; 25344],
    };
    fill(input, &mut planes.y[..lengths.luma])?;
    fill(input, &mut planes.cb[..lengths.chroma])?;
    fill(input, &mut planes.cr[..lengths.chroma])?;
    fill(input, &mut planes.reference[..lengths.luma])?;
    Ok(play_rows(input, taken, run, &planes))
}

// A header cut short is 12, a whole one is judged before anything after it is read.
#[tactic(auto, using(clip::proofs::Whole::judged_again))]
fn play_clip(input: i32) -> Result<bool, Refusal> {
    let mut bytes = [0u8; 8];
    let n = io::read_full(input, &mut bytes);
    let head = clip::read_header(&bytes, n)?;
    play_picture(input, Taken { head })
}

// A clip from its first byte. Whether all that was to be printed is written.
pub fn play(input: i32) -> bool {
    match play_clip(input) {
        Ok(written) => written,
        Err(why) => row::print_refusal(why),
    }
}

// For a program of C, which `play_c` exports it to: 0 where all that was to be printed is written, else 1.
pub fn hencouch_play(input: i32) -> u8
    ensures { result ≤ 1 }
{
    if play(input) { 0 } else { 1 }
}
