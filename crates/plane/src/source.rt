// The source picture of a macroblock: what its sizes, planes and place are refused for (6, 7, 8), and its blocks.
// Sizes that are not yet known to be small are never added, and multiplied only with a check, so every refusal is judged for any numbers.
ghost use Rattle.std.specs.Prelude.{◌≡◌, length};
ghost use Rattle.refusal.specs.Reply.{done};
ghost use Rattle.plane.specs.Plane.{copied_block};
ghost use Rattle.plane.specs.Corner.{corner_at};
ghost use Rattle.plane.specs.ToldHeld.{PartNeeds};
ghost use Rattle.plane.specs.Source.{halved, chroma_size, packed, source_side_reply, holds, macroblocks_of, place_reply, source_luma_reply, source_chroma_reply, source_reply, source_luma, source_chroma, source_luma_block_reply, source_chroma_block_reply};

use crate::{MacroblockPlace, Point, SourceSize};
use refusal::{Refusal, Reply};

// A chroma side: half the luma side, rounded up.
pub fn halved(n: usize) -> usize
    ensures { result ≡ halved n }
{
    n / 2 + n % 2
}

fn chroma_size(size: SourceSize) -> SourceSize
    ensures { result ≡ chroma_size size }
{
    SourceSize {
        width: halved(size.width),
        height: halved(size.height),
    }
}

// How many macroblocks cover a side.
pub fn macroblocks(side: usize) -> usize
    ensures { result ≡ macroblocks_of side }
{
    side / 16 + (side % 16 + 15) / 16
}

// Whether n samples are a plane's width times its height or more.
fn holds(size: SourceSize, n: usize) -> bool
    ensures { result ≡ holds size n }
{
    size.width
        .checked_mul(size.height)
        .is_some_and(|area| area <= n)
}

// 6
#[tactic(auto, unfolding(crate::specs::Source::source_side_reply))]
pub fn source_side_reply(size: SourceSize) -> Reply
    ensures { result ≡ source_side_reply size }
{
    refusal::require(
        (1..=4096).contains(&size.width) && (1..=4096).contains(&size.height),
        Refusal::SourceSide,
    )
}

// 8
#[tactic(auto, unfolding(crate::specs::Source::place_reply))]
fn place_reply(size: SourceSize, place: MacroblockPlace) -> Reply
    ensures { result ≡ place_reply size place }
{
    refusal::require(
        place.column < macroblocks(size.width) && place.row < macroblocks(size.height),
        Refusal::Place,
    )
}

// 6, 7 for luma alone, 8.
#[tactic(auto, unfolding(crate::specs::Source::source_luma_reply))]
pub fn luma_reply(size: SourceSize, y: usize, place: MacroblockPlace) -> Reply
    ensures { result ≡ source_luma_reply size y place }
{
    source_side_reply(size)?;
    refusal::require(holds(size, y), Refusal::SourcePlane)?;
    place_reply(size, place)
}

// 6, 7 for one chroma plane, 8.
#[tactic(auto, unfolding(crate::specs::Source::source_chroma_reply))]
pub fn chroma_reply(size: SourceSize, chroma: usize, place: MacroblockPlace) -> Reply
    ensures { result ≡ source_chroma_reply size chroma place }
{
    source_side_reply(size)?;
    refusal::require(holds(chroma_size(size), chroma), Refusal::SourcePlane)?;
    place_reply(size, place)
}

// 6, 7 for all three planes, 8.
#[tactic(auto, unfolding(crate::specs::Source::source_reply))]
pub fn source_reply(
    size: SourceSize,
    y: usize,
    cb: usize,
    cr: usize,
    place: MacroblockPlace,
) -> Reply
    ensures { result ≡ source_reply size y cb cr place }
{
    let small = chroma_size(size);
    source_side_reply(size)?;
    refusal::require(
        holds(size, y) && holds(small, cb) && holds(small, cr),
        Refusal::SourcePlane,
    )?;
    place_reply(size, place)
}

// The block of `side` columns and rows that is the macroblock's in a plane of this size.
fn copy_part(samples: &[u8], size: SourceSize, place: MacroblockPlace, side: usize, out: &mut [u8])
    requires { PartNeeds samples.now size place side (length out.old) }
    ensures { out.new ≡ copied_block (packed samples.now size) (corner_at side place) side side }
{
    let at = Point {
        x: (side * place.column) as i32,
        y: (side * place.row) as i32,
    };
    crate::copy::copy_rows(
        samples,
        size.width,
        size.height,
        size.width,
        at,
        side,
        side,
        out,
    );
}

// The macroblock's 16 x 16 luma samples, row by row: 6, 7, 8, 12.
pub fn luma_block(y: &[u8], size: SourceSize, place: MacroblockPlace, out: &mut [u8]) -> Reply
    ensures value { result ≡ source_luma_block_reply size (length y.now) place (length out.old) }
    ensures out_after { out.new ≡ done result (source_luma y.now size place) out.old }
{
    luma_reply(size, y.len(), place)?;
    crate::length_reply(out.len(), 16, 16)?;
    copy_part(y, size, place, 16, out);
    Ok(())
}

// The macroblock's 8 x 8 samples of a chroma plane, row by row: 6, 7, 8, 12. The size is luma's.
pub fn chroma_block(
    chroma: &[u8],
    size: SourceSize,
    place: MacroblockPlace,
    out: &mut [u8],
) -> Reply
    ensures value { result ≡ source_chroma_block_reply size (length chroma.now) place (length out.old) }
    ensures out_after { out.new ≡ done result (source_chroma chroma.now size place) out.old }
{
    chroma_reply(size, chroma.len(), place)?;
    crate::length_reply(out.len(), 8, 8)?;
    copy_part(chroma, chroma_size(size), place, 8, out);
    Ok(())
}
