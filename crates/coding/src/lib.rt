// A macroblock's residual, and its levels and events.
#![tactic(auto)]

ghost use Rattle.std.specs.Prelude.{◌≡◌, length};
ghost use Rattle.refusal.specs.Reply.{done};
ghost use Rattle.plane.specs.Samples.{lent_samples};
ghost use Rattle.coding.specs.Residual.{source_in, residual_of, ResidualRange};
ghost use Rattle.coding.specs.Coding.{lent_quantising, lent_areas, SameAreas, block_areas, areas_of, patterns_of};
ghost use Rattle.coding.specs.Reply.{samples_reply, areas_reply, block_events, residual_events};

use plane::{MacroblockPlace, Samples, SourceSize};
use refusal::{Refusal, Reply};

mod events;
mod residual;

// Block 0 is the luma pattern's bit worth 8, block 3 worth 1; Cb is the chroma pattern's bit worth 2, Cr worth 1.
#[derive(Clone, Copy, Debug, PartialEq, Eq)]
pub struct Patterns {
    pub luma: u8,
    pub chroma: u8,
}

// What levels and events are made by: the quantiser, the first method, if it is that, with its weights, and the scan.
#[derive(Clone, Copy)]
pub struct Quantising<'a> {
    pub quantiser: u32,
    pub first_method: bool,
    pub weights: &'a [u8],
    pub scan: u32,
}

// Events that are written: which is its block's last, how many zeros stand before each, and their levels; 64 of each to a block.
#[derive(Drop)]
pub struct EventAreas<'a> {
    pub lasts: &'a mut [u8],
    pub runs: &'a mut [u8],
    pub levels: &'a mut [i32],
}

// 6, 7, 8, 12
#[tactic(auto, unfolding(crate::specs::Reply::residual_reply))]
fn residual_reply(
    source: Samples<'_>,
    size: SourceSize,
    place: MacroblockPlace,
    prediction: Samples<'_>,
    area: usize,
) -> Reply
    ensures { result ≡ samples_reply (lent_samples source.entry) size place (lent_samples prediction.entry) area }
{
    plane::source::source_reply(
        size,
        source.y.len(),
        source.cb.len(),
        source.cr.len(),
        place,
    )?;
    refusal::require(
        prediction.y.len() == 256
            && prediction.cb.len() == 64
            && prediction.cr.len() == 64
            && area == 384,
        Refusal::Length,
    )
}

// Source less prediction, in six blocks of 64: 6, 7, 8, 12. Where it is done, all 384 lie in -255..255.
#[tactic(auto, using(crate::proofs::Accepted::residual_accepted))]
pub fn macroblock_residual(
    source: Samples<'_>,
    size: SourceSize,
    place: MacroblockPlace,
    prediction: Samples<'_>,
    out: &mut [i32],
) -> Reply
    ensures value { result ≡ samples_reply (lent_samples source.entry) size place (lent_samples prediction.entry) (length out.old) }
    ensures out_after { let from = source_in (lent_samples source.entry) size place in
        out.new ≡ done result (residual_of from (lent_samples prediction.entry)) out.old }
    ensures residual_range { result ≡ Ok tt → ResidualRange 384 out.new }
{
    residual_reply(source, size, place, prediction, out.len())?;
    residual::macroblock_residual(source, size, place, prediction, out);
    Ok(())
}

// Which of six blocks have an event.
pub fn inter_cbp(counts: [u8; 6]) -> Patterns
    ensures { result ≡ patterns_of counts }
{
    let [a, b, c, d, blue, red] = counts;
    Patterns {
        luma: events::pattern(&[a, b, c, d]),
        chroma: events::pattern(&[blue, red]),
    }
}

// 10, 11, 12, 13, 14 for a residual of n places.
#[tactic(auto, unfolding(crate::specs::Reply::coding_reply))]
fn coding_reply(n: usize, residual: &[i32], by: Quantising<'_>, out: &EventAreas<'_>) -> Reply
    ensures { result ≡ areas_reply n residual.now (lent_quantising by.entry) (lent_areas out.now) }
{
    quantise::weight_reply(by.quantiser, by.first_method, by.weights)?;
    refusal::require(
        residual.len() == n
            && by.weights.len() == 64
            && out.lasts.len() == n
            && out.runs.len() == n
            && out.levels.len() == n,
        Refusal::Length,
    )?;
    refusal::require(refusal::all_in_range(-255, 255, residual), Refusal::Range)?;
    refusal::require((0..=2).contains(&by.scan), Refusal::Choice)
}

// The events of a block's residual: 10, 11, 12, 13, 14.
#[tactic(auto, using(crate::proofs::Accepted::coding_accepted))]
pub fn quantise_inter_block(
    residual: &[i32],
    by: Quantising<'_>,
    out: &mut EventAreas<'_>,
) -> Result<u8, Refusal>
    ensures value { let reply = areas_reply 64 residual.now (lent_quantising by.entry) (lent_areas out.old) in
        result ≡ block_events reply (lent_quantising by.entry) residual.now }
    ensures out_after { lent_areas out.new
        ≡ done result (block_areas (lent_quantising by.entry) residual.now) (lent_areas out.old) }
    ensures same_areas { SameAreas out.old out.new }
{
    coding_reply(64, residual, by, out)?;
    Ok(events::quantise_inter_block(residual, by, out.lasts, out.runs, out.levels))
}

// The events of all six blocks, each in its own area: 10, 11, 12, 13, 14.
#[tactic(auto, using(crate::proofs::Accepted::coding_accepted))]
pub fn quantise_inter_residual(
    residual: &[i32],
    by: Quantising<'_>,
    out: &mut EventAreas<'_>,
) -> Result<[u8; 6], Refusal>
    ensures value { let reply = areas_reply 384 residual.now (lent_quantising by.entry) (lent_areas out.old) in
        result ≡ residual_events reply (lent_quantising by.entry) residual.now }
    ensures out_after { lent_areas out.new
        ≡ done result (areas_of (lent_quantising by.entry) residual.now) (lent_areas out.old) }
    ensures same_areas { SameAreas out.old out.new }
{
    coding_reply(384, residual, by, out)?;
    Ok(events::quantise_inter_residual(residual, by, out))
}
