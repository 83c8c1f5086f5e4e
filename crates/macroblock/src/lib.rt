// One macroblock: its activity, and the entries that search for it and code it, against a lent prediction or one made here.
#![tactic(auto)]

ghost use Rattle.std.specs.Prelude.{◌≡◌, OnOk};
ghost use Rattle.coding.specs.Coding.{lent_areas, SameAreas};
ghost use Rattle.macroblock.specs.Request.{lent_request};
ghost use Rattle.macroblock.specs.Answer.{answered, answer_of};
ghost use Rattle.macroblock.specs.Demand.{Demand};
ghost use Rattle.macroblock.specs.Predicted.{lent_predicted, predicted_answer_of, PredictedDemand};
ghost use Rattle.macroblock.specs.Activities.{intra_activity};

use coding::EventAreas;
use plane::{Geometry, MacroblockPlace, Samples, SourceSize};
use prediction::{PlaneLengths, ReferenceGeometry};
use record::{MotionVector, Record};
use refusal::Refusal;

mod activities;
mod judge;
mod predicted;
mod ready;

// fcode 1..7; mode 0 (half) or 1 (quarter) and its bits per pixel; quantiser 1..31 and whether by the first method; one vector or four;
// scan 0..2.
#[derive(Clone, Copy, Debug, PartialEq, Eq)]
pub struct Settings {
    pub fcode: u32,
    pub mode: u32,
    pub bpp: u32,
    pub quantiser: u32,
    pub first_method: bool,
    pub vectors: u32,
    pub scan: u32,
}

// What is coded, from what and by which settings, but for where the macroblock stands: the reference's luma, the source's planes, the
// matrix of the first method, and the prediction that is lent.
#[derive(Clone, Copy)]
pub struct Request<'a> {
    pub settings: Settings,
    pub reference: &'a [u8],
    pub geometry: Geometry,
    pub source: Samples<'a>,
    pub size: SourceSize,
    pub weights: &'a [u8],
    pub prediction: Samples<'a>,
}

// The same where the prediction is made here, from the reference's planes at a rounding type.
#[derive(Clone, Copy)]
pub struct PredictedRequest<'a> {
    pub settings: Settings,
    pub rounding: u8,
    pub reference: Samples<'a>,
    pub geometry: ReferenceGeometry,
    pub source: Samples<'a>,
    pub size: SourceSize,
    pub weights: &'a [u8],
}

// The one vector and its sum; the four and theirs, all 0 where four were not searched for.
#[derive(Clone, Copy)]
struct Searched {
    pub vector: MotionVector,
    pub sum: u32,
    pub vectors: [MotionVector; 4],
    pub sums: [u32; 4],
}

// The lengths of what a call lends.
#[derive(Clone, Copy)]
struct Lengths {
    pub reference: usize,
    pub y: usize,
    pub cb: usize,
    pub cr: usize,
    pub weights: usize,
    pub pred_y: usize,
    pub pred_cb: usize,
    pub pred_cr: usize,
    pub lasts: usize,
    pub runs: usize,
    pub levels: usize,
}

// The lengths of what a call lends whose prediction is made here.
#[derive(Clone, Copy)]
struct PredictedLengths {
    pub reference: PlaneLengths,
    pub source: PlaneLengths,
    pub weights: usize,
    pub lasts: usize,
    pub runs: usize,
    pub levels: usize,
}

// How far a macroblock's luma lies from its mean: 6, 7, 8.
#[tactic(auto, unfolding(crate::specs::Activities::intra_activity, plane::specs::Reference::length_reply))]
pub fn intra_activity(y: &[u8], size: SourceSize, place: MacroblockPlace) -> Result<u32, Refusal>
    ensures { result ≡ intra_activity y.now size place }
{
    let mut block = [0u8; 256];
    plane::source::luma_block(y, size, place, &mut block)?;
    Ok(activities::activity(&block))
}

// Searches for a macroblock and codes it against a lent prediction: 1, 2, 3, 4, 5, 6, 7, 8, 10, 11, 12, 14. Where it is not refused,
// demand 3 holds of the answer.
#[tactic(auto, unfolding(crate::specs::Answer::answer_by))]
pub fn code_macroblock(
    request: Request<'_>,
    place: MacroblockPlace,
    out: &mut EventAreas<'_>,
) -> Result<Record, Refusal>
    ensures value { let q = lent_request request.entry place (lent_areas out.old) in
        let a = answered result (lent_areas out.new) in
        (a ≡ answer_of q) × OnOk result (Demand 0 q a) }
    ensures same_areas { SameAreas out.old out.new }
{
    judge::request_reply(request, place, out)?;
    Ok(ready::code_ready(request, place, out))
}

// Searches for a macroblock, predicts it by the vectors found and codes it: 1, 2, 3, 4, 5, 6, 7, 8, 10, 11, 12, 14, 31. Where it is not
// refused, demand 3 holds of the answer, and what is coded against is what the reader gets.
#[tactic(auto, unfolding(crate::specs::Answer::answer_by))]
pub fn code_predicted_macroblock(
    request: PredictedRequest<'_>,
    place: MacroblockPlace,
    out: &mut EventAreas<'_>,
) -> Result<Record, Refusal>
    ensures value { let n = lent_predicted request.entry place (lent_areas out.old) in
        let a = answered result (lent_areas out.new) in
        (a ≡ predicted_answer_of n) × OnOk result (PredictedDemand n a) }
    ensures same_areas { SameAreas out.old out.new }
{
    judge::predicted_reply(request, place, out)?;
    Ok(predicted::code_predicted(request, place, out))
}
