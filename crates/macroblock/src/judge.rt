// What turns a request back, number by number.
ghost use Rattle.std.specs.Prelude.{◌≡◌};
ghost use Rattle.coding.specs.Coding.{lent_areas};
ghost use Rattle.macroblock.specs.Request.{lent_request, areas_long, lengths_reply, choice_reply, reply_of};
ghost use Rattle.macroblock.specs.Predicted.{lent_predicted, predicted_reply_of};

use crate::{Lengths, PredictedLengths, PredictedRequest, Request};
use coding::EventAreas;
use plane::MacroblockPlace;
use refusal::{Refusal, Reply};

fn areas_long(weights: usize, lasts: usize, runs: usize, levels: usize) -> bool
    ensures { result ≡ areas_long weights lasts runs levels }
{
    weights == 64 && lasts == 384 && runs == 384 && levels == 384
}

// 12
#[tactic(auto, unfolding(crate::specs::Request::lengths_reply))]
fn lengths_reply(n: Lengths) -> Reply
    ensures { result ≡ lengths_reply n }
{
    refusal::require(
        n.pred_y == 256
            && n.pred_cb == 64
            && n.pred_cr == 64
            && areas_long(n.weights, n.lasts, n.runs, n.levels),
        Refusal::Length,
    )
}

// 14
#[tactic(auto, unfolding(crate::specs::Request::choice_reply))]
fn choice_reply(vectors: u32, scan: u32) -> Reply
    ensures { result ≡ choice_reply vectors scan }
{
    refusal::require(
        (vectors == 1 || vectors == 4) && (0..=2).contains(&scan),
        Refusal::Choice,
    )
}

// 1 2 3 4 5 6 7 8 10 11 12 14
#[tactic(auto, unfolding(crate::specs::Request::request_reply))]
pub fn request_reply(request: Request<'_>, place: MacroblockPlace, out: &EventAreas<'_>) -> Reply
    ensures { result ≡ reply_of (lent_request request.entry place (lent_areas out.now)) }
{
    let Request {
        settings,
        source,
        prediction,
        ..
    } = request;
    let n = Lengths {
        reference: request.reference.len(),
        y: source.y.len(),
        cb: source.cb.len(),
        cr: source.cr.len(),
        weights: request.weights.len(),
        pred_y: prediction.y.len(),
        pred_cb: prediction.cb.len(),
        pred_cr: prediction.cr.len(),
        lasts: out.lasts.len(),
        runs: out.runs.len(),
        levels: out.levels.len(),
    };
    search::settings_reply(settings.fcode, settings.mode, settings.bpp)?;
    plane::reference_reply(request.geometry, n.reference)?;
    plane::source::source_reply(request.size, n.y, n.cb, n.cr, place)?;
    quantise::weight_reply(settings.quantiser, settings.first_method, request.weights)?;
    lengths_reply(n)?;
    choice_reply(settings.vectors, settings.scan)
}

// 1 2 3 4 5 6 7 8 10 11 12 14 31, 4 and 5 of all three planes
#[tactic(auto, unfolding(crate::specs::Predicted::predicted_reply))]
pub fn predicted_reply(
    request: PredictedRequest<'_>,
    place: MacroblockPlace,
    out: &EventAreas<'_>,
) -> Reply
    ensures { result ≡ predicted_reply_of (lent_predicted request.entry place (lent_areas out.now)) }
{
    let settings = request.settings;
    let n = PredictedLengths {
        reference: prediction::plane_lengths(request.reference),
        source: prediction::plane_lengths(request.source),
        weights: request.weights.len(),
        lasts: out.lasts.len(),
        runs: out.runs.len(),
        levels: out.levels.len(),
    };
    search::settings_reply(settings.fcode, settings.mode, settings.bpp)?;
    prediction::planes_reply(request.geometry, n.reference)?;
    plane::source::source_reply(request.size, n.source.y, n.source.cb, n.source.cr, place)?;
    quantise::weight_reply(settings.quantiser, settings.first_method, request.weights)?;
    refusal::require(
        areas_long(n.weights, n.lasts, n.runs, n.levels),
        Refusal::Length,
    )?;
    choice_reply(settings.vectors, settings.scan)?;
    prediction::rounding_reply(request.rounding)
}
