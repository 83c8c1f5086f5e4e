// The work on a request whose prediction is made here and that is not refused: search, prediction, residual, events, record.
ghost use Rattle.std.specs.Prelude.{◌≡◌};
ghost use Rattle.plane.specs.Samples.{written_samples, SameSamples};
ghost use Rattle.prediction.specs.Planes.{lengths_in};
ghost use Rattle.coding.specs.Coding.{areas_of, lent_areas, SameAreas};
ghost use Rattle.macroblock.specs.Request.{residual, quantising_in};
ghost use Rattle.macroblock.specs.Answer.{record_of};
ghost use Rattle.macroblock.specs.Predicted.{lent_predicted, predicted_reply_of, predicting};
ghost use Rattle.macroblock.specs.Told.{prediction_by, prediction_reply_by};

use crate::{PredictedRequest, Request, Searched, ready};
use coding::EventAreas;
use plane::{MacroblockPlace, Samples, SamplesMut};
use record::Record;

// The prediction by the vectors found.
fn predict_found(
    request: PredictedRequest<'_>,
    place: MacroblockPlace,
    found: Searched,
    out: &mut SamplesMut<'_>,
)
    requires { prediction_reply_by request place found (lengths_in (written_samples out.old)) ≡ Ok tt }
    ensures made { written_samples out.new ≡ prediction_by request.entry place found }
    ensures same_samples { SameSamples out.old out.new }
{
    let settings = request.settings;
    let mode = prediction::mode_of(settings.mode, settings.bpp);
    let motion = prediction::motion_of(settings.vectors, found.vector, found.vectors);
    prediction::predict_macroblock(
        request.reference,
        request.geometry,
        mode,
        motion,
        place,
        request.rounding,
        out,
    )
    .unwrap();
}

// The record, with the events in the three areas.
#[tactic(auto, unfolding(crate::specs::Answer::record_at, crate::specs::Predicted::made_prediction))]
pub fn code_predicted(
    request: PredictedRequest<'_>,
    place: MacroblockPlace,
    out: &mut EventAreas<'_>,
) -> Record
    requires { predicted_reply_of (lent_predicted request place (lent_areas out.old)) ≡ Ok tt }
    ensures value { let q = predicting (lent_predicted request.entry place (lent_areas out.old)) in
        (result ≡ record_of q) × (lent_areas out.new ≡ areas_of (quantising_in q) (residual q)) }
    ensures same_areas { SameAreas out.old out.new }
{
    let PredictedRequest {
        settings,
        reference,
        geometry,
        source,
        size,
        weights,
        ..
    } = request;
    let found = ready::search_vectors(settings, source.y, size, place, reference.y, geometry.luma);
    let mut y = [0u8; 256];
    let mut cb = [0u8; 64];
    let mut cr = [0u8; 64];
    let mut made = SamplesMut {
        y: &mut y,
        cb: &mut cb,
        cr: &mut cr,
    };
    predict_found(request, place, found, &mut made);
    let lending = Request {
        settings,
        reference: reference.y,
        geometry: geometry.luma,
        source,
        size,
        weights,
        prediction: Samples {
            y: &y,
            cb: &cb,
            cr: &cr,
        },
    };
    let counts = ready::code_residual(lending, place, out);
    ready::record_with(found, counts)
}
