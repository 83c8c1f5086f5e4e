// The work on a request that is not refused, in which no step is: search, residual, events, record.
ghost use Rattle.std.specs.Prelude.{◌≡◌};
ghost use Rattle.plane.specs.Plane.{plane_of};
ghost use Rattle.search.specs.Request.{search_request, macroblock, search_reply};
ghost use Rattle.coding.specs.Coding.{counts_of, areas_of, lent_areas, SameAreas};
ghost use Rattle.macroblock.specs.Request.{lent_request, residual, search_in, quantising_in, reply_of};
ghost use Rattle.macroblock.specs.Answer.{searched_of, record_with, record_of};
ghost use Rattle.macroblock.specs.Told.{RequestNeeds};

use crate::{Request, Searched, Settings};
use coding::{EventAreas, Quantising};
use plane::{Geometry, MacroblockPlace, SourceSize};
use record::Record;
use search::{EstimatedFour, SearchRequest};

// The one vector, and the four around it where they are wanted.
#[tactic(auto, using(search::proofs::Answered::four_taken), unfolding(crate::specs::Answer::searched_of, search::specs::Estimate::estimate_motion, search::specs::Estimate::estimate_four))]
pub fn search_vectors(
    settings: Settings,
    source: &[u8],
    size: SourceSize,
    place: MacroblockPlace,
    reference: &[u8],
    geometry: Geometry,
) -> Searched
    requires { let q = search_request source.now size place reference.now geometry settings.mode settings.bpp settings.fcode in
        search_reply q ≡ Ok tt }
    ensures { let b = macroblock source.now size place (plane_of reference.now geometry) in
        result ≡ searched_of settings.vectors (search_in 0 settings) b }
{
    let request = SearchRequest {
        source,
        size,
        place,
        reference,
        geometry,
        mode: settings.mode,
        bpp: settings.bpp,
        fcode: settings.fcode,
    };
    let one = search::estimate_motion(request).unwrap();
    if settings.vectors != 4 {
        let Record { vectors, sums, .. } = record::no_record();
        return Searched {
            vector: one.vector,
            sum: one.sum,
            vectors,
            sums,
        };
    }
    let EstimatedFour { vectors, sums } = search::estimate_motion_4mv(request, one.vector).unwrap();
    Searched {
        vector: one.vector,
        sum: one.sum,
        vectors,
        sums,
    }
}

// The events of source less prediction, and how many each of the six blocks has.
#[tactic(auto, using(coding::proofs::Accepted::residual_ready, coding::proofs::Accepted::coding_ready))]
pub fn code_residual(
    request: Request<'_>,
    place: MacroblockPlace,
    out: &mut EventAreas<'_>,
) -> [u8; 6]
    requires { RequestNeeds (lent_request request place (lent_areas out.old)) }
    ensures value { let q = lent_request request.entry place (lent_areas out.old) in
        (result ≡ counts_of (quantising_in q) (residual q)) × (lent_areas out.new ≡ areas_of (quantising_in q) (residual q)) }
    ensures same_areas { SameAreas out.old out.new }
{
    let Request {
        settings,
        source,
        size,
        weights,
        prediction,
        ..
    } = request;
    let mut differences = [0i32; 384];
    coding::macroblock_residual(source, size, place, prediction, &mut differences).unwrap();
    let by = Quantising {
        quantiser: settings.quantiser,
        first_method: settings.first_method,
        weights,
        scan: settings.scan,
    };
    coding::quantise_inter_residual(&differences, by, out).unwrap()
}

// The record of what was found and how many events each block has.
pub fn record_with(found: Searched, counts: [u8; 6]) -> Record
    ensures { result ≡ record_with found counts }
{
    let patterns = coding::inter_cbp(counts);
    let Searched {
        vector,
        sum,
        vectors,
        sums,
    } = found;
    Record {
        vector,
        sum,
        vectors,
        sums,
        luma_pattern: patterns.luma,
        chroma_pattern: patterns.chroma,
        counts,
    }
}

// The record, with the events in the three areas.
#[tactic(auto, unfolding(crate::specs::Answer::record_at))]
pub fn code_ready(request: Request<'_>, place: MacroblockPlace, out: &mut EventAreas<'_>) -> Record
    requires { reply_of (lent_request request place (lent_areas out.old)) ≡ Ok tt }
    ensures value { let q = lent_request request.entry place (lent_areas out.old) in
        (result ≡ record_of q) × (lent_areas out.new ≡ areas_of (quantising_in q) (residual q)) }
    ensures same_areas { SameAreas out.old out.new }
{
    let Request {
        settings,
        reference,
        geometry,
        source,
        size,
        ..
    } = request;
    let found = search_vectors(settings, source.y, size, place, reference, geometry);
    let counts = code_residual(request, place, out);
    record_with(found, counts)
}
