// A picture's run: opened with the source's sizes, stepped once for each macroblock, row by row, closed with totals.
#![tactic(auto)]

ghost use Rattle.std.specs.Prelude.{◌≡◌, nat_lt, OnOk};
ghost use Rattle.coding.specs.Coding.{lent_areas, SameAreas};
ghost use Rattle.macroblock.specs.Request.{lent_request};
ghost use Rattle.macroblock.specs.Demand.{Demand};
ghost use Rattle.macroblock.specs.Predicted.{lent_predicted, PredictedDemand};
ghost use Rattle.picture.specs.Run.{macroblocks_in, open_of, next_place, run_reply, after, stepped_to, step_of, predicted_step_of, close_of};

use coding::EventAreas;
use macroblock::{PredictedRequest, Request};
use plane::{MacroblockPlace, SourceSize};
use record::Record;
use refusal::{Refusal, Reply};

// The sizes at opening; how many records were given, which is the next macroblock's place; their events and one-vector sums.
#[derive(Clone, Copy, Debug, PartialEq, Eq)]
pub struct Run {
    pub size: SourceSize,
    pub macroblocks: u64,
    pub events: u64,
    pub sums: u64,
}

// Over the records given.
#[derive(Clone, Copy, Debug, PartialEq, Eq)]
pub struct Totals {
    pub macroblocks: u64,
    pub events: u64,
    pub sums: u64,
}

// Whether fewer macroblocks were given than cover the picture. Sides of a forged run may be of any size, so that nothing is multiplied.
#[tactic(auto, using(crate::proofs::Places::none_left, crate::proofs::Places::row_left))]
fn has_next(run: Run) -> bool
    ensures { result ≡ nat_lt run.macroblocks (macroblocks_in run.size) }
{
    let columns = plane::source::macroblocks(run.size.width);
    let rows = plane::source::macroblocks(run.size.height);
    columns != 0 && (run.macroblocks as usize) / columns < rows
}

// 6
#[tactic(auto, unfolding(crate::specs::Run::open_of))]
pub fn open(size: SourceSize) -> Result<Run, Refusal>
    ensures { result ≡ open_of size }
{
    plane::source::source_side_reply(size)?;
    Ok(Run {
        size,
        macroblocks: 0,
        events: 0,
        sums: 0,
    })
}

// 21, 22
#[tactic(auto, unfolding(crate::specs::Run::run_reply))]
fn run_reply(run: Run, size: SourceSize) -> Reply
    ensures { result ≡ run_reply run size }
{
    refusal::require(has_next(run), Refusal::AfterLast)?;
    refusal::require(run.size == size, Refusal::OtherSize)
}

// Where the next macroblock stands, row by row. A forged run's picture may have no columns: then all its macroblocks would stand in
// one row.
pub fn next_place(run: Run) -> MacroblockPlace
    ensures { result ≡ next_place run }
{
    let columns = plane::source::macroblocks(run.size.width);
    let next = run.macroblocks as usize;
    if columns == 0 {
        return MacroblockPlace {
            column: next,
            row: 0,
        };
    }
    MacroblockPlace {
        column: next % columns,
        row: next / columns,
    }
}

// The run after a record.
fn after(run: Run, given: Record) -> Run
    ensures { result ≡ after run given }
{
    Run {
        size: run.size,
        macroblocks: run.macroblocks.wrapping_add(1),
        events: run.events.wrapping_add(record::event_count(given.counts)),
        sums: run.sums.wrapping_add(u64::from(given.sum)),
    }
}

// Searches for the next macroblock and codes it against a lent prediction: 21, 22, then as `macroblock::code_macroblock`, whose answer
// it is. Refused, the run is as it went in, and so are the areas. Where it is not refused, demand 3 holds of the answer.
#[tactic(auto, unfolding(crate::specs::Run::step_of))]
pub fn step(
    run: &mut Run,
    request: Request<'_>,
    out: &mut EventAreas<'_>,
) -> Result<Record, Refusal>
    ensures value { let q = lent_request request.entry (next_place run.old) (lent_areas out.old) in
        let a = stepped_to result run.new (lent_areas out.new) in
        (a ≡ step_of run.old q) × OnOk result (Demand 0 q a.answer) }
    ensures same_areas { SameAreas out.old out.new }
{
    run_reply(*run, request.size)?;
    let record = macroblock::code_macroblock(request, next_place(*run), out)?;
    *run = after(*run, record);
    Ok(record)
}

// Searches for the next macroblock, predicts it by the vectors found and codes it: 21, 22, then as `macroblock::code_predicted_macroblock`,
// whose answer it is. Refused, the run is as it went in, and so are the areas. Where it is not refused, demand 3 holds of the answer, and
// what is coded against is what the reader gets.
#[tactic(auto, unfolding(crate::specs::Run::predicted_step_of))]
pub fn step_predicted(
    run: &mut Run,
    request: PredictedRequest<'_>,
    out: &mut EventAreas<'_>,
) -> Result<Record, Refusal>
    ensures value { let n = lent_predicted request.entry (next_place run.old) (lent_areas out.old) in
        let a = stepped_to result run.new (lent_areas out.new) in
        (a ≡ predicted_step_of run.old n) × OnOk result (PredictedDemand n a.answer) }
    ensures same_areas { SameAreas out.old out.new }
{
    run_reply(*run, request.size)?;
    let record = macroblock::code_predicted_macroblock(request, next_place(*run), out)?;
    *run = after(*run, record);
    Ok(record)
}

// The totals over the records given: 23.
#[tactic(auto, using(crate::proofs::Replies::none_is), unfolding(crate::specs::Run::close_of, crate::specs::Run::close_reply))]
pub fn close(run: Run) -> Result<Totals, Refusal>
    ensures { result ≡ close_of run }
{
    refusal::require(!has_next(run), Refusal::BeforeLast)?;
    Ok(Totals {
        macroblocks: run.macroblocks,
        events: run.events,
        sums: run.sums,
    })
}
