// The full-sample search: of a 16 x 16 block, and of an 8 x 8 block around a seed; and the sum of absolute differences of two blocks.
#![tactic(auto)]

ghost use Rattle.std.specs.Prelude.{◌≡◌, length};
ghost use Rattle.full_search.specs.Costs.{consider};
ghost use Rattle.full_search.specs.Won.{window_reply, placed_reply, square_reply, sixteen_reply, seed_size_reply, eight_reply, sum_reply};
ghost use Rattle.full_search.specs.Won.{sixteen_won, eight_won, sum_of};
ghost use Rattle.full_search.specs.Window.{window_sum_reply, window_sum_of};

use judged::Judged;
use plane::{Geometry, Point};
use prediction::BVopSampleMode;
use record::MotionVector;
use refusal::{Refusal, Reply};

mod full;
mod judged;
mod rows;
mod sums;

// A displacement by whole samples, or a vector in vector units, with what it costs.
#[derive(Clone, Copy, Debug, PartialEq, Eq)]
pub struct Scored {
    pub vector: MotionVector,
    pub cost: u32,
}

// Where a block is searched for: the reference's geometry, where the block's corner stands in it, and the block's side.
#[derive(Clone, Copy, Debug, PartialEq, Eq)]
pub struct Target {
    pub geometry: Geometry,
    pub corner: Point,
    pub side: usize,
}

// A block that is searched for: its samples, row by row, the reference, and where the block stands in it.
#[derive(Clone, Copy)]
pub struct Sought<'a> {
    pub source: &'a [u8],
    pub reference: &'a [u8],
    pub target: Target,
}

// Places in a row: `count` from `from` on, `step` apart, of which those are listed that go `inner` to `outer` samples in either direction.
#[derive(Clone, Copy, Debug, PartialEq, Eq)]
pub struct Row {
    pub from: MotionVector,
    pub step: usize,
    pub count: usize,
    pub inner: usize,
    pub outer: usize,
}

// `count` rows of `count` places from `from` on, of which those are listed that go at most `outer` samples in either direction.
#[derive(Clone, Copy, Debug, PartialEq, Eq)]
pub struct Square {
    pub from: MotionVector,
    pub count: usize,
    pub outer: usize,
}

// Where a block's rows stand in samples: the first sample, and how far rows are apart.
#[derive(Clone, Copy, Debug, PartialEq, Eq)]
pub struct Lines {
    pub first: usize,
    pub stride: usize,
}

// Of the best so far and a displacement, the latter only where its cost is strictly smaller.
#[tactic(auto, unfolding(crate::specs::Costs::consider))]
pub fn consider(best: Scored, vector: MotionVector, cost: u32) -> Scored
    ensures { result ≡ consider (λ v. cost) best vector }
{
    if cost < best.cost {
        return Scored { vector, cost };
    }
    best
}

// 1
#[tactic(auto, unfolding(crate::specs::Won::window_reply))]
fn window_reply(window: usize) -> Reply
    ensures { result ≡ window_reply window }
{
    refusal::require(window <= 1023, Refusal::Fcode)
}

// 4, 5, 8
#[tactic(auto, unfolding(crate::specs::Won::placed_reply))]
fn placed_reply(bytes: usize, target: Target) -> Reply
    ensures { result ≡ placed_reply bytes target }
{
    let corner = target.corner;
    plane::reference_reply(target.geometry, bytes)?;
    refusal::require(
        (0..=4088).contains(&corner.x) && (0..=4088).contains(&corner.y),
        Refusal::Place,
    )
}

// 12, 14
#[tactic(auto, unfolding(crate::specs::Won::square_reply))]
fn square_reply(side: usize, area: usize, target: Target) -> Reply
    ensures { result ≡ square_reply side area target }
{
    plane::length_reply(area, side, side)?;
    refusal::require(target.side == side, Refusal::Choice)
}

// 1, 4, 5, 8, 12, 14
#[tactic(auto, unfolding(crate::specs::Won::sixteen_reply))]
fn sixteen_reply(sought: Sought<'_>, window: usize) -> Reply
    ensures { let s = sought.entry in result ≡ sixteen_reply (length s.source.now) (length s.reference.now) s.target window }
{
    window_reply(window)?;
    placed_reply(sought.reference.len(), sought.target)?;
    square_reply(16, sought.source.len(), sought.target)
}

// 9
#[tactic(auto, unfolding(crate::specs::Won::seed_size_reply))]
fn seed_reply(seed: MotionVector) -> Reply
    ensures { result ≡ seed_size_reply seed }
{
    refusal::require(plane::vector_in_range(seed), Refusal::Seed)
}

// 1, 4, 5, 8, 9, 12, 14
#[tactic(auto, unfolding(crate::specs::Won::eight_reply))]
fn eight_reply(sought: Sought<'_>, window: usize, seed: MotionVector) -> Reply
    ensures { let s = sought.entry in result ≡ eight_reply (length s.source.now) (length s.reference.now) s.target window seed }
{
    window_reply(window)?;
    placed_reply(sought.reference.len(), sought.target)?;
    seed_reply(seed)?;
    square_reply(8, sought.source.len(), sought.target)
}

// The winner of the full-sample list of one vector, with its cost, of the 256 samples of a 16 x 16 block: 1, 4, 5, 8, 12, 14.
#[tactic(auto, using(crate::proofs::Taken::sixteen_is), unfolding(crate::specs::Won::sixteen_won))]
pub fn search_sixteen(sought: Sought<'_>, fcode: u32, window: usize) -> Result<Scored, Refusal>
    ensures { let s = sought.entry in
        result ≡ sixteen_won s.source.now s.reference.now s.target fcode window }
{
    sixteen_reply(sought, window)?;
    Ok(full::full_search(Judged { sought }, fcode, window))
}

// The winner of the full-sample list of one of four, with its sum, of the 64 samples of an 8 x 8 block: 1, 4, 5, 8, 9, 12, 14.
#[tactic(auto, using(crate::proofs::Taken::eight_is), unfolding(crate::specs::Won::eight_won))]
pub fn search_eight(
    sought: Sought<'_>,
    mode: BVopSampleMode,
    window: usize,
    seed: MotionVector,
) -> Result<Scored, Refusal>
    ensures { let s = sought.entry in
        result ≡ eight_won s.source.now s.reference.now s.target mode window seed }
{
    eight_reply(sought, window, seed)?;
    Ok(full::four_search(Judged { sought }, window, mode, seed))
}

// 14, 12
#[tactic(auto, unfolding(crate::specs::Won::sum_reply))]
fn sum_reply(area: usize, predicted: usize, side: usize) -> Reply
    ensures { result ≡ sum_reply area predicted side }
{
    plane::side_reply(side, side)?;
    plane::length_reply(area, side, side)?;
    plane::length_reply(predicted, side, side)
}

// The sum of absolute differences of two blocks of side 8 or 16, each row by row; 0 where they are not such blocks.
#[tactic(auto, using(crate::proofs::Taken::block_sums), unfolding(crate::specs::Won::sum_of))]
pub fn block_sum(source: &[u8], predicted: &[u8], side: usize) -> u32
    ensures { result ≡ sum_of source.now predicted.now side }
{
    match sum_reply(source.len(), predicted.len(), side) {
        Err(_) => 0,
        Ok(()) => sums::block(source, side, predicted, 0, side, side),
    }
}

// 14, 12; 5: the window from `at` on is judged as a reference that is so wide and so high
#[tactic(auto, unfolding(crate::specs::Window::window_sum_reply))]
fn window_sum_reply(area: usize, bytes: usize, at: usize, stride: usize, side: usize) -> Reply
    ensures { result ≡ window_sum_reply area bytes at stride side }
{
    plane::side_reply(side, side)?;
    plane::length_reply(area, side, side)?;
    let square = Geometry {
        width: side,
        height: side,
        stride,
    };
    plane::reference_bytes_reply(square, bytes.saturating_sub(at))
}

// The sum of absolute differences of a block of side 8 or 16, row by row, and the one that stands at `at` in a window whose rows are
// `stride` samples apart; 0 where there are no such blocks.
#[tactic(auto, using(crate::proofs::WindowSums::window_sums), unfolding(crate::specs::Window::window_sum_of))]
pub fn window_sum(source: &[u8], window: &[u8], at: usize, stride: usize, side: usize) -> u32
    ensures { result ≡ window_sum_of source.now window.now at stride side }
{
    match window_sum_reply(source.len(), window.len(), at, stride, side) {
        Err(_) => 0,
        Ok(()) => sums::block(source, side, window, at, stride, side),
    }
}
