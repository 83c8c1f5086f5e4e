// Motion search: a vector for a macroblock, or one for each of its four 8 x 8 blocks. Full samples first, then half and quarter
// samples around the winner. It leans on what `full_search`, `prediction` and `plane` promise and repeats none of their arithmetic.
#![tactic(auto)]

ghost use Rattle.std.specs.Prelude.{◌≡◌, true, ◌*◌, ◌<◌, ◌≤◌, length, IfOk, Ok};
ghost use Rattle.refusal.specs.Test.{between};
ghost use Rattle.plane.specs.Source.{eight_of, source_luma_reply};
ghost use Rattle.full_search.specs.Block.{eight, lent_block};
ghost use Rattle.search.specs.Range.{vector_in};
ghost use Rattle.search.specs.Request.{lent_search, settings_in, sought, settings_reply, search_reply, seed_reply, four_reply};
ghost use Rattle.search.specs.Estimate.{one_vector, block_vector, four_vectors_of, estimate_motion, estimate_four};
ghost use Rattle.search.specs.Demand.{OneVector, FourVectors};
ghost use Rattle.search.specs.Told.{Judged, Placed, Copied, EightSought, macroblock_target, eight_target};

use full_search::{Scored, Sought, Target};
use plane::{Geometry, MacroblockPlace, Point, SourceSize};
use prediction::BVopSampleMode;
use record::MotionVector;
use refusal::{Refusal, Reply};

mod grids;
mod half_grids;
mod range;
mod sub;

// What a search goes by: the mode of its vectors, their range, and the rounding type of the predictions that it sums.
#[derive(Clone, Copy, Debug, PartialEq, Eq)]
pub struct SearchSettings {
    pub mode: BVopSampleMode,
    pub fcode: u32,
    pub rounding: u8,
}

// What is searched for, in what, and by which numbers: a macroblock of a source's luma in a reference.
#[derive(Clone, Copy)]
pub struct SearchRequest<'a> {
    pub source: &'a [u8],
    pub size: SourceSize,
    pub place: MacroblockPlace,
    pub reference: &'a [u8],
    pub geometry: Geometry,
    pub mode: u32,
    pub bpp: u32,
    pub fcode: u32,
}

// A vector in vector units and its sum.
#[derive(Clone, Copy, Debug, PartialEq, Eq)]
pub struct Estimated {
    pub vector: MotionVector,
    pub sum: u32,
}

// The vectors of blocks 0 and 1 above 2 and 3, and their sums.
#[derive(Clone, Copy, Debug, PartialEq, Eq)]
pub struct EstimatedFour {
    pub vectors: [MotionVector; 4],
    pub sums: [u32; 4],
}

// 1, 2, 3
#[tactic(auto, unfolding(crate::specs::Request::settings_reply))]
pub fn settings_reply(fcode: u32, mode: u32, bpp: u32) -> Reply
    ensures { result ≡ settings_reply fcode mode bpp }
{
    refusal::require((1..=7).contains(&fcode), Refusal::Fcode)?;
    refusal::require(mode == 0 || mode == 1, Refusal::Mode)?;
    refusal::require(mode == 0 || (1..=8).contains(&bpp), Refusal::BitsPerPixel)
}

fn settings_in(rounding: u8, request: SearchRequest<'_>) -> SearchSettings
    ensures { result ≡ settings_in rounding (lent_search request.entry) }
{
    SearchSettings {
        mode: prediction::mode_of(request.mode, request.bpp),
        fcode: request.fcode,
        rounding,
    }
}

// 1 .. 8
#[tactic(auto, unfolding(crate::specs::Request::search_reply))]
fn search_reply(request: SearchRequest<'_>) -> Reply
    ensures { result ≡ search_reply (lent_search request.entry) }
{
    settings_reply(request.fcode, request.mode, request.bpp)?;
    plane::reference_reply(request.geometry, request.reference.len())?;
    plane::source::luma_reply(request.size, request.source.len(), request.place)
}

// Where a macroblock stands.
fn macroblock_target(geometry: Geometry, place: MacroblockPlace) -> Target
    requires { (16 * place.column ≤ 4080) × (16 * place.row ≤ 4080) }
    ensures { result ≡ macroblock_target geometry place }
{
    Target {
        geometry,
        corner: Point {
            x: (16 * place.column) as i32,
            y: (16 * place.row) as i32,
        },
        side: 16,
    }
}

// The macroblock that a search is for, its samples copied into a block.
#[tactic(auto, using(crate::proofs::Judge::block_done, crate::proofs::Judge::column_most, crate::proofs::Judge::row_most))]
fn copied_macroblock<'a>(request: SearchRequest<'a>, block: &'a mut [u8]) -> Sought<'a>
    requires { (source_luma_reply request.size (length request.source.now) request.place ≡ Ok tt) × (length block.old ≡ 256) }
    ensures { Copied (lent_search request.entry) result }
{
    plane::source::luma_block(request.source, request.size, request.place, block).unwrap();
    Sought {
        source: block,
        reference: request.reference,
        target: macroblock_target(request.geometry, request.place),
    }
}

// The vector of a macroblock.
fn one_vector(request: SearchRequest<'_>, settings: SearchSettings) -> Scored
    requires { Judged (lent_search request) settings }
    ensures { result ≡ one_vector settings (sought (lent_search request.entry)) }
{
    let mut block = [0u8; 256];
    let sought = copied_macroblock(request, &mut block);
    let w = range::full_pel_window(settings);
    // A target that was judged is not refused.
    let winner = full_search::search_sixteen(sought, settings.fcode, w).unwrap();
    sub::refine_subpel(sought, settings, winner)
}

// The vector in vector units that the candidate rule finds for a macroblock, and its sum: 1, 2, 3, 4, 5, 6, 7, 8.
#[tactic(auto, using(crate::proofs::Demanded::one_vector_lem), unfolding(crate::specs::Estimate::estimate_motion))]
pub fn estimate_motion(request: SearchRequest<'_>) -> Result<Estimated, Refusal>
    ensures value { result ≡ estimate_motion (lent_search request.entry) }
    ensures one_vector { let q = lent_search request.entry in
        IfOk result (λ found. OneVector (settings_in 0 q) (sought q) found.vector found.sum) }
{
    search_reply(request)?;
    let settings = settings_in(0, request);
    let best = one_vector(request, settings);
    Ok(Estimated {
        vector: best.vector,
        sum: best.cost,
    })
}

// 9
#[tactic(auto, unfolding(crate::specs::Request::seed_reply))]
fn seed_reply(fcode: u32, seed: MotionVector) -> Reply
    requires { between 1 7 fcode ≡ true }
    ensures { result ≡ seed_reply fcode seed }
{
    refusal::require(range::vector_in(seed, fcode), Refusal::Seed)
}

// 1 .. 9
#[tactic(auto, unfolding(crate::specs::Request::four_reply))]
fn four_reply(request: SearchRequest<'_>, seed: MotionVector) -> Reply
    ensures { result ≡ four_reply (lent_search request.entry) seed }
{
    search_reply(request)?;
    seed_reply(request.fcode, seed)
}

// The samples of 8 x 8 block n of a macroblock.
#[tactic(auto, using(crate::proofs::Eights::whole_usable, plane::proofs::Ready::copy_done))]
fn eight_samples(macroblock: &[u8], n: usize, out: &mut [u8])
    requires { (length macroblock.now ≡ 256) × (n < 4) × (length out.old ≡ 64) }
    ensures { out.new ≡ eight_of macroblock.now n }
{
    let whole = Geometry {
        width: 16,
        height: 16,
        stride: 16,
    };
    let at = Point {
        x: (8 * (n % 2)) as i32,
        y: (8 * (n / 2)) as i32,
    };
    plane::copy_block(macroblock, whole, at, 8, 8, out).unwrap();
}

// Where 8 x 8 block n of a macroblock stands.
fn eight_target(target: Target, n: usize) -> Target
    requires { Placed target.corner × (n < 4) }
    ensures { result ≡ eight_target target n }
{
    Target {
        corner: Point {
            x: target.corner.x + (8 * (n % 2)) as i32,
            y: target.corner.y + (8 * (n / 2)) as i32,
        },
        side: 8,
        ..target
    }
}

// The vector of 8 x 8 block n of the macroblock that is sought.
#[tactic(auto, using(crate::proofs::Eights::part_best, crate::proofs::Eights::part_searched))]
fn block_vector(
    sought: Sought<'_>,
    n: usize,
    settings: SearchSettings,
    seed: MotionVector,
) -> Scored
    requires { EightSought sought n settings seed }
    ensures { result ≡ block_vector settings seed (eight (lent_block sought.entry) n) }
{
    let mut block = [0u8; 64];
    eight_samples(sought.source, n, &mut block);
    let part = Sought {
        source: &block,
        reference: sought.reference,
        target: eight_target(sought.target, n),
    };
    let w = range::full_pel_window(settings);
    // A block of a target that was judged is not refused.
    let winner = full_search::search_eight(part, settings.mode, w, seed).unwrap();
    sub::refine_subpel(part, settings, winner)
}

// The vectors of a macroblock's four blocks.
fn four_vectors(
    request: SearchRequest<'_>,
    settings: SearchSettings,
    seed: MotionVector,
) -> EstimatedFour
    requires { Judged (lent_search request) settings × (vector_in settings.fcode seed ≡ true) }
    ensures { result ≡ four_vectors_of settings seed (sought (lent_search request.entry)) }
{
    let mut block = [0u8; 256];
    let sought = copied_macroblock(request, &mut block);
    let a = block_vector(sought, 0, settings, seed);
    let b = block_vector(sought, 1, settings, seed);
    let c = block_vector(sought, 2, settings, seed);
    let d = block_vector(sought, 3, settings, seed);
    EstimatedFour {
        vectors: [a.vector, b.vector, c.vector, d.vector],
        sums: [a.cost, b.cost, c.cost, d.cost],
    }
}

// The vectors of a macroblock's four 8 x 8 blocks around a seed in vector units, and their sums: 1, 2, 3, 4, 5, 6, 7, 8, 9.
#[tactic(auto, using(crate::proofs::Demanded::four_vectors), unfolding(crate::specs::Estimate::estimate_four))]
pub fn estimate_motion_4mv(
    request: SearchRequest<'_>,
    seed: MotionVector,
) -> Result<EstimatedFour, Refusal>
    ensures value { result ≡ estimate_four (lent_search request.entry) seed }
    ensures four_vectors { let q = lent_search request.entry in
        IfOk result (λ found. FourVectors (settings_in 0 q) seed (sought q) found.vectors found.sums) }
{
    four_reply(request, seed)?;
    let settings = settings_in(0, request);
    Ok(four_vectors(request, settings, seed))
}
