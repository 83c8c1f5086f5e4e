// A row of macroblocks: its predictions by one read, each step's line, and all its lines by one write.
ghost use Rattle.std.specs.Prelude.{◌≡◌, ◌+◌, ◌*◌, ◌/◌, ◌≤◌, ◌++◌, [], length};

use crate::Planes;
use crate::taken::Taken;
use arrayvec::ArrayVec;
use clip::{Head, Text};
use coding::EventAreas;
use macroblock::{Request, Settings};
use picture::Run;
use plane::{Geometry, Samples};
use record::Record;
use refusal::{Refusal, Reply};
use std::ops::ControlFlow;

// The descriptor of standard output.
const STDOUT: i32 = 1;

// A row's lines, with room for twelve.
type Lines = ArrayVec<u8, 2376>;

pub fn print_refusal(why: Refusal) -> bool {
    io::write_all(STDOUT, clip::refusal_line(why).as_bytes())
}

// A line more, which has room.
fn add_line(lines: &mut Lines, line: &Text)
    requires { length lines.old.items + 198 ≤ 2376 }
    ensures added { lines.new.items ≡ lines.old.items ++ line.now }
    ensures short { length lines.new.items ≤ length lines.old.items + 198 }
{
    let _ = lines.try_extend_from_slice(line.as_bytes());
}

// bpp 8, second method, zigzag.
fn settings_of(head: Head) -> Settings {
    Settings {
        fcode: head.fcode,
        mode: head.mode,
        bpp: 8,
        quantiser: head.quantiser,
        first_method: false,
        vectors: head.vectors,
        scan: 2,
    }
}

// The reference's rows stand one right after the other.
fn geometry_of(head: Head) -> Geometry {
    Geometry {
        width: head.width,
        height: head.height,
        stride: head.width,
    }
}

// The run's next macroblock against its prediction.
fn step(
    head: Head,
    run: &mut Run,
    planes: &Planes,
    prediction: &[u8; 384],
) -> Result<Record, Refusal> {
    // The second method uses no weight.
    let weights = [16u8; 64];
    let mut lasts = [0u8; 384];
    let mut runs = [0u8; 384];
    let mut levels = [0i32; 384];
    let request = Request {
        settings: settings_of(head),
        reference: &planes.reference,
        geometry: geometry_of(head),
        source: Samples {
            y: &planes.y,
            cb: &planes.cb,
            cr: &planes.cr,
        },
        size: crate::source_size(head),
        weights: &weights,
        prediction: Samples {
            y: &prediction[..256],
            cb: &prediction[256..320],
            cr: &prediction[320..384],
        },
    };
    let mut areas = EventAreas {
        lasts: &mut lasts,
        runs: &mut runs,
        levels: &mut levels,
    };
    picture::step(run, request, &mut areas)
}

// The lines of as many macroblocks as there are whole predictions, up to one that is refused.
fn add_steps(
    head: Head,
    run: &mut Run,
    planes: &Planes,
    predictions: &[u8],
    lines: &mut Lines,
) -> Reply
    requires { (length predictions.now ≤ 4224) × (lines.old.items ≡ []) }
    ensures { length lines.new.items ≤ 198 * (length predictions.now / 384) }
{
    let (whole, _cut) = predictions.as_chunks::<384>();
    for prediction in whole {
        let place = picture::next_place(*run);
        let given = step(head, run, planes, prediction)?;
        let line = clip::macroblock_line(place.column, place.row, given, head.vectors == 4);
        add_line(lines, &line);
    }
    Ok(())
}

// The lines of a row whose predictions may be cut short, those that are whole; then, where one is refused or missing, why.
#[tactic(auto, using(clip::proofs::Whole::small))]
fn add_row(input: i32, taken: Taken, run: &mut Run, planes: &Planes, lines: &mut Lines) -> Reply
    requires { lines.old.items ≡ [] }
    ensures { length lines.new.items ≤ 2178 }
{
    let head = taken.head;
    let wanted = 384 * plane::source::macroblocks(head.width);
    let mut predictions = [0u8; 4224];
    let n = io::read_full(input, &mut predictions[..wanted]).min(wanted);
    add_steps(head, run, planes, &predictions[..n], lines)?;
    refusal::require(n == wanted, Refusal::Length)
}

// A row, and its refusal after its lines. Where the clip goes on all is written; where it ends here, whether all is.
pub fn play_row(input: i32, taken: Taken, run: &mut Run, planes: &Planes) -> ControlFlow<bool> {
    let mut lines = Lines::new();
    let reply = add_row(input, taken, run, planes, &mut lines);
    if let Err(why) = reply {
        add_line(&mut lines, &clip::refusal_line(why));
    }
    let written = io::write_all(STDOUT, lines.as_slice());
    if reply.is_ok() && written {
        ControlFlow::Continue(())
    } else {
        ControlFlow::Break(written)
    }
}
