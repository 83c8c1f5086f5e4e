// The events of a block's levels in scan order, written into three lent areas.
ghost use Rattle.std.specs.Prelude.{◌≡◌, cond, ◌+◌, ◌≤◌, ◌<◌, pos, length, replicate};
ghost use Rattle.scan.specs.Event.{is_zero, events_of, marks, area, lasts_area, runs_area, levels_area};
ghost use Rattle.scan.specs.Told.{SixtyFours};

// The zeros since the last event, with one level more.
#[tactic(auto, using(crate::proofs::Writing::zero_bits, crate::proofs::Writing::not_zero_bits))]
fn run_after(run: u8, x: i32) -> u8
    requires { run < 64 }
    ensures { result ≡ cond (is_zero x) (run + 1) 0 }
{
    if x == 0 { run + 1 } else { 0 }
}

// Runs and levels into two cleared areas; the count of events. Each level is stored before it is known to be an event's, so that no
// branch waits for it; what is left at the first free place is cleared at the end.
fn write_events(levels: &[i32], runs: &mut [u8], out_levels: &mut [i32]) -> usize
    requires levels_len { length levels.now ≡ 64 }
    requires runs_value { runs.old ≡ replicate 64 0 }
    requires out_levels_value { out_levels.old ≡ replicate 64 (pos 0) }
    ensures value { result ≡ length (events_of levels.now) }
    ensures runs_after { runs.new ≡ runs_area levels.now }
    ensures out_levels_after { out_levels.new ≡ levels_area levels.now }
{
    let mut count: usize = 0;
    let mut run: u8 = 0;
    for x in levels {
        let x = *x;
        runs[count] = run;
        out_levels[count] = x;
        count += usize::from(x != 0);
        run = run_after(run, x);
    }
    if count < 64 {
        runs[count] = 0;
    }
    count
}

// 1 at the last of `count` places of a cleared area.
#[tactic(auto, using(crate::proofs::Writing::marked))]
fn mark_last(lasts: &mut [u8], count: usize)
    requires lasts_value { lasts.old ≡ replicate 64 0 }
    requires count_bound { count ≤ 64 }
    ensures { lasts.new ≡ area 0 (marks count) }
{
    if count > 0 {
        lasts[count - 1] = 1;
    }
}

// The areas of a block's events, whatever stood there; the count of events.
#[tactic(auto, using(crate::proofs::Writing::events_length), unfolding(crate::specs::Event::lasts_area))]
pub fn fill_events(levels: &[i32], lasts: &mut [u8], runs: &mut [u8], out_levels: &mut [i32]) -> u8
    requires { SixtyFours (length levels.now) (length lasts.old) (length runs.old) (length out_levels.old) }
    ensures value { result ≡ length (events_of levels.now) }
    ensures lasts_after { lasts.new ≡ lasts_area levels.now }
    ensures runs_after { runs.new ≡ runs_area levels.now }
    ensures out_levels_after { out_levels.new ≡ levels_area levels.now }
{
    lasts.fill(0);
    runs.fill(0);
    out_levels.fill(0);
    let count = write_events(levels, runs, out_levels);
    mark_last(lasts, count);
    count as u8
}
