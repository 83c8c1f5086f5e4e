// Reflected indices, and the filter between two samples of a line, on whole rows of taps.
ghost use Rattle.std.specs.Prelude.{◌≡◌, ◌+◌, ◌<◌, ◌≤◌, pos, ◌-ℤ◌, length};
ghost use Rattle.basis.specs.Lists.{tabulate};
ghost use Rattle.quarter_sample.specs.Filter.{mirror, fir, average, largest};
ghost use Rattle.quarter_sample.specs.ToldPasses.{fir_rows, near_rows, mix_rows, TapsFit};

// The place that index u - 3 of a side of `size` reads.
#[tactic(auto, unfolding(crate::specs::Filter::mirror))]
pub fn mirror_index(u: usize, size: usize) -> usize
    requires { (3 ≤ size) × (size ≤ 17) × (u < size + 6) }
    ensures { result ≡ mirror size (pos u -ℤ pos 3) }
{
    if u < 3 {
        2 - u
    } else if u < size + 3 {
        u - 3
    } else {
        2 * size + 2 - u
    }
}

pub fn largest_sample(bpp: u32) -> u8
    requires { (1 ≤ bpp) × (bpp ≤ 8) }
    ensures { result ≡ largest bpp }
{
    ((1u16 << bpp) - 1) as u8
}

// The weights are taken as eighths, so that 16 bits hold the sums; those below 0 are summed apart. The result is cut to a byte before
// it is cut to the largest sample: vectors have an instruction for either.
#[tactic(auto, using(crate::proofs::Weights::fir_eighths))]
fn fir(s0: u8, s1: u8, s2: u8, s3: u8, s4: u8, s5: u8, s6: u8, s7: u8, rc: u8, max: u8) -> u8
    requires { rc ≤ 1 }
    ensures { result ≡ fir rc max s0 s1 s2 s3 s4 s5 s6 s7 }
{
    let up = 20 * (u16::from(s3) + u16::from(s4))
        + 3 * (u16::from(s1) + u16::from(s6))
        + (16 - u16::from(rc));
    let down = 6 * (u16::from(s2) + u16::from(s5)) + (u16::from(s0) + u16::from(s7));
    let byte = (up.saturating_sub(down) / 32).min(255) as u8;
    byte.min(max)
}

fn average(x: u8, y: u8, rc: u8, max: u8) -> u8
    requires { rc ≤ 1 }
    ensures { result ≡ average rc max x y }
{
    let mean = (u16::from(x) + u16::from(y) + 1 - u16::from(rc)) / 2;
    mean.min(u16::from(max)) as u8
}

// Eight rows, one a tap, give the row half a sample on. What the loop rounds by and cuts to comes as numbers of their own and not in
// a struct: read out of one, the loop's sums are arranged otherwise, and fewer are done at once.
#[tactic(auto, using(basis::proofs::Lists::filled_none, basis::proofs::Lists::filled_set))]
fn half_taps(
    t0: &[u8],
    t1: &[u8],
    t2: &[u8],
    t3: &[u8],
    t4: &[u8],
    t5: &[u8],
    t6: &[u8],
    t7: &[u8],
    rc: u8,
    max: u8,
    out: &mut [u8],
)
    requires rc_bound { rc ≤ 1 }
    requires taps_fit { TapsFit t0.now t1.now t2.now t3.now t4.now t5.now t6.now t7.now (length out.old) }
    ensures { out.new ≡ tabulate (length out.old)
        (fir_rows rc max t0.now t1.now t2.now t3.now
        t4.now t5.now t6.now t7.now) }
{
    for i in 0..out.len() {
        out[i] = fir(
            t0[i], t1[i], t2[i], t3[i], t4[i], t5[i], t6[i], t7[i], rc, max,
        );
    }
}

// The same, averaged with the row before it or after it.
#[tactic(auto, using(basis::proofs::Lists::filled_none, basis::proofs::Lists::filled_set))]
fn near_taps(
    t0: &[u8],
    t1: &[u8],
    t2: &[u8],
    t3: &[u8],
    t4: &[u8],
    t5: &[u8],
    t6: &[u8],
    t7: &[u8],
    near: &[u8],
    rc: u8,
    max: u8,
    out: &mut [u8],
)
    requires rc_bound { (rc ≤ 1) × (length near.now ≡ length out.old) }
    requires taps_fit { TapsFit t0.now t1.now t2.now t3.now t4.now t5.now t6.now t7.now (length out.old) }
    ensures { out.new ≡ tabulate (length out.old)
        (near_rows rc max near.now t0.now t1.now t2.now t3.now
        t4.now t5.now t6.now t7.now) }
{
    for i in 0..out.len() {
        let half = fir(
            t0[i], t1[i], t2[i], t3[i], t4[i], t5[i], t6[i], t7[i], rc, max,
        );
        out[i] = average(near[i], half, rc, max);
    }
}

// Eight rows give the row a quarter, a half or three quarters on. The fraction is asked outside the loops: asked in a loop, it costs
// a branch a turn.
pub fn filter_taps(
    t0: &[u8],
    t1: &[u8],
    t2: &[u8],
    t3: &[u8],
    t4: &[u8],
    t5: &[u8],
    t6: &[u8],
    t7: &[u8],
    fraction: u8,
    rc: u8,
    max: u8,
    out: &mut [u8],
)
    requires fraction_bound { (0 < fraction) × (fraction < 4) × (rc ≤ 1) }
    requires taps_fit { TapsFit t0.now t1.now t2.now t3.now t4.now t5.now t6.now t7.now (length out.old) }
    ensures { out.new ≡ tabulate (length out.old)
        (mix_rows rc max fraction t0.now t1.now t2.now t3.now
        t4.now t5.now t6.now t7.now) }
{
    match fraction {
        1 => near_taps(t0, t1, t2, t3, t4, t5, t6, t7, t3, rc, max, out),
        2 => half_taps(t0, t1, t2, t3, t4, t5, t6, t7, rc, max, out),
        _ => near_taps(t0, t1, t2, t3, t4, t5, t6, t7, t4, rc, max, out),
    }
}
