// Samples copied as they are. Few of them are copied by eights or fours that are read whole before they are written, so that the
// compiler takes eight samples for one number; a last eight may overlap the one before it.
ghost use Rattle.std.specs.Prelude.{◌≡◌, ◌≤◌, length};

// Sample by sample: by the library's copy in its place a block of 16 x 16 took a third longer.
fn copy_each(from: &[u8], out: &mut [u8])
    requires { length from.now ≡ length out.old }
    ensures { out.new ≡ from.now }
{
    for i in 0..out.len() {
        out[i] = from[i];
    }
}

fn copy_held<const N: usize>(from: &[u8], out: &mut [u8])
    requires { (length from.now ≡ N) × (length out.old ≡ N) }
    ensures { out.new ≡ from.now }
{
    let mut held = [0u8; N];
    copy_each(from, &mut held);
    copy_each(&held, out);
}

// The first four and the last four.
fn copy_fours(from: &[u8], out: &mut [u8])
    requires { (4 ≤ length out.old) × (length out.old ≤ 8) × (length from.now ≡ length out.old) }
    ensures { out.new ≡ from.now }
{
    let last = out.len() - 4;
    copy_held::<4>(&from[..4], &mut out[..4]);
    copy_held::<4>(&from[last..], &mut out[last..]);
}

// Eights from the first on, and then the last eight.
fn copy_eights(from: &[u8], out: &mut [u8])
    requires { (8 ≤ length out.old) × (length from.now ≡ length out.old) }
    ensures { out.new ≡ from.now }
{
    let last = out.len() - 8;
    for k in 0..out.len() / 8 {
        let at = k * 8;
        let end = at + 8;
        copy_held::<8>(&from[at..end], &mut out[at..end]);
    }
    copy_held::<8>(&from[last..], &mut out[last..]);
}

pub fn copy_straight(from: &[u8], out: &mut [u8])
    requires { length from.now ≡ length out.old }
    ensures { out.new ≡ from.now }
{
    match out.len() {
        8..=31 => copy_eights(from, out),
        4..=7 => copy_fours(from, out),
        _ => copy_each(from, out),
    }
}
