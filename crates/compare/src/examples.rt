// The worked examples without a star.
use plane::{MacroblockPlace, SourceSize};

// Residual all 1: first coefficient 8, others 0.
fn all_ones() -> bool {
    let residual = [1i32; 64];
    let mut out = [0i32; 64];
    let reply = fdct::forward_dct_8x8(&residual, &mut out);
    reply.is_ok() && out[0] == 8 && out[1..].iter().all(|x| *x == 0)
}

// One 255 among zeros: activity 255.
fn one_among_zeros() -> bool {
    let mut luma = [0u8; 256];
    luma[100] = 255;
    let size = SourceSize {
        width: 16,
        height: 16,
    };
    let place = MacroblockPlace { column: 0, row: 0 };
    macroblock::intra_activity(&luma, size, place) == Ok(255)
}

// What can't be written is passed over, and the program goes on.
fn report(rt: &HostRuntime, right: bool, name: &str) {
    let verdict = if right { "as it should be" } else { "WRONG" };
    let _ = println!(rt; "{name}: {verdict}");
}

pub fn report_all(rt: &HostRuntime) {
    report(
        rt,
        all_ones(),
        "residual all 1, first coefficient 8, others 0",
    );
    report(rt, one_among_zeros(), "one 255 among zeros, activity 255");
}
