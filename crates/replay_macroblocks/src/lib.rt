// Stored calls of the entries for searches and for the parts of a macroblock, each made again: whether the reply and all that was lent
// are the stored ones. Every lent area is full of the bytes 0xa5 before its call, and has room past its end, which has to stay so.
#![tactic(auto)]

ghost use Rattle.std.specs.Prelude.{◌≡◌, false, get_or};
ghost use Rattle.replay_macroblocks.specs.Entries.{is_own};

mod inter;
mod motion;

// The entries 20 to 26, by the header's order: false for any other.
pub fn replay(call: &[u8]) -> bool
    ensures { is_own (get_or call.now 0 0) ≡ false → result ≡ false }
{
    match stored::entry(call) {
        20 => motion::estimate_motion(call),
        21 => motion::estimate_motion_4mv(call),
        22 => inter::intra_activity(call),
        23 => inter::macroblock_residual(call),
        24 => inter::quantise_inter_block(call),
        25 => inter::quantise_inter_residual(call),
        26 => inter::inter_cbp(call),
        _ => false,
    }
}
