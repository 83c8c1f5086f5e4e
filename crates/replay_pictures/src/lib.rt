// Stored calls of the entries that search for a macroblock and code it, and of a picture's run, each made again: whether the reply and
// all that was lent are the stored ones. Every lent area is full of the bytes 0xa5 before its call, and has room past its end, which has
// to stay so.
#![tactic(auto)]

ghost use Rattle.std.specs.Prelude.{◌≡◌, false, get_or};
ghost use Rattle.replay_pictures.specs.Entries.{is_own};

mod lent;
mod predicted;
mod run;
mod whole;

// The entries 27 to 31, 36 and 37, by the header's order: false for any other.
pub fn replay(call: &[u8]) -> bool
    ensures { is_own (get_or call.now 0 0) ≡ false → result ≡ false }
{
    match stored::entry(call) {
        27 => whole::code_macroblock(call),
        28 => run::open(call),
        29 => run::next_place(call),
        30 => whole::step(call),
        31 => run::close(call),
        36 => predicted::code_predicted_macroblock(call),
        37 => predicted::step_predicted(call),
        _ => false,
    }
}
