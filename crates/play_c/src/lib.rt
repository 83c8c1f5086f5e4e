// What a C main links: broodline over an open descriptor.
#![tactic(auto)]

ghost use Rattle.std.specs.Prelude.{◌≤◌};

// For a program whose main has an exit status: 0 where all that was to be printed is written, else 1.
#[unsafe(no_mangle)]
pub extern "C" fn hencouch_play(input: i32) -> u8
    ensures { result ≤ 1 }
{
    play::hencouch_play(input)
}
