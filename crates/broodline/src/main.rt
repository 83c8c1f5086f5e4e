// The program: a clip on standard input, a line for each macroblock on standard output.
#![tactic(auto)]

use std::process::ExitCode;

// The descriptor of standard input.
const STDIN: i32 = 0;

fn main(rt: HostRuntime) -> ExitCode {
    if play::play(STDIN) {
        return ExitCode::SUCCESS;
    }
    let _ = eprintln!(rt; "broodline: standard output");
    ExitCode::FAILURE
}
