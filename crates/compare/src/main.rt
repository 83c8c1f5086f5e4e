// The original Rust's stored answers, held to what the library gives, and worked examples that are run and not proved, each with what it
// should give. docs/STORED.md says where the answers come from.

#![tactic(auto)]

use std::os::fd::AsRawFd;
use std::{fs, io};

mod examples;
mod tally;

fn main(rt: HostRuntime) -> io::Result<()> {
    examples::report_all(&rt);
    let input = fs::open(&rt, "calls")?;
    let tally = tally::replay_all(input.as_raw_fd());
    tally::print_all(&rt, &tally);
    Ok(())
}
