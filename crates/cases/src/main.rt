// Stored clips, each played by what broodline runs: a line with the file's name, then what it prints.
#![tactic(auto)]

use std::os::fd::AsRawFd;
use std::{env, fs, io};

fn play_file(rt: &HostRuntime, name: &str) -> io::Result<()> {
    println!(rt; "{name}:")?;
    let input = fs::open(rt, name)?;
    play::play(input.as_raw_fd());
    Ok(())
}

fn main(rt: HostRuntime) -> io::Result<()> {
    for name in env::args(&rt)?.skip(1) {
        play_file(&rt, name.as_str())?;
    }
    Ok(())
}
