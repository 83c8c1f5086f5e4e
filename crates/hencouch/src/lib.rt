// The entries for C and Rust: numbers and slices only, a slice as a pointer and a length. Each answers 0, or the refusal's number.
#![tactic(auto)]

pub mod chroma;
pub mod copied;
pub mod inter;
pub mod levels;
pub mod motion;
pub mod predicted;
pub mod run;
pub mod sample;
pub mod samples;
pub mod transform;
pub mod whole;
